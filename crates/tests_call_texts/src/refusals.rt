//! Refusals of schedules and of scripts as text: a bad line is told by its number, which docs/PROGRAMS.md counts from 1.
use call_text::scripts::reading::ScriptRefusal;
use schedule_text::reading::ScheduleRefusal;
use std::test::Fail;
use tests_texts::are_told;

/// Why a schedule isn't read.
static SCHEDULES: [(ScheduleRefusal, &str); 4] = [
    (ScheduleRefusal::BadLine(1), "bad line 1"),
    (ScheduleRefusal::BadLine(40), "bad line 40"),
    (
        ScheduleRefusal::BadLine(u64::MAX),
        "bad line 18446744073709551615",
    ),
    (ScheduleRefusal::OutOfMemory, "OutOfMemory"),
];

/// Why a script isn't read.
static SCRIPTS: [(ScriptRefusal, &str); 4] = [
    (ScriptRefusal::BadLine(1), "bad line 1"),
    (ScriptRefusal::BadLine(40), "bad line 40"),
    (
        ScriptRefusal::BadLine(u64::MAX),
        "bad line 18446744073709551615",
    ),
    (ScriptRefusal::OutOfMemory, "OutOfMemory"),
];

#[test]
fn bad_lines_are_told(rt: HostRuntime) -> Result<(), Fail> {
    are_told(rt.alloc(), &SCHEDULES)?;
    are_told(rt.alloc(), &SCRIPTS)
}
