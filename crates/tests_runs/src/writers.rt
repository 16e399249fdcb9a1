//! Writers that fail: what went out is a beginning of the transcript, and a line says so.

use crate::compared::failing::{Printed, is_printed};
use std::test::Fail;

/// The transcript has lines of 12, 30 and 13 bytes, which take 3, 6 and 3 calls; the line on the other writer has 29, which take 6.
static ROWS: [Printed; 6] = [
    (0, 6, "", "cannot write standard output\n", 1),
    (2, 6, "started 1.", "cannot write standard output\n", 1),
    (3, 6, "started 1.1\n", "cannot write standard output\n", 1),
    (
        11,
        6,
        "started 1.1\nissue 1 read 4096 1024 to 1.1\nunanswered",
        "cannot write standard output\n",
        1,
    ),
    (
        11,
        2,
        "started 1.1\nissue 1 read 4096 1024 to 1.1\nunanswered",
        "cannot wri",
        1,
    ),
    (
        12,
        0,
        "started 1.1\nissue 1 read 4096 1024 to 1.1\nunanswered 1\n",
        "",
        0,
    ),
];

#[test]
fn writers_fail(rt: HostRuntime) -> Result<(), Fail> {
    for row in &ROWS {
        is_printed(rt.alloc(), "call 0 0 0 100 stat /\n", row)?;
    }
    Ok(())
}
