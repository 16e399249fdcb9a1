//! A log whose gate is open for another image.
use crate::crashes::{Files, NAME};
use changes::Changes;
use image_file::Copies;
use redo::{log, recover};
use stable::UNIT;
use stable::memory::Asked;
use std::test::Fail;
use tests_texts::is_told;

/// How many writes a recovery under a name asks for, and what it answers, where a commit was promised and not settled.
fn recovered_as(rt: &HostRuntime, name: u64) -> Result<String, Fail> {
    let alloc = rt.alloc();
    let files = Files::new(alloc, 8, &[[7; UNIT]; 2])?;
    let mut memory = files.open(alloc, usize::MAX)?;
    let changes = Changes {
        numbers: Vec::from_elem(alloc, 1, 1)?,
        units: Vec::from_elem(alloc, [9; UNIT], 1)?,
    };
    log(&mut memory, NAME, 0, &Copies { changes: &changes })?;
    let mut opened = files.after(memory.history())?.open(alloc, usize::MAX)?;
    let answer = recover(alloc, &mut opened, name)?;
    let mut writes: u32 = 0;
    for happening in opened.history() {
        if let Asked::Write(..) = happening.asked {
            writes = writes.saturating_add(1);
        }
    }
    Ok(format!(in alloc; "{answer:?} {writes}")?)
}

#[test]
fn foreign_logs_are_refused(rt: HostRuntime) -> Result<(), Fail> {
    is_told(recovered_as(&rt, NAME + 1)?.as_str(), "Foreign 0")?;
    is_told(recovered_as(&rt, NAME)?.as_str(), "Redone 2")
}
