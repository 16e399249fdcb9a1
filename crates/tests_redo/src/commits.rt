//! Commits that are cut off, and what settles them.
use crate::crashes::{
    Files, NAME, Wanted, all_recover, found_after, found_after_failure, is_image,
};
use changes::Changes;
use image_file::Copies;
use redo::{log, recover};
use stable::UNIT;
use stable::memory::Memory;
use std::alloc::{AllocError, Global};
use std::test::Fail;
use tests_texts::is_told;

/// A unit that is filled with this byte.
fn filled(byte: u8) -> [u8; UNIT] {
    [byte; UNIT]
}

/// The image before the commit: unit n is filled with n.
fn image_before(alloc: Global, count: usize) -> Result<Vec<[u8; UNIT]>, AllocError> {
    let mut image = Vec::new(alloc);
    for n in 0..count {
        image.push(filled((n % 64) as u8))?;
    }
    Ok(image)
}

/// The changed units' new bytes: those of unit n are filled with 128 + n.
fn changed(alloc: Global, numbers: &[u32]) -> Result<Vec<[u8; UNIT]>, AllocError> {
    let mut units = Vec::new(alloc);
    for n in numbers {
        units.push(filled(128 + (*n % 64) as u8))?;
    }
    Ok(units)
}

/// The image after the commit.
fn image_after(
    before: &[[u8; UNIT]],
    alloc: Global,
    numbers: &[u32],
) -> Result<Vec<[u8; UNIT]>, AllocError> {
    let mut image = before.to_vec(alloc)?;
    for n in numbers {
        if let Some(unit) = image.get_mut(*n as usize) {
            *unit = filled(128 + (*n % 64) as u8);
        }
    }
    Ok(image)
}

/// What a commit of these units did, and a recovery that settles it, up to the step that fails, and whether both were ok.
fn committed(
    alloc: Global,
    files: &Files,
    numbers: &[u32],
    fails_at: usize,
) -> Result<(Memory, bool), Fail> {
    let units = changed(alloc, numbers)?;
    let mut memory = files.open(alloc, fails_at)?;
    if units.len() != numbers.len() || numbers.len() > 2000 {
        return Err(Fail::from("too many units"));
    }
    let numbers = numbers.to_vec(alloc)?;
    let changes = Changes { numbers, units };
    let is_ok = log(&mut memory, NAME, 0, &Copies { changes: &changes }).is_ok()
        && recover(alloc, &mut memory, NAME).is_ok();
    Ok((memory, is_ok))
}

/// Cuts a commit of these units off after every step, or after the one that fails, and its recovery, and the recovery of that. How many
/// steps the commit did, and whether it was ok.
fn cut(alloc: Global, numbers: &[u32], count: usize, fails_at: usize) -> Result<String, Fail> {
    let before = image_before(alloc, count)?;
    let after = image_after(&before, alloc, numbers)?;
    let mut files = Files::new(alloc, numbers.len().saturating_add(4), &before)?;
    files.age = 1;
    let (memory, is_ok) = committed(alloc, &files, numbers, fails_at)?;
    let mut work = Vec::new(alloc);
    if is_ok {
        found_after(alloc, &files, memory.history(), &mut work)?;
    } else {
        found_after_failure(alloc, &files, memory.history(), &mut work)?;
    }
    all_recover(alloc, &mut work, &Wanted { before, after })?;
    Ok(format!(in alloc; "{} {is_ok}", memory.history().len())?)
}

// A unit: four writes to the log, one of the gate, and two syncs; then a write of the image, one of the gate, and three syncs.
#[test]
fn small_commits_survive(rt: HostRuntime) -> Result<(), Fail> {
    for fails_at in 0..13 {
        let given = cut(rt.alloc(), &[1], 2, fails_at)?;
        let steps = if fails_at < 12 { fails_at + 1 } else { 12 };
        let wanted = format!(in rt.alloc(); "{steps} {}", fails_at == 12)?;
        is_told(given.as_str(), wanted.as_str())?;
    }
    Ok(())
}

// Units are a write each, and a unit that comes twice is one of its own.
#[test]
fn scattered_commits_survive(rt: HostRuntime) -> Result<(), Fail> {
    is_told(cut(rt.alloc(), &[2, 0, 2], 3, 100)?.as_str(), "14 true")?;
    is_told(cut(rt.alloc(), &[], 1, 100)?.as_str(), "9 true")
}

// 1025 numbers take two units of the log's directory, and their bytes 65 writes.
#[test]
fn large_commits_survive(rt: HostRuntime) -> Result<(), Fail> {
    let alloc = rt.alloc();
    let mut numbers: Vec<u32> = Vec::new(alloc);
    for n in 0..1025 {
        numbers.push(n)?;
    }
    let before = image_before(alloc, 1030)?;
    let after = image_after(&before, alloc, &numbers)?;
    let files = Files::new(alloc, 1030, &before)?;
    let (memory, is_ok) = committed(alloc, &files, &numbers, 5000)?;
    let promised = memory.history().get(..72).unwrap_or(&[]);
    let mut opened = files.after(promised)?.open(alloc, usize::MAX)?;
    let answer = recover(alloc, &mut opened, NAME)?;
    let is_after = is_image(&mut files.after(opened.history())?.open(alloc, 0)?, &after)?;
    let given = format!(in alloc; "{} {is_ok} {answer:?} {is_after}", memory.history().len())?;
    is_told(given.as_str(), "1101 true Redone true")
}
