//! An image file that changes are put into: puts that are cut off, that fail, and that follow one that failed.
use crate::crashes::{
    Files, NAME, Wanted, all_recover, found_after, found_after_failure, is_image,
};
use changes::Changes;
use image_file::{Copies, InPlace, Kept, OpenRefusal, read_through};
use redo::log;
use stable::UNIT;
use stable::memory::Memory;
use std::alloc::{AllocError, Global};
use std::test::Fail;
use tests_texts::is_told;

/// An image of units that are filled with these bytes.
fn image_of(alloc: Global, bytes: &[u8]) -> Result<Vec<[u8; UNIT]>, AllocError> {
    let mut image = Vec::new(alloc);
    for byte in bytes {
        image.push([*byte; UNIT])?;
    }
    Ok(image)
}

/// Units of these numbers, filled with these bytes.
fn changes_of(alloc: Global, numbers: &[u32], bytes: &[u8]) -> Result<Changes, Fail> {
    let units = image_of(alloc, bytes)?;
    let numbers = numbers.to_vec(alloc)?;
    if numbers.len() != units.len() || numbers.len() > 9 {
        return Err(Fail::from("no changes"));
    }
    Ok(Changes { numbers, units })
}

/// An image file of three units, 1, 2 and 3, whose step of this number fails.
fn opened(alloc: Global, fails_at: usize) -> Result<(Files, Kept<Memory>), Fail> {
    let files = Files::new(alloc, 16, &image_of(alloc, &[1, 2, 3])?)?;
    match Kept::open(alloc, files.open(alloc, fails_at)?, NAME) {
        Ok(kept) => Ok((files, kept)),
        Err(refusal) => Err(Fail::new(format_args!("not opened: {refusal}"))),
    }
}

/// Puts units of these numbers, filled with these bytes.
fn put(alloc: Global, kept: &mut Kept<Memory>, numbers: &[u32], bytes: &[u8]) -> Result<(), Fail> {
    let changes = changes_of(alloc, numbers, bytes)?;
    kept.put(&Copies { changes: &changes })?;
    Ok(())
}

/// Puts the first unit as 7, where the step of this number fails. After a failure, after the put, and after each step of it a crash leaves
/// the image before or after. Whether it was ok.
fn cut(alloc: Global, fails_at: usize) -> Result<bool, Fail> {
    let (mut files, mut kept) = opened(alloc, fails_at)?;
    files.age = 1;
    let changes = changes_of(alloc, &[0], &[7])?;
    let is_ok = kept.put(&Copies { changes: &changes }).is_ok();
    let mut work = Vec::new(alloc);
    let memory = kept.into_storage();
    if is_ok {
        found_after(alloc, &files, memory.history(), &mut work)?;
    } else {
        found_after_failure(alloc, &files, memory.history(), &mut work)?;
    }
    let before = image_of(alloc, &[1, 2, 3])?;
    let after = image_of(alloc, &[7, 2, 3])?;
    all_recover(alloc, &mut work, &Wanted { before, after })?;
    Ok(is_ok)
}

// A start syncs the log, and a put of one unit has seven steps: four writes to the log, a sync, the gate, and a sync.
#[test]
fn puts_survive(rt: HostRuntime) -> Result<(), Fail> {
    for fails_at in 1..9 {
        let is_ok = cut(rt.alloc(), fails_at)?;
        is_told(
            format!(in rt.alloc(); "{fails_at} {is_ok}")?.as_str(),
            format!(in rt.alloc(); "{fails_at} {}", fails_at == 8)?.as_str(),
        )?;
    }
    Ok(())
}

/// How many steps were done, and whether the file is this image.
fn stands(rt: &HostRuntime, kept: Kept<Memory>, bytes: &[u8]) -> Result<String, Fail> {
    let mut memory = kept.into_storage();
    let is_image = is_image(&mut memory, &image_of(rt.alloc(), bytes)?)?;
    Ok(format!(in rt.alloc(); "{} {is_image}", memory.history().len())?)
}

// No changes: the sync of the start is all that was asked.
#[test]
fn no_changes_ask_nothing(rt: HostRuntime) -> Result<(), Fail> {
    let (_, mut kept) = opened(rt.alloc(), usize::MAX)?;
    put(rt.alloc(), &mut kept, &[], &[])?;
    is_told(stands(&rt, kept, &[1, 2, 3])?.as_str(), "1 true")
}

// Puts one behind another: the third one is cut off after each step.
#[test]
fn puts_behind_puts_survive(rt: HostRuntime) -> Result<(), Fail> {
    let alloc = rt.alloc();
    let (files, mut kept) = opened(alloc, usize::MAX)?;
    put(alloc, &mut kept, &[0, 1], &[7, 8])?;
    put(alloc, &mut kept, &[2], &[9])?;
    put(alloc, &mut kept, &[0], &[10])?;
    let memory = kept.into_storage();
    let (Some(first), Some(last)) = (memory.history().get(..15), memory.history().get(15..)) else {
        return Err(Fail::from("fewer steps"));
    };
    let mut work = Vec::new(alloc);
    found_after(alloc, &files.after(first)?, last, &mut work)?;
    let before = image_of(alloc, &[7, 8, 9])?;
    let after = image_of(alloc, &[10, 8, 9])?;
    all_recover(alloc, &mut work, &Wanted { before, after })?;
    is_told(format!(in alloc; "{}", last.len())?.as_str(), "7")
}

// The image file has what was put once it is settled: a sync, four writes, a sync, and the gate's two.
#[test]
fn puts_are_settled(rt: HostRuntime) -> Result<(), Fail> {
    let (_, mut kept) = opened(rt.alloc(), usize::MAX)?;
    put(rt.alloc(), &mut kept, &[0, 1], &[7, 8])?;
    put(rt.alloc(), &mut kept, &[2, 0], &[9, 10])?;
    kept.settle()?;
    is_told(stands(&rt, kept, &[10, 8, 9])?.as_str(), "23 true")
}

// The write of the image fails while it is settled, and the put after it does first what the log asks for.
#[test]
fn put_goes_on_after_one_that_failed(rt: HostRuntime) -> Result<(), Fail> {
    let (_, mut kept) = opened(rt.alloc(), 9)?;
    put(rt.alloc(), &mut kept, &[0], &[7])?;
    let first = kept.settle();
    put(rt.alloc(), &mut kept, &[0, 2], &[8, 9])?;
    kept.settle()?;
    is_told(
        format!(in rt.alloc(); "{} {}", first.is_ok(), stands(&rt, kept, &[8, 2, 9])?)?.as_str(),
        "false 28 true",
    )
}

// A put that makes the log long: the next one settles it first.
#[test]
fn long_logs_are_settled(rt: HostRuntime) -> Result<(), Fail> {
    let alloc = rt.alloc();
    let files = Files::new(alloc, 16, &[])?;
    let mut kept = match Kept::open(alloc, files.open(alloc, usize::MAX)?, NAME) {
        Ok(kept) => kept,
        Err(refusal) => return Err(Fail::new(format_args!("not opened: {refusal}"))),
    };
    let mut numbers: Vec<u32> = Vec::new(alloc);
    let mut units = Vec::new(alloc);
    for n in 0..4090 {
        numbers.push(n)?;
        units.push([5; UNIT])?;
    }
    if numbers.len() != units.len() || numbers.len() > 5000 {
        return Err(Fail::from("too many units"));
    }
    let changes = Changes { numbers, units };
    kept.put(&Copies { changes: &changes })?;
    put(alloc, &mut kept, &[0], &[6])?;
    let memory = kept.into_storage();
    is_told(
        format!(in alloc; "{}", memory.history().len())?.as_str(),
        "4367",
    )
}

// Eighteen units are put from where they lie, the last one first: their bytes take two writes.
#[test]
fn units_are_put_in_place(rt: HostRuntime) -> Result<(), Fail> {
    let alloc = rt.alloc();
    let (_, mut kept) = opened(alloc, usize::MAX)?;
    let mut image = Vec::new(alloc);
    let mut numbers: Vec<u32> = Vec::new(alloc);
    for n in 0..18 {
        image.extend_from_slice(&[n as u8; UNIT])?;
        numbers.push(17 - n)?;
    }
    if numbers.len() > 18 {
        return Err(Fail::from("too many units"));
    }
    kept.put(&InPlace {
        numbers: &numbers,
        image: &image,
    })?;
    kept.settle()?;
    let bytes = [0, 1, 2, 3, 4, 5, 6, 7, 8, 9, 10, 11, 12, 13, 14, 15, 16, 17];
    is_told(stands(&rt, kept, &bytes)?.as_str(), "31 true")
}

// Nothing was put before. Units 1 and 3 differ; the last one is cut, and zeros follow.
#[test]
fn image_is_put(rt: HostRuntime) -> Result<(), Fail> {
    let (_, mut kept) = opened(rt.alloc(), usize::MAX)?;
    let mut image: Vec<u8> = Vec::from_elem(rt.alloc(), 1, 8192)?;
    image.extend_from_slice(&[3; 100])?;
    kept.put_image(&image)?;
    let mut last = [0; UNIT];
    for byte in last.iter_mut().take(100) {
        *byte = 3;
    }
    let mut memory = kept.into_storage();
    let is_put = is_image(&mut memory, &[[1; UNIT], [1; UNIT], last])?;
    is_told(
        format!(in rt.alloc(); "{} {is_put}", memory.history().len())?.as_str(),
        "14 true",
    )
}

/// What an image of two units and ten bytes is when it is read under a name, where unit 1 was promised as 9 and unit 2 as 8.
fn read_as(rt: &HostRuntime, name: u64) -> Result<String, Fail> {
    let alloc = rt.alloc();
    let files = Files::new(alloc, 16, &image_of(alloc, &[1, 2, 3])?)?;
    let mut memory = files.open(alloc, usize::MAX)?;
    let changes = changes_of(alloc, &[1, 2], &[9, 8])?;
    log(&mut memory, NAME, 0, &Copies { changes: &changes })?;
    let steps = memory.history().len();
    let mut image: Vec<u8> = Vec::from_elem(alloc, 1, 8202)?;
    let text = match read_through(alloc, &mut memory, name, &mut image) {
        Ok(()) => String::from_str(alloc, "read")?,
        Err(refusal) => format!(in alloc; "{} {refusal}", refusal.number())?,
    };
    let asked = memory.history().len().wrapping_sub(steps);
    Ok(format!(in alloc;
        "{text} {asked} {} {} {} {}",
        image[4095], image[4096], image[8191], image[8201]
    )?)
}

#[test]
fn images_are_read_through(rt: HostRuntime) -> Result<(), Fail> {
    is_told(read_as(&rt, NAME)?.as_str(), "read 0 1 9 9 8")?;
    is_told(
        read_as(&rt, NAME + 1)?.as_str(),
        "1 the log is of another image 0 1 1 1 1",
    )
}

// The log is promised for an image of another name.
#[test]
fn foreign_logs_are_not_opened(rt: HostRuntime) -> Result<(), Fail> {
    let alloc = rt.alloc();
    let files = Files::new(alloc, 16, &image_of(alloc, &[1, 2, 3])?)?;
    let mut memory = files.open(alloc, usize::MAX)?;
    let changes = changes_of(alloc, &[1], &[9])?;
    log(&mut memory, NAME, 0, &Copies { changes: &changes })?;
    match Kept::open(alloc, memory, NAME + 1) {
        Err(OpenRefusal::Foreign) => Ok(()),
        _ => Err(Fail::from("opened")),
    }
}
