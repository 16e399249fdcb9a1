//! A play over drivers of two kinds, in boxes.

use bdev::Driver;
use fixtures::new_volume;
use fixtures_plays::plays::Play;
use media::partition::Table;
use modeldisk::{ModelDriver, RamDriver};
use std::test::*;

#[test]
fn drivers_in_boxes(rt: HostRuntime) -> Result<(), Fail> {
    let alloc = rt.alloc();
    let image = new_volume(alloc, 1024)?;
    let table = Table::whole(128);
    let mut drivers: Vec<Driver> = Vec::new(alloc);
    drivers.push(Box::new(alloc, ModelDriver::new(table, 0))?)?;
    drivers.push(Box::new(alloc, RamDriver::new(table))?)?;
    let script: &[u8] = b"user 0 0\n100 stat /\n";
    let scripts = [Some(script)];
    let played = Play::new(&image, &scripts).played_over(alloc, rt, drivers)?;
    let out = "session 0\ninode 1 mode 0040755 links 2 uid 0 gid 0 size 128 times 50 50 50\n";
    played.gave(0, out, "")?;
    assert!(rt; played.left() == image.as_slice());
    Ok(())
}
