//! Schedules that all come out right.

use fixtures_faults::settings::Setting;
use fixtures_faults::trial::{Faults, try_all};
use std::alloc::Global;
use std::test::Fail;

/// The base schedule of a setting comes out right with each of these faults, and there are so many.
pub fn all_are_right(
    alloc: Global,
    setting: &Setting,
    plans: &[Faults],
    count: u32,
) -> Result<(), Fail> {
    let tried = try_all(alloc, setting, plans, u32::MAX)?;
    if tried.wrong == 0 && tried.count == count {
        return Ok(());
    }
    let (wrong, count, which) = (tried.wrong, tried.count, tried.which);
    Err(Fail::new(format_args!("{wrong} of {count} wrong: {which}")))
}
