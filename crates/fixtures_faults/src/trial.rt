//! Schedules that are tried one after the other, each with its faults.

use crate::run_out::{RanOut, run_out};
use crate::schedules::{End, ScheduledFault, base, twice, with_faults};
use crate::settings::Setting;
use fixtures::new_volume;
use fsck::{Verdict, check};
use schedule::Event;
use schedule_text::reading::read_schedule;
use std::alloc::{AllocError, Global};

/// Faults that come in one schedule, in their order.
pub type Faults = Vec<ScheduledFault>;

/// How many schedules were tried, how many came out wrong, and which: their faults, and what is wrong.
#[derive(Drop)]
pub struct Tried {
    pub count: u32,
    pub wrong: u32,
    pub which: String,
}

/// The name of an end.
fn name_of(end: End) -> &'static str {
    match end {
        End::Dies => "die",
        End::Tears => "tear",
        End::Hangs => "hang",
    }
}

impl Tried {
    /// Nothing was tried.
    pub fn new(alloc: Global) -> Tried {
        Tried {
            count: 0,
            wrong: 0,
            which: String::new(alloc),
        }
    }

    /// A schedule with these faults was tried, and this is wrong.
    fn note(&mut self, faults: &[ScheduledFault], why: &str) -> Result<(), AllocError> {
        self.wrong = self.wrong.saturating_add(1);
        for fault in faults {
            let (end, place) = (name_of(fault.end), fault.place);
            write!(self.which, "{end} {place} ")?;
        }
        writeln!(self.which, "{why}")
    }
}

/// The base schedule of a setting, the image that it is run on, and the one that it leaves without faults.
#[derive(Drop)]
struct Trial<'t> {
    setting: Setting,
    image: Vec<u8>,
    base: Vec<Event<'t>>,
    left: Vec<u8>,
}

/// How many events the base schedule of a setting has.
pub fn events_in(alloc: Global, setting: &Setting) -> Result<usize, AllocError> {
    let Ok(schedule) = read_schedule(alloc, setting.calls().as_bytes()) else {
        return Err(AllocError);
    };
    let calls = schedule.events(alloc)?;
    Ok(base_of(alloc, setting, calls.as_slice())?.len())
}

/// The base schedule of a setting.
fn base_of<'t>(
    alloc: Global,
    setting: &Setting,
    calls: &[Event<'t>],
) -> Result<Vec<Event<'t>>, AllocError> {
    let base = base(alloc, calls, setting.sectors(), setting.replies())?;
    if setting.twice {
        twice(alloc, base.as_slice())
    } else {
        Ok(base)
    }
}

/// An image whose volume is clean; or that it isn't.
fn sound(alloc: Global, image: Vec<u8>) -> Result<Result<Vec<u8>, &'static str>, AllocError> {
    if is_clean(alloc, image.as_slice())? {
        Ok(Ok(image))
    } else {
        Ok(Err("not clean"))
    }
}

/// The image that the base schedule leaves of one without faults; or what is wrong with that.
fn left_by(
    alloc: Global,
    setting: &Setting,
    image: &[u8],
    base: &[Event<'_>],
) -> Result<Result<Vec<u8>, &'static str>, AllocError> {
    let faultless = with_faults(alloc, base, &[])?;
    match run_out(alloc, setting, image, faultless)? {
        RanOut::Image(left) => sound(alloc, left),
        RanOut::Wrong(why) => Ok(Err(why)),
    }
}

/// The base schedule of these calls on a new volume, and the image that it leaves; or what is wrong with that.
fn trial_of<'t>(
    alloc: Global,
    setting: &Setting,
    calls: &[Event<'t>],
) -> Result<Result<Trial<'t>, &'static str>, AllocError> {
    let image = new_volume(alloc, setting.block)?;
    let base = base_of(alloc, setting, calls)?;
    match left_by(alloc, setting, image.as_slice(), base.as_slice())? {
        Ok(left) => Ok(Ok(Trial {
            setting: *setting,
            image,
            base,
            left,
        })),
        Err(why) => Ok(Err(why)),
    }
}

/// Whether the volume in an image is clean.
fn is_clean(alloc: Global, image: &[u8]) -> Result<bool, AllocError> {
    match check(alloc, image) {
        Ok(verdict) => Ok(matches!(verdict, Verdict::Clean(_))),
        Err(_) => Err(AllocError),
    }
}

impl Trial<'_> {
    /// Runs the schedule with these faults out; what is wrong, if anything is. The media are to hold what they hold without faults.
    fn wrong_with(
        &self,
        alloc: Global,
        faults: &[ScheduledFault],
    ) -> Result<Option<&'static str>, AllocError> {
        let schedule = with_faults(alloc, self.base.as_slice(), faults)?;
        let came = run_out(alloc, &self.setting, self.image.as_slice(), schedule)?;
        Ok(self.wrong_in(&came))
    }

    /// What is wrong with what came of it.
    fn wrong_in(&self, came: &RanOut) -> Option<&'static str> {
        match came {
            RanOut::Wrong(why) => Some(*why),
            RanOut::Image(left) if *left == self.left => None,
            RanOut::Image(_) => Some("image"),
        }
    }

    /// Tries one of these faults after the other, until so many came out wrong.
    fn try_each(&self, alloc: Global, plans: &[Faults], most: u32) -> Result<Tried, AllocError> {
        let mut tried = Tried::new(alloc);
        for faults in plans {
            if tried.wrong >= most {
                break;
            }
            tried.count = tried.count.saturating_add(1);
            if let Some(why) = self.wrong_with(alloc, faults.as_slice())? {
                tried.note(faults.as_slice(), why)?;
            }
        }
        Ok(tried)
    }
}

/// Tries the base schedule of a setting with one of these faults after the other, until so many came out wrong. Without faults it has to
/// come out right first, and leave a clean volume; where it doesn't, nothing was tried and one is wrong.
pub fn try_all(
    alloc: Global,
    setting: &Setting,
    plans: &[Faults],
    most: u32,
) -> Result<Tried, AllocError> {
    let Ok(schedule) = read_schedule(alloc, setting.calls().as_bytes()) else {
        return Err(AllocError);
    };
    let calls = schedule.events(alloc)?;
    match trial_of(alloc, setting, calls.as_slice())? {
        Ok(trial) => trial.try_each(alloc, plans, most),
        Err(why) => {
            let mut tried = Tried::new(alloc);
            tried.note(&[], why)?;
            Ok(tried)
        }
    }
}
