//! When drivers are started and given up: the ticks are worked out by hand from the default policy.
use bdev::{BlockDriver, Driver};
use media::partition::Table;
use message::endpoint::{DISK_DRIVER, Endpoint};
use modeldisk::{Inner, ModelDriver, RamDriver, ScriptedDriver};
use reincarnate::policy::{Event, Policy};
use reincarnate::{Action, Reincarnation};
use std::alloc::{AllocError, Global};
use std::test::Fail;
use tests_texts::step_is_told;

/// What happens at a tick.
enum Happens {
    /// Nothing more; the pulse is this one.
    Tick(u32, (u32, u32)),
    /// The driver of this generation ends.
    Exit(u32, u32),
    /// The driver of this generation is complained about.
    Complaint(u32, u32),
}

/// What happens, and what is to be done then.
type Story = &'static [(Happens, &'static str)];

/// The endpoint of the disk driver started as this one.
fn disk(generation: u32) -> Endpoint {
    Endpoint {
        slot: DISK_DRIVER,
        generation,
    }
}

/// So many drivers, that serve 1, 2, 3 and so on sectors.
fn drivers(alloc: Global, count: u32) -> Result<Vec<RamDriver>, AllocError> {
    let mut drivers = Vec::new(alloc);
    for k in 1..=count {
        drivers.push(RamDriver::new(Table::whole(k)))?;
    }
    Ok(drivers)
}

/// What is to be done when this happens; of a driver that is started its slot, its generation and its range.
fn answer<D: BlockDriver>(
    alloc: Global,
    reincarnation: &mut Reincarnation<D>,
    happens: &Happens,
) -> Result<String, AllocError> {
    let action = match happens {
        Happens::Tick(tick, pulse) => reincarnation.on(Event::Tick(u64::from(*tick), *pulse)),
        Happens::Exit(generation, tick) => {
            reincarnation.on(Event::Exit(disk(*generation), u64::from(*tick)))
        }
        Happens::Complaint(generation, tick) => {
            reincarnation.on(Event::Complaint(disk(*generation), u64::from(*tick)))
        }
    };
    match action {
        Action::Nothing => format!(in alloc; "nothing"),
        Action::WaitUntil(tick) => format!(in alloc; "wait until {tick}"),
        Action::Start(at, driver) => {
            format!(in alloc; "start {} {} {:?}", at.slot, at.generation, driver.ready(0))
        }
        Action::GiveUp => format!(in alloc; "give up"),
    }
}

/// It is an error where something else is to be done than the story says.
fn answers<D: BlockDriver>(
    alloc: Global,
    row: usize,
    reincarnation: &mut Reincarnation<D>,
    story: Story,
) -> Result<(), Fail> {
    for (step, (happens, wanted)) in story.iter().enumerate() {
        let given = answer(alloc, reincarnation, happens)?;
        step_is_told(row, step, given.as_str(), wanted)?;
    }
    Ok(())
}

/// Two drivers of two kinds.
static TWO_KINDS: Story = &[
    (Happens::Tick(0, (0, 0)), "start 1 1 Some((0, 1))"),
    (Happens::Exit(1, 0), "wait until 1"),
    (Happens::Exit(1, 0), "nothing"),
    (Happens::Tick(1, (0, 0)), "start 1 2 Some((0, 2))"),
    (Happens::Exit(2, 1), "give up"),
];

/// How many drivers there are, whether a spare is added, which serves 2 sectors, the greatest number of a fault after which one is
/// started, if it isn't the default policy's, and what happens.
type Row = (u32, bool, Option<u32>, Story);

static ROWS: [Row; 6] = [
    // starts wait longer
    (
        6,
        false,
        None,
        &[
            (Happens::Tick(0, (0, 0)), "start 1 1 Some((0, 1))"),
            (Happens::Exit(1, 0), "wait until 1"),
            (Happens::Tick(0, (0, 0)), "nothing"),
            (Happens::Tick(1, (0, 0)), "start 1 2 Some((0, 2))"),
            (Happens::Exit(2, 1), "wait until 3"),
            (Happens::Tick(2, (0, 0)), "nothing"),
            (Happens::Tick(3, (0, 0)), "start 1 3 Some((0, 3))"),
            (Happens::Exit(3, 3), "wait until 7"),
            (Happens::Tick(6, (0, 0)), "nothing"),
            (Happens::Tick(7, (0, 0)), "start 1 4 Some((0, 4))"),
            (Happens::Exit(4, 7), "wait until 15"),
            (Happens::Tick(14, (0, 0)), "nothing"),
            (Happens::Tick(15, (0, 0)), "start 1 5 Some((0, 5))"),
            (Happens::Exit(5, 15), "wait until 31"),
            (Happens::Tick(30, (0, 0)), "nothing"),
            (Happens::Tick(31, (0, 0)), "start 1 6 Some((0, 6))"),
            (Happens::Exit(6, 31), "give up"),
            (Happens::Tick(99, (0, 0)), "nothing"),
        ],
    ),
    // faults far apart are first ones
    (
        3,
        false,
        None,
        &[
            (Happens::Tick(0, (0, 0)), "start 1 1 Some((0, 1))"),
            (Happens::Exit(1, 0), "wait until 1"),
            (Happens::Tick(1, (0, 0)), "start 1 2 Some((0, 2))"),
            (Happens::Complaint(2, 62), "wait until 64"),
        ],
    ),
    (
        3,
        false,
        None,
        &[
            (Happens::Tick(0, (0, 0)), "start 1 1 Some((0, 1))"),
            (Happens::Exit(1, 0), "wait until 1"),
            (Happens::Tick(1, (0, 0)), "start 1 2 Some((0, 2))"),
            (Happens::Complaint(2, 64), "wait until 65"),
        ],
    ),
    // the first fault may be too many
    (
        2,
        false,
        Some(0),
        &[
            (Happens::Tick(0, (0, 0)), "start 1 1 Some((0, 1))"),
            (Happens::Complaint(1, 0), "give up"),
        ],
    ),
    // the third miss is a fault
    (
        2,
        false,
        None,
        &[
            (Happens::Tick(0, (0, 0)), "start 1 1 Some((0, 1))"),
            (Happens::Tick(1, (1, 1)), "nothing"),
            (Happens::Tick(2, (1, 1)), "nothing"),
            (Happens::Tick(3, (1, 1)), "nothing"),
            (Happens::Tick(4, (1, 1)), "wait until 5"),
        ],
    ),
    // a spare is started
    (
        1,
        true,
        None,
        &[
            (Happens::Tick(0, (0, 0)), "start 1 1 Some((0, 1))"),
            (Happens::Exit(1, 0), "wait until 1"),
            (Happens::Tick(1, (0, 0)), "start 1 2 Some((0, 2))"),
        ],
    ),
];

/// Drivers of two kinds, in boxes.
fn two_kinds(alloc: Global) -> Result<(), Fail> {
    let mut supply: Vec<Driver> = Vec::new(alloc);
    let inner = Inner::Ram(RamDriver::new(Table::whole(1)));
    supply.push(Box::new(alloc, ScriptedDriver::new(inner, Vec::new(alloc)))?)?;
    supply.push(Box::new(alloc, ModelDriver::new(Table::whole(2), 0))?)?;
    let mut boxed: Reincarnation = Reincarnation::new(alloc, Policy::default(), supply)?;
    answers(alloc, 6, &mut boxed, TWO_KINDS)
}

/// A supply is refused.
fn refusals(alloc: Global) -> Result<(), Fail> {
    let none = Reincarnation::new(alloc, Policy::default(), drivers(alloc, 0)?);
    let no_cap = Policy {
        cap: 0,
        ..Policy::default()
    };
    let refused = Reincarnation::new(alloc, no_cap, drivers(alloc, 0)?);
    let given = format!(in alloc; "{:?} {:?}", none.err(), refused.err())?;
    step_is_told(7, 0, given.as_str(), "Some(NoDriver) Some(BadPolicy)")
}

/// It is an error where a row comes out otherwise.
fn comes_out(alloc: Global, row: usize, told: &Row) -> Result<(), Fail> {
    let (count, has_spare, most, story) = told;
    let mut policy = Policy::default();
    if let Some(most) = most {
        policy.max_faults = *most;
    }
    let mut served = Reincarnation::new(alloc, policy, drivers(alloc, *count)?)?;
    if *has_spare && served.add_spare(RamDriver::new(Table::whole(2))).is_err() {
        return Err(Fail::from("no room for a spare"));
    }
    answers(alloc, row, &mut served, story)
}

#[test]
fn drivers_are_started_again(rt: HostRuntime) -> Result<(), Fail> {
    for (row, told) in ROWS.iter().enumerate() {
        comes_out(rt.alloc(), row, told)?;
    }
    two_kinds(rt.alloc())?;
    refusals(rt.alloc())
}
