//! What drivers answer, step by step.
use crate::roomy::Roomy;
use bdev::{BlockDriver, Driver, Step};
use errno::Errno;
use media::partition::{Table, parse};
use media::{Media, MediaRefusal};
use message::{BlockRequest, Kind};
use modeldisk::{ModelDriver, RamDriver};
use std::alloc::{AllocError, Global};
use std::test::Fail;
use tests_texts::step_is_told;

/// What is done with a driver, or asked of it or of its media.
#[derive(Clone, Copy)]
pub(crate) enum Act {
    /// A request is handed over: its id, its kind, its minor, its position and its count. A write's bytes are all 200.
    Ask(u64, Kind, u8, u64, u32),
    /// A step under this generation.
    Go(u32),
    /// A step that answers a read: with the last byte of the first sector.
    Read,
    /// So many steps; whether each of them only goes on.
    Works(u32),
    /// Steps until an answer comes, 20 at most.
    Run,
    /// The sector in work.
    InWork,
    /// The range of this minor.
    Ready(u8),
    /// How many answers weren't good.
    Bad,
    /// The first byte of each of so many sectors from this one on.
    Bytes(u32, u32),
}

/// Acts in their order, with what comes of each.
pub(crate) type Acts = &'static [(Act, &'static str)];

/// Media whose k-th sector holds 512 times the byte k.
pub(crate) fn numbered(alloc: Global, sectors: u8) -> Result<Media, MediaRefusal> {
    let mut bytes = Vec::new(alloc);
    for sector in 0..sectors {
        bytes.extend_from_slice(&[sector; 512])?;
    }
    Media::from_bytes(alloc, bytes.as_slice())
}

/// The first sector of a disk with one entry, of type 0x81, which is said to have 128 sectors from sector 1 on.
fn table_sector() -> [u8; 512] {
    let mut sector = [0; 512];
    sector[450] = 0x81;
    sector[454] = 1;
    sector[458] = 128;
    sector[510] = 0x55;
    sector[511] = 0xaa;
    sector
}

/// What a step says.
fn said(alloc: Global, step: &Step) -> Result<String, AllocError> {
    match step {
        Step::Working => format!(in alloc; "working"),
        Step::Idle => format!(in alloc; "idle"),
        Step::Failed => format!(in alloc; "failed"),
        Step::Done(answer) => format!(in alloc; "{} {:?}", answer.id, answer.outcome),
    }
}

/// What a step says that answers a read.
fn read(alloc: Global, step: &Step) -> Result<String, AllocError> {
    match step {
        Step::Done(answer) => {
            let last = answer.bytes[511];
            format!(in alloc; "{} {:?} {last}", answer.id, answer.outcome)
        }
        _ => said(alloc, step),
    }
}

/// Whether each of so many steps only goes on.
fn works<D: BlockDriver>(driver: &mut D, media: &mut Media, steps: u32) -> bool {
    for _ in 0..steps {
        if !matches!(&driver.step(media, 0), Step::Working) {
            return false;
        }
    }
    true
}

/// Steps until an answer comes, at most 20 times.
fn run<D: BlockDriver>(driver: &mut D, media: &mut Media) -> Option<Result<u32, Errno>> {
    for _ in 0..20 {
        if let Step::Done(answer) = driver.step(media, 0) {
            return Some(answer.outcome);
        }
    }
    None
}

/// The first bytes of so many sectors from this one on, under generation 0.
fn first_bytes(alloc: Global, media: &Media, first: u32, count: u32) -> Result<String, AllocError> {
    let mut text = String::new(alloc);
    for sector in first..first.saturating_add(count) {
        match media.read_sector(0, sector) {
            Ok(bytes) => write!(text, " {}", bytes[0])?,
            Err(_) => write!(text, " -")?,
        }
    }
    Ok(text)
}

/// What comes of an act.
fn does<D: BlockDriver>(
    alloc: Global,
    driver: &mut D,
    media: &mut Media,
    act: &Act,
) -> Result<String, AllocError> {
    match act {
        Act::Ask(id, kind, minor, position, count) => {
            let request = BlockRequest {
                id: *id,
                kind: *kind,
                minor: *minor,
                position: *position,
                count: *count,
                bytes: [200; 4096],
            };
            format!(in alloc; "{:?}", driver.accept(request))
        }
        Act::Go(generation) => said(alloc, &driver.step(media, *generation)),
        Act::Read => read(alloc, &driver.step(media, 0)),
        Act::Works(steps) => format!(in alloc; "{}", works(driver, media, *steps)),
        Act::Run => format!(in alloc; "{:?}", run(driver, media)),
        Act::InWork => format!(in alloc; "{:?}", driver.in_work()),
        Act::Ready(minor) => format!(in alloc; "{:?}", driver.ready(*minor)),
        Act::Bad => format!(in alloc; "{}", driver.bad()),
        Act::Bytes(first, count) => first_bytes(alloc, media, *first, *count),
    }
}

/// Does these acts with a driver of these media: it is an error where something else comes of one.
pub(crate) fn acts<D: BlockDriver>(
    alloc: Global,
    row: usize,
    driver: &mut D,
    media: &mut Media,
    acts: &[(Act, &str)],
) -> Result<(), Fail> {
    for (step, (act, wanted)) in acts.iter().enumerate() {
        let given = does(alloc, driver, media, act)?;
        step_is_told(row, step, given.as_str(), wanted)?;
    }
    Ok(())
}

/// Where an arm stands at first over 16 sectors, what is done with its driver, and where it stands then.
static SWEEPS: [(u32, Acts, u32); 2] = [
    (
        10,
        &[
            (Act::Ask(1, Kind::Write, 0, 4096, 2048), "Taken"),
            (Act::InWork, "Some(10)"),
            (Act::Bytes(8, 4), " 8 9 10 11"),
            (Act::Go(0), "working"),
            (Act::InWork, "Some(11)"),
            (Act::Bytes(8, 4), " 8 9 200 11"),
            (Act::Go(0), "working"),
            (Act::InWork, "Some(8)"),
            (Act::Bytes(8, 4), " 8 9 200 200"),
            (Act::Go(0), "working"),
            (Act::InWork, "Some(9)"),
            (Act::Bytes(8, 4), " 200 9 200 200"),
            (Act::Go(0), "1 Ok(2048)"),
            (Act::Bytes(8, 4), " 200 200 200 200"),
        ],
        10,
    ),
    (
        9,
        &[
            (Act::Ask(1, Kind::Write, 0, 4096, 2048), "Taken"),
            (Act::InWork, "Some(9)"),
            (Act::Bytes(8, 4), " 8 9 10 11"),
            (Act::Go(0), "working"),
            (Act::InWork, "Some(10)"),
            (Act::Bytes(8, 4), " 8 200 10 11"),
            (Act::Go(0), "working"),
            (Act::InWork, "Some(11)"),
            (Act::Bytes(8, 4), " 8 200 200 11"),
            (Act::Go(0), "working"),
            (Act::InWork, "Some(8)"),
            (Act::Bytes(8, 4), " 8 200 200 200"),
            (Act::Go(0), "1 Ok(2048)"),
            (Act::Bytes(8, 4), " 200 200 200 200"),
        ],
        9,
    ),
];

/// Partitions bound requests: the second minor has 128 sectors from the second of 129 on.
static BOUNDED: Acts = &[
    (Act::Ready(1), "Some((1, 128))"),
    (Act::Ask(1, Kind::Read, 1, 65024, 1024), "Taken"),
    (Act::Read, "1 Ok(512) 128"),
    (Act::Ask(2, Kind::Read, 1, 65536, 1024), "Taken"),
    (Act::Go(0), "2 Ok(0)"),
    (Act::Ask(3, Kind::Read, 2, 0, 512), "Taken"),
    (Act::Go(0), "3 Err(EINVAL)"),
    (Act::Ask(4, Kind::Read, 1, 0, 0), "Taken"),
    (Act::Go(0), "4 Err(EINVAL)"),
    (Act::Ask(5, Kind::Read, 1, 0, 513), "Taken"),
    (Act::Go(0), "5 Err(EINVAL)"),
    (Act::Ask(6, Kind::Read, 1, 0, 4608), "Taken"),
    (Act::Go(0), "6 Err(EINVAL)"),
    (Act::Ask(7, Kind::Read, 1, 511, 512), "Taken"),
    (Act::Go(0), "7 Err(EINVAL)"),
    (Act::Bad, "6"),
    (Act::Ready(1), "None"),
];

/// Requests are busy or old.
static TURNED_AWAY: Acts = &[
    (Act::Ask(5, Kind::Read, 0, 512, 512), "Taken"),
    (Act::InWork, "None"),
    (Act::Ask(6, Kind::Read, 0, 0, 512), "Busy"),
    (Act::Run, "Some(Ok(512))"),
    (Act::Ask(5, Kind::Read, 0, 0, 512), "Old"),
    (Act::Go(0), "idle"),
];

/// A step under another generation than that of the media fails.
static REVOKED: Acts = &[
    (Act::Ask(1, Kind::Write, 0, 0, 512), "Taken"),
    (Act::Go(1), "failed"),
    (Act::InWork, "Some(0)"),
];

/// An arm goes up from where it stands, and then begins with the first sector.
fn sweeps(alloc: Global) -> Result<(), Fail> {
    for (row, (arm, steps, after)) in SWEEPS.iter().enumerate() {
        let mut driver = ModelDriver::new(Table::whole(16), *arm);
        acts(alloc, row, &mut driver, &mut numbered(alloc, 16)?, steps)?;
        if driver.arm() != *after {
            return Err(Fail::new(format_args!("row {row}: {}", driver.arm())));
        }
    }
    Ok(())
}

#[test]
fn drivers_answer(rt: HostRuntime) -> Result<(), Fail> {
    let alloc = rt.alloc();
    sweeps(alloc)?;
    let mut bounded = RamDriver::new(parse(&table_sector(), 129)?);
    acts(alloc, 2, &mut bounded, &mut numbered(alloc, 129)?, BOUNDED)?;
    let mut boxed: Driver = Box::new(alloc, RamDriver::new(Table::whole(16)))?;
    acts(alloc, 3, &mut boxed, &mut numbered(alloc, 16)?, TURNED_AWAY)?;
    let mut media = numbered(alloc, 3)?;
    media.adopt(2);
    acts(
        alloc,
        4,
        &mut RamDriver::new(Table::whole(3)),
        &mut media,
        REVOKED,
    )
}

/// A driver that is stepped with room for its bytes answers as it does without.
#[test]
fn bytes_find_room(rt: HostRuntime) -> Result<(), Fail> {
    let alloc = rt.alloc();
    for (row, (arm, steps, after)) in SWEEPS.iter().enumerate() {
        let mut roomy = Roomy {
            driver: ModelDriver::new(Table::whole(16), *arm),
        };
        acts(alloc, row, &mut roomy, &mut numbered(alloc, 16)?, steps)?;
        if roomy.driver.arm() != *after {
            return Err(Fail::new(format_args!("row {row}: {}", roomy.driver.arm())));
        }
    }
    let mut bounded = Roomy {
        driver: RamDriver::new(parse(&table_sector(), 129)?),
    };
    acts(alloc, 2, &mut bounded, &mut numbered(alloc, 129)?, BOUNDED)?;
    // the driver in it has no step with room of its own
    let mut twice = Roomy {
        driver: Roomy {
            driver: RamDriver::new(parse(&table_sector(), 129)?),
        },
    };
    acts(alloc, 3, &mut twice, &mut numbered(alloc, 129)?, BOUNDED)?;
    let inner: Driver = Box::new(alloc, RamDriver::new(Table::whole(16)))?;
    let mut boxed = Roomy { driver: inner };
    acts(alloc, 4, &mut boxed, &mut numbered(alloc, 16)?, TURNED_AWAY)
}
