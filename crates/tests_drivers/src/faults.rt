//! What a script of faults makes of a driver's answers, what is moved before a fault, and what a script leaves as it is.
use crate::drivers::{Act, Acts, acts, numbered};
use crate::roomy::Roomy;
use errno::Errno;
use media::partition::Table;
use message::Kind;
use modeldisk::{Fault, FaultKind, Inner, ModelDriver, RamDriver, ScriptedDriver};
use std::alloc::{AllocError, Global};
use std::test::Fail;

/// A fault: in which request it comes, after how many sectors, and what goes wrong.
type Slip = (u32, u32, FaultKind);

/// A driver of 16 sectors with these faults, which has an arm at this sector, or none.
fn scripted(alloc: Global, arm: Option<u32>, slips: &[Slip]) -> Result<ScriptedDriver, AllocError> {
    let mut faults = Vec::new(alloc);
    for (request, after, kind) in slips {
        faults.push(Fault {
            request: *request,
            after: *after,
            kind: *kind,
        })?;
    }
    let inner = match arm {
        Some(arm) => Inner::Model(ModelDriver::new(Table::whole(16), arm)),
        None => Inner::Ram(RamDriver::new(Table::whole(16))),
    };
    Ok(ScriptedDriver::new(inner, faults))
}

/// Where the driver's arm stands, if it has one, its faults, and what is done with it.
static ROWS: [(Option<u32>, &[Slip], Acts); 10] = [
    // of a short answer the sectors that were moved from the first on count
    (
        Some(10),
        &[(1, 3, FaultKind::Short)],
        &[
            (Act::Ask(1, Kind::Write, 0, 4096, 2048), "Taken"),
            (Act::Run, "Some(Ok(512))"),
            (Act::Bad, "0"),
            (Act::Bytes(8, 4), " 200 9 200 200"),
            (Act::Ask(2, Kind::Read, 0, 0, 512), "Taken"),
            (Act::Run, "Some(Ok(512))"),
        ],
    ),
    (
        Some(10),
        &[(1, 2, FaultKind::Short)],
        &[
            (Act::Ask(1, Kind::Write, 0, 4096, 2048), "Taken"),
            (Act::Run, "Some(Ok(0))"),
            (Act::Bad, "1"),
            (Act::Bytes(8, 4), " 8 9 200 200"),
            (Act::Ask(2, Kind::Read, 0, 0, 512), "Taken"),
            (Act::Run, "Some(Ok(512))"),
        ],
    ),
    // errors are answered
    (
        None,
        &[
            (2, 1, FaultKind::Error(Errno::EIO)),
            (3, 0, FaultKind::Error(Errno::EIO)),
            (4, 0, FaultKind::Short),
        ],
        &[
            (Act::Ask(1, Kind::Read, 0, 0, 1024), "Taken"),
            (Act::Run, "Some(Ok(1024))"),
            (Act::Ask(2, Kind::Read, 0, 0, 1024), "Taken"),
            (Act::Run, "Some(Err(EIO))"),
            (Act::Ask(3, Kind::Read, 0, 0, 513), "Taken"),
            (Act::Run, "Some(Err(EINVAL))"),
            (Act::Ask(4, Kind::Read, 0, 0, 512), "Taken"),
            (Act::Run, "Some(Ok(0))"),
            (Act::Ask(5, Kind::Read, 0, 0, 512), "Taken"),
            (Act::Run, "Some(Ok(512))"),
            (Act::Bad, "3"),
        ],
    ),
    (
        Some(10),
        &[
            (1, 3, FaultKind::Short),
            (2, 2, FaultKind::Error(Errno::EIO)),
        ],
        &[
            // sectors 10, 11 and 8 of 8 to 11 are moved, so that the arm stands at 9 and the first sector alone leads
            (Act::Ask(1, Kind::Write, 0, 4096, 2048), "Taken"),
            (Act::Run, "Some(Ok(512))"),
            // from 9 on: 9 and 10 are moved before the error, and the arm stands at 11
            (Act::Ask(2, Kind::Write, 0, 4096, 2048), "Taken"),
            (Act::InWork, "Some(9)"),
            (Act::Run, "Some(Err(EIO))"),
            // from 11 on: 11 to 13, then 10
            (Act::Ask(3, Kind::Write, 0, 5120, 2048), "Taken"),
            (Act::InWork, "Some(11)"),
            (Act::Go(0), "working"),
            (Act::InWork, "Some(12)"),
            (Act::Go(0), "working"),
            (Act::InWork, "Some(13)"),
            (Act::Go(0), "working"),
            (Act::InWork, "Some(10)"),
            (Act::Go(0), "3 Ok(2048)"),
            (Act::Bytes(14, 1), " 14"),
        ],
    ),
    // a fault comes in a request without sectors, where its count is 0 or its position is the range's end
    (
        None,
        &[(1, 0, FaultKind::Die)],
        &[
            (Act::Ask(1, Kind::Read, 0, 0, 0), "Taken"),
            (Act::Go(0), "failed"),
        ],
    ),
    (
        None,
        &[(1, 0, FaultKind::Die)],
        &[
            (Act::Ask(1, Kind::Read, 0, 8192, 512), "Taken"),
            (Act::Go(0), "failed"),
        ],
    ),
    (
        None,
        &[(1, 0, FaultKind::Short)],
        &[
            (Act::Ask(1, Kind::Read, 0, 0, 0), "Taken"),
            (Act::Go(0), "1 Err(EINVAL)"),
        ],
    ),
    (
        None,
        &[(1, 0, FaultKind::Short)],
        &[
            (Act::Ask(1, Kind::Read, 0, 8192, 512), "Taken"),
            (Act::Go(0), "1 Ok(0)"),
        ],
    ),
    (
        None,
        &[(1, 3, FaultKind::Die)],
        &[
            (Act::Ask(1, Kind::Read, 0, 0, 0), "Taken"),
            (Act::Go(0), "1 Err(EINVAL)"),
        ],
    ),
    (
        None,
        &[(1, 3, FaultKind::Die)],
        &[
            (Act::Ask(1, Kind::Read, 0, 8192, 512), "Taken"),
            (Act::Go(0), "1 Ok(0)"),
        ],
    ),
];

/// After how many of a write's sectors, which begin with the fifth, its fault comes, and the first byte of each sector then.
static MOVED: [(u32, &str); 8] = [
    (0, " 0 1 2 3 4 5 6 7 8 9 10 11 12 13 14 15"),
    (1, " 0 1 2 3 200 5 6 7 8 9 10 11 12 13 14 15"),
    (2, " 0 1 2 3 200 200 6 7 8 9 10 11 12 13 14 15"),
    (3, " 0 1 2 3 200 200 200 7 8 9 10 11 12 13 14 15"),
    (4, " 0 1 2 3 200 200 200 200 8 9 10 11 12 13 14 15"),
    (5, " 0 1 2 3 200 200 200 200 200 9 10 11 12 13 14 15"),
    (6, " 0 1 2 3 200 200 200 200 200 200 10 11 12 13 14 15"),
    (7, " 0 1 2 3 200 200 200 200 200 200 200 11 12 13 14 15"),
];

/// A driver with this fault after each number of sectors keeps what it moved, and says this in the step of its fault.
fn keeps_moved(alloc: Global, kind: FaultKind, said: &str) -> Result<(), Fail> {
    for (row, (after, moved)) in MOVED.iter().enumerate() {
        let steps = [
            (Act::Ask(1, Kind::Write, 0, 2048, 4096), "Taken"),
            (Act::Works(*after), "true"),
            (Act::Go(0), said),
            (Act::Run, "None"),
            (Act::Bytes(0, 16), *moved),
        ];
        let mut media = numbered(alloc, 16)?;
        let mut driver = scripted(alloc, None, &[(1, *after, kind)])?;
        acts(alloc, row, &mut driver, &mut media, &steps)?;
    }
    Ok(())
}

#[test]
fn faults_come(rt: HostRuntime) -> Result<(), Fail> {
    for (row, (arm, slips, steps)) in ROWS.iter().enumerate() {
        let mut driver = scripted(rt.alloc(), *arm, slips)?;
        acts(
            rt.alloc(),
            row,
            &mut driver,
            &mut numbered(rt.alloc(), 16)?,
            steps,
        )?;
        let mut roomy = Roomy {
            driver: scripted(rt.alloc(), *arm, slips)?,
        };
        acts(
            rt.alloc(),
            row,
            &mut roomy,
            &mut numbered(rt.alloc(), 16)?,
            steps,
        )?;
    }
    keeps_moved(rt.alloc(), FaultKind::Die, "failed")?;
    keeps_moved(rt.alloc(), FaultKind::Hang, "working")
}
