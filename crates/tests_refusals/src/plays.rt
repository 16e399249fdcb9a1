//! Plays, runs of schedules, makings and checks, from the bytes of files to texts.

use crate::told::Said;
use crate::trials::{Trial, each_refused};
use call_text::scripts::script_files;
use fixtures::gates::Ticking;
use fixtures::orders::{MOST, is_last, refuse, was_refused};
use fixtures::{new_volume, patient, whole};
use modeldisk::supply::{drivers_for, table_in};
use new_volume::NewVolume;
use simulation::inputs::File;
use simulation::simulate::simulate;
use std::alloc::{AllocError, Global};
use std::io::Write;
use std::sync::{Arc, Wait};
use std::test::Fail;
use std::thread::Threads;
use std::time::Clock;
use tools::play::{ImageFile, play};
use volume_commands::handing::{Handing, ImagePlace, NotHanded, hand_on};
use volume_commands::make::{Wanted, make};
use volume_commands::verify::verify;

/// A script that is played on the volume in an image; what is written of it where no memory is refused, and the image that it leaves then.
#[derive(Drop)]
struct Played {
    image: Vec<u8>,
    script: &'static str,
    whole: Vec<u8>,
    left: Vec<u8>,
}

impl Played {
    /// What is said of the script, and the image that is left; an error where there was no memory for a list.
    fn said<R: Threads + Wait + Clock + Copy + Send + Sync + 'static>(
        &self,
        alloc: Global,
        rt: R,
    ) -> Result<(Said, Option<Vec<u8>>), AllocError> {
        let mut out = Vec::with_capacity(alloc, 8192)?;
        let mut err = Vec::with_capacity(alloc, 64)?;
        let (image, script) = (self.image.as_slice(), self.script);
        let (status, left) = play_script(alloc, rt, image, script, &mut out, &mut err)?;
        Ok((Said { status, out, err }, left))
    }

    /// Whether what came is right, where a request was refused or none was.
    fn is_right(&self, came: &Option<(Said, Option<Vec<u8>>)>, refused: bool) -> bool {
        let Some((said, image)) = came else {
            return refused;
        };
        let is_said = said.is_right(&self.whole, refused);
        let Some(image) = image else {
            return said.status == 1 && is_said;
        };
        let is_left = image.as_slice() == self.left.as_slice();
        is_left && (is_said || (refused && said.is_unread(&self.whole)))
    }
}

/// How long a tick is, in milliseconds.
const PACE: u64 = 100;

/// Plays a script on the volume in an image: the status of the process, and the image that is left.
pub(crate) fn play_script<
    R: Threads + Wait + Clock + Copy + Send + Sync + 'static,
    W: Write,
    E: Write,
>(
    alloc: Global,
    rt: R,
    image: &[u8],
    script: &str,
    out: &mut W,
    err: &mut E,
) -> Result<(u8, Option<Vec<u8>>), AllocError> {
    let supply = drivers_for(alloc, 5, false, table_in(image))?;
    let image = ImageFile {
        name: "v.img",
        bytes: Some(Vec::from_slice(alloc, image)?),
    };
    let scripts = [script_files::File {
        name: "s.txt",
        bytes: Some(script.as_bytes()),
    }];
    let gate = Arc::new(alloc, Ticking::new(rt, PACE))?;
    let played = play(
        alloc,
        rt,
        image,
        &scripts,
        &patient(),
        supply,
        gate,
        out,
        err,
    );
    Ok((played.status.number(), played.image.map(|left| left.bytes)))
}

/// Plays it with its first request refused, then with its second, until none is refused. It comes out right each time.
///
/// `each_refused` can't: of a trial nothing is known in other threads than its own.
fn plays_each_refused<R: Threads + Wait + Clock + Copy + Send + Sync + 'static>(
    alloc: Global,
    rt: R,
    number: u16,
    played: &Played,
) -> Result<(), Fail> {
    for request in 1..=MOST {
        refuse(alloc, number, request);
        let came = played.said(alloc, rt).ok();
        let refused = was_refused(alloc);
        if is_last(number, request, refused, played.is_right(&came, refused))? {
            return Ok(());
        }
    }
    Err(Fail::from("no end"))
}

/// Scripts of which each read is made again, from the same place on, so that one that had no memory changes no later reply.
pub(crate) static SCRIPTS: [&str; 9] = [
    "user 0 0
100 open /f rwc 644
100 seek 0 set 67378176
100 fill 0 1 07
100 fstat 0
100 statfs
100 truncate /f 67378176
100 statfs
",
    "user 0 0
100 open /f rwc 644
100 fill 0 57344 61
100 statfs
100 fill 0 1 61
100 fstat 0
",
    "user 0 0
100 open /f rwc 644
100 fill 0 58368 61
100 fstat 0
100 statfs
",
    "user 0 0
100 open /n01 rwc 644
100 close 0
100 open /n02 rwc 644
100 close 0
100 link /n02 /n03
100 link /n02 /n04
100 link /n02 /n05
100 link /n02 /n06
100 link /n02 /n07
100 link /n02 /n08
100 link /n02 /n09
100 link /n02 /n10
100 link /n02 /n11
100 link /n02 /n12
100 link /n02 /n13
100 link /n02 /n14
100 stat /
100 open /n15 rwc 644
100 stat /
100 statfs
100 unlink /n01
100 stat /
",
    "user 0 0
100 open /aaaaaaaaaaaaaaaaaaaaaaaaaaaaaaaaaaaaaaaaaaaaaaaaaaaaaaaaaaaa rwc 644
100 open /aaaaaaaaaaaaaaaaaaaaaaaaaaaaaaaaaaaaaaaaaaaaaaaaaaaaaaaaaaaaa rwc 644
",
    "user 0 0
100 open /f rwc 644
100 fill 0 1 41
100 unlink /f
100 sync
100 seek 0 set 0
100 read 0 5
100 seek 0 set 0
100 read 0 5
100 statfs
100 close 0
100 statfs
",
    "user 0 0
100 mkdir /d 755
100 stat /
100 stat /d/../d/.
100 mkdir /d 755
100 mkdir /.. 755
100 rmdir /d/.
100 mkdir /x/y 755
100 stat d
100 rmdir /d
100 stat /
100 mkdir /b 755
100 mkdir /a 755
100 open / r 0
100 readdir 0
100 readdir 0
100 read 0 5
100 seek 0 set 0
",
    "user 0 0
100 open /f rwc 644
100 seek 0 set 2147483646
100 fill 0 1 07
100 fill 0 1 07
100 statfs
",
    "user 0 0
100 symlink d /l
100 mkdir /l 755
100 stat /l
100 mkdir /d 755
100 stat /l
100 lstat /l
100 open /l/f rwc 644
100 write 0 6162
100 rename /l/f /l/g
100 symlink /m /m
100 stat /m
100 unlink /l
100 stat /d/g
100 statfs
",
];

/// A script comes out right on a new volume, whichever of its requests is refused.
fn is_played<R: Threads + Wait + Clock + Copy + Send + Sync + 'static>(
    alloc: Global,
    rt: R,
    number: u16,
    script: &'static str,
) -> Result<(), Fail> {
    let mut played = Played {
        image: new_volume(alloc, 1024)?,
        script,
        whole: Vec::new(alloc),
        left: Vec::new(alloc),
    };
    let (said, image) = played.said(alloc, rt)?;
    let Some(image) = image else {
        return Err(Fail::from("no image"));
    };
    if said.status != 0 {
        return Err(Fail::from("not played"));
    }
    played.whole = said.out;
    played.left = image;
    plays_each_refused(alloc, rt, number, &played)
}

#[test]
fn scripts(rt: HostRuntime) -> Result<(), Fail> {
    let mut number = 10u16;
    for script in &SCRIPTS {
        is_played(rt.alloc(), rt, number, *script)?;
        number = number.saturating_add(1);
    }
    Ok(())
}

/// A schedule that is run on a new volume, and its transcript where no memory is refused.
#[derive(Drop)]
struct Simulated {
    image: Vec<u8>,
    schedule: &'static str,
    whole: Vec<u8>,
}

impl Simulated {
    /// What is said of the schedule; an error where there was no memory for the drivers.
    fn said(&self, alloc: Global) -> Result<Said, AllocError> {
        let mut out = Vec::with_capacity(alloc, 65536)?;
        let mut err = Vec::with_capacity(alloc, 64)?;
        let status = run_schedule(alloc, &self.image, self.schedule, &mut out, &mut err)?;
        Ok(Said { status, out, err })
    }
}

/// Runs a schedule on the volume in an image: the status of the process.
pub(crate) fn run_schedule<W: Write, E: Write>(
    alloc: Global,
    image: &[u8],
    schedule: &str,
    out: &mut W,
    err: &mut E,
) -> Result<u8, AllocError> {
    let supply = drivers_for(alloc, 5, false, table_in(image))?;
    let image = File {
        name: "v.img",
        bytes: Some(image),
    };
    let schedule = File {
        name: "s.txt",
        bytes: Some(schedule.as_bytes()),
    };
    let status = simulate(alloc, image, schedule, &whole(), supply, out, err);
    Ok(status.number())
}

impl Trial for Simulated {
    type Came = Option<Said>;

    fn run(&self, alloc: Global) -> Option<Said> {
        self.said(alloc).ok()
    }

    fn is_right(
        &self,
        _alloc: Global,
        came: &Option<Said>,
        refused: bool,
    ) -> Result<bool, AllocError> {
        Ok(match came {
            None => refused,
            Some(said) => said.is_right(&self.whole, refused),
        })
    }
}

/// A driver dies in the middle of a read; a file is written and read, over two drivers.
pub(crate) static SCHEDULES: [&str; 2] = [
    "call 0 0 0 100 stat /
step 1
die 1
tick
step 2
step 2
deliver 0
",
    "call 0 0 0 100 open /f rwc 644
call 0 0 0 100 fill 0 2048 61
call 0 0 0 100 sync
call 0 0 0 100 seek 0 set 0
call 0 0 0 100 read 0 5
step 1
die 1
tick
step 2
step 2
deliver 0
step 2
step 2
deliver 1
step 2
step 2
deliver 2
step 2
step 2
deliver 3
step 2
step 2
deliver 4
step 2
step 2
deliver 5
step 2
step 2
deliver 6
step 2
step 2
deliver 7
step 2
step 2
deliver 8
step 2
step 2
deliver 9
step 2
step 2
deliver 10
flush
tick
",
];

#[test]
fn schedules(rt: HostRuntime) -> Result<(), Fail> {
    let alloc = rt.alloc();
    let mut number = 20u16;
    for schedule in &SCHEDULES {
        let mut trial = Simulated {
            image: new_volume(alloc, 1024)?,
            schedule,
            whole: Vec::new(alloc),
        };
        let said = trial.said(alloc)?;
        assert_eq!(rt; said.status, 0);
        trial.whole = said.out;
        each_refused(alloc, number, &trial)?;
        number = number.saturating_add(1);
    }
    Ok(())
}

/// What is said of its making, and of its check.
pub(crate) const MADE: &[u8] = b"first 6 zones 58 free 57\n";

pub(crate) const CLEAN: &[u8] = b"clean\n";

/// A volume of 64 blocks of 1024 bytes.
pub(crate) const WANTED: Wanted = Wanted {
    blocks: 64,
    block_size: 1024,
    inodes: 32,
    now: 50,
    uid: 0,
    gid: 0,
};

/// The making of a volume, and its bytes.
#[derive(Drop)]
struct Making(Vec<u8>);

/// What is said of it, and the image without the zeros at its end.
type Made = Option<(Said, Option<NewVolume>)>;

/// Makes it; nothing where there was no memory for a writer.
fn made(alloc: Global) -> Made {
    let mut out = Vec::with_capacity(alloc, 64).ok()?;
    let mut err = Vec::with_capacity(alloc, 64).ok()?;
    let made = make(alloc, &WANTED, &mut out, &mut err);
    let status = made.status.number();
    Some((Said { status, out, err }, made.image))
}

/// Whether an image is this one without the zeros at its end.
fn is_front(image: &NewVolume, whole: &[u8]) -> bool {
    let (front, rest) = whole.split_at(image.front.len().min(whole.len()));
    image.length() == whole.len() as u64
        && image.front.as_slice() == front
        && rest.iter().all(|byte| *byte == 0)
}

impl Trial for Making {
    type Came = Made;

    fn run(&self, alloc: Global) -> Made {
        made(alloc)
    }

    fn is_right(&self, _alloc: Global, came: &Made, refused: bool) -> Result<bool, AllocError> {
        Ok(match came {
            None => refused,
            Some((said, image)) => {
                let is_made = match image {
                    Some(image) => !refused && is_front(image, &self.0),
                    None => refused && said.status == 1,
                };
                is_made && said.is_right(MADE, refused)
            }
        })
    }
}

/// The check of a new volume.
#[derive(Drop)]
struct Verifying(Vec<u8>);

impl Trial for Verifying {
    type Came = Option<Said>;

    fn run(&self, alloc: Global) -> Option<Said> {
        let mut out = Vec::with_capacity(alloc, 64).ok()?;
        let mut err = Vec::with_capacity(alloc, 64).ok()?;
        let image = Some(self.0.as_slice());
        let verified = verify(alloc, "v.img", image, 0, &mut out, &mut err);
        let status = verified.number();
        Some(Said { status, out, err })
    }

    fn is_right(
        &self,
        _alloc: Global,
        came: &Option<Said>,
        refused: bool,
    ) -> Result<bool, AllocError> {
        Ok(match came {
            None => refused,
            Some(said) => (said.status == 1) == refused && said.is_right(CLEAN, refused),
        })
    }
}

/// A place that takes any image, and whether it has.
#[derive(Drop)]
struct Taking(bool);

impl ImagePlace for Taking {
    fn put(&mut self, _image: &[u8]) -> bool {
        self.0 = true;
        true
    }
}

/// The handing on of a new volume.
#[derive(Drop)]
struct HandingOn(Vec<u8>);

impl Trial for HandingOn {
    type Came = (Handing, bool, bool);

    fn run(&self, alloc: Global) -> (Handing, bool, bool) {
        let (mut place, mut beside) = (Taking(false), Taking(false));
        let handing = hand_on(alloc, &self.0, 0, true, &mut place, &mut beside);
        (handing, place.0, beside.0)
    }

    /// It goes to its place, or beside where there was no memory for the check.
    fn is_right(
        &self,
        _alloc: Global,
        came: &(Handing, bool, bool),
        refused: bool,
    ) -> Result<bool, AllocError> {
        let (handing, place, beside) = *came;
        let unchecked = Handing::Beside(NotHanded::Unchecked);
        let wanted = if refused { unchecked } else { Handing::Put };
        Ok(handing == wanted && place != refused && beside == refused)
    }
}

/// The image of a new volume goes beside where the media aren't as it was read back.
#[test]
fn image_not_as_read(rt: HostRuntime) -> Result<(), Fail> {
    let alloc = rt.alloc();
    let image = new_volume(alloc, 1024)?;
    let (mut place, mut beside) = (Taking(false), Taking(false));
    let handing = hand_on(alloc, &image, 0, false, &mut place, &mut beside);
    assert!(rt; handing == Handing::Beside(NotHanded::NotAsRead));
    assert!(rt; !place.0 && beside.0);
    Ok(())
}

#[test]
fn makings_and_checks(rt: HostRuntime) -> Result<(), Fail> {
    let alloc = rt.alloc();
    each_refused(alloc, 30, &Making(new_volume(alloc, 1024)?))?;
    each_refused(alloc, 31, &Verifying(new_volume(alloc, 1024)?))?;
    each_refused(alloc, 32, &HandingOn(new_volume(alloc, 1024)?))
}
