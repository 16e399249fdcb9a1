//! An image file that a program serves and keeps.

ghost use Rattle.std.specs.Prelude.{◌≡◌, true, IfErr, IfOk, Option, map};
ghost use Rattle.serve.specs.Stopping.{is_as_read as as_read};
ghost use Rattle.service_start.specs.Servable.{HasServed};
ghost use Rattle.service_start.specs.Spent.{IsSpent};
ghost use Rattle.archive.specs.Ending.{IsEndedIn};
ghost use Rattle.volume_commands.specs.Handing.{HoldsTreeIn};
ghost use Rattle.lecternowl.specs.Serving.{AreDone, IsNotServed};

use crate::keeping::Kept;
use crate::refusal::ServeRefusal;
use crate::start::serve_kept;
use crate::tasks::{Came, Task};
use archive::{Archive, Ending, FileArchive};
use bdev::BlockDriver;
use host::whole_file::read_front;
use image_file::Kept as KeptFile;
use locked_image::FilesRefusal;
use locked_image::beside::Beside;
use locked_image::locked::{LockedImage, open};
use locked_image::reasons::why;
use locked_image::storing::ImageFiles;
use reincarnate::policy::Setup;
use release::release;
use serve::stopping::is_as_read;
use std::alloc::Global;
use std::rt::Files;
use std::sync::Wait;
use std::thread::Threads;
use volume_commands::handing::{Handing, hand_on};

/// An image file that is open: no other program writes it, since it is locked, and so is its log, `NAME.redo`.
#[derive(Drop)]
pub struct OpenImage<'n> {
    rt: HostRuntime,
    name: &'n str,
    locked: LockedImage,
    begun: Begun,
}

/// What came of tasks on an image file.
#[derive(Drop)]
pub struct InFile<O: Drop> {
    /// What came of the tasks, with the image's bytes.
    pub came: Came<O>,
    /// Whether the file has that image: `Put`; else the file has what the last sync put into it, and the image is in the file of its name and
    /// `.given-up`, if that could be written.
    pub handing: Handing,
}

/// An image file with what its log asked for, and its bytes. Files without a name, which a kill leaves, are given back in both.
#[derive(Drop)]
struct Begun {
    kept: KeptFile<ImageFiles<HostRuntime>>,
    image: Vec<u8>,
}

/// What is begun with of a locked image of this name.
fn begin<'n>(
    rt: &HostRuntime,
    locked: &LockedImage,
    name: &'n str,
    minor: u8,
) -> Result<Begun, FilesRefusal<'n>> {
    let mut kept = locked.keep(rt, name)?;
    let mut image = read_front(rt, name).map_err(|error| FilesRefusal::CannotRead(
        name,
        why(&error),
    ))?;
    if let Ok(1..) = release(rt.alloc(), &mut image, minor) {
        kept.put_image(&image)
            .map_err(|error| FilesRefusal::CannotWrite(name, why(&error)))?;
    }
    Ok(Begun { kept, image })
}

/// Puts the image that is left into its file, if it is as it was read back and the check finds its volume clean; else beside it.
fn handed<H: Files + AllocGlobal + Copy + Drop, O: Drop, A: Archive + Drop>(
    rt: H,
    name: &str,
    minor: u8,
    came: &Came<O>,
    archive: Option<A>,
) -> Handing
    ensures fit { result ≡ Handing.Put → (as_read came.now.last_sync ≡ true) × HoldsTreeIn came.now.image.items minor }
    ensures taken { result ≡ Handing.Put → (left : Option A) × IsEndedIn A.ends archive came.now.image.items true left }
{
    let as_read = is_as_read(came.last_sync);
    let mut ending = Ending { archive };
    let mut beside = Beside::of(rt, name);
    hand_on(
        rt.alloc(),
        &came.image,
        minor,
        as_read,
        &mut ending,
        &mut beside,
    )
}

/// Serves an image, which came from this file, puts changes into it meanwhile, and hands on the image that is left.
#[tactic(auto, using(crate::proofs::ServedLaws::served_done))]
fn serve_file<R: Threads + Wait + Copy + Send + Sync + 'static, D: BlockDriver + 'static, T: Task>(
    files: HostRuntime,
    rt: R,
    name: &str,
    begun: Begun,
    setup: &Setup,
    supply: Vec<D>,
    tasks: Vec<T>,
    sync_every: u32,
) -> Result<InFile<T::Output>, ServeRefusal>
    ensures done { IfOk result (λ r. HasServed begun.image.items setup.now (map D.state supply.items)
        (λ g v. AreDone IsSpent g v tasks.items r.came)) }
    ensures put { IfOk result (λ r. r.handing ≡ Handing.Put
        → (as_read r.came.last_sync ≡ true) × HoldsTreeIn r.came.image.items setup.now.minor) }
    ensures refused { IfErr result (IsNotServed IsSpent begun.image.items setup.now (map D.state supply.items)) }
{
    let Begun { kept, image } = begun;
    let alloc = files.alloc();
    let archive = FileArchive::new(kept);
    match serve_kept(alloc, rt, image, setup, supply, tasks, archive, sync_every) {
        Ok(served) => {
            let Kept { came, archive } = served;
            let handing = handed(files, name, setup.minor, &came, archive);
            Ok(InFile { came, handing })
        }
        Err(refusal) => Err(refusal),
    }
}

impl<'n> OpenImage<'n> {
    /// Opens the image file of this name, and locks it: until it is served, or let go, no other program opens it. What its log asks for, as a
    /// kill leaves it, is done. Files without a name in the volume of this minor, which a kill leaves too, are given back.
    ///
    /// Refused are a file that can't be read or written, one that another program has open, and a log that is another image's.
    pub fn open(
        rt: &HostRuntime,
        name: &'n str,
        minor: u8,
    ) -> Result<OpenImage<'n>, FilesRefusal<'n>> {
        let locked = open(rt, name)?;
        match begin(rt, &locked, name, minor) {
            Ok(begun) => Ok(OpenImage {
                rt: *rt,
                name,
                locked,
                begun,
            }),
            Err(refusal) => {
                locked.close(rt);
                Err(refusal)
            }
        }
    }

    /// The image's bytes.
    pub fn image(&self) -> &[u8]
        ensures { result.now ≡ self.now.begun.image.items }
    {
        self.begun.image.as_slice()
    }

    /// Serves the image as [`serve_kept`] does, over the threads of `rt`: what tasks change goes into the file behind each sync of theirs,
    /// and every so many seconds beside that; 0: only behind theirs. Then the image that is left goes into the file, if it is as it was read
    /// back through the drivers and its volume is clean; else the file stays as the last sync left it, and the image goes into the file of
    /// its name and `.given-up`. The locks are given back.
    ///
    /// Where it is refused, the file has what syncs put into it before.
    pub fn serve<
        R: Threads + Wait + Copy + Send + Sync + 'static,
        D: BlockDriver + 'static,
        T: Task,
    >(
        self,
        rt: R,
        setup: &Setup,
        supply: Vec<D>,
        tasks: Vec<T>,
        sync_every: u32,
    ) -> Result<InFile<T::Output>, ServeRefusal>
        ensures done { IfOk result (λ r. HasServed self.entry.begun.image.items setup.now (map D.state supply.items)
            (λ g v. AreDone IsSpent g v tasks.items r.came)) }
        ensures put { IfOk result (λ r. r.handing ≡ Handing.Put
            → (as_read r.came.last_sync ≡ true) × HoldsTreeIn r.came.image.items setup.now.minor) }
        ensures refused { IfErr result (IsNotServed IsSpent self.entry.begun.image.items setup.now (map D.state supply.items)) }
    {
        let OpenImage {
            rt: files,
            name,
            locked,
            begun,
        } = self;
        let served = serve_file(files, rt, name, begun, setup, supply, tasks, sync_every);
        locked.close(&files);
        served
    }
}
