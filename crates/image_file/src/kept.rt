//! An image file that is kept current through its log.

ghost use Rattle.std.specs.Prelude.{◌≡◌, ◌≢◌, ◌<◌, ◌≤◌, ◌^◌, ℕ, List, length, map, IfOk, OnOk, OnErr, Some, Err, true, false};
ghost use Rattle.stable.specs.Disk.{put, Did};
ghost use Rattle.stable.specs.Runs.{Known, now, Knows, EachMoment, Happens, Follows};
ghost use Rattle.redo.specs.Record.{most, standing, Foreign};
ghost use Rattle.redo.specs.Plans.{log_plan, recover_plan};
ghost use Rattle.redo.specs.UnderWay.{IsAtRest, IsCurrent, IsUnderWay};
ghost use Rattle.redo.specs.Laws.{FindsEither, IsRecoverable, RestsWithEither};
ghost use Rattle.image_file.specs.Images.{IsImageSound, with_image};
ghost use Rattle.image_file.specs.Puts.{CurrentWithEither, FindsBetween, IsForeign, long_plan, put_plan};

use crate::changed::InPlace;
use crate::differing::differing;
use crate::refusal::OpenRefusal;
use redo::{MOST, Puts, Recovered, log, recover};
use stable::Storage;
use std::alloc::Global;
use std::io;

/// An image file that is kept current through its log: at each moment a crash leaves the image of the last put that was answered ok, or of
/// the put under way, whole. The image file alone may be an older one until it is settled.
#[derive(Drop)]
pub struct Kept<S> {
    alloc: Global,
    storage: S,
    name: u64,
    // The unit of the log where the next record goes.
    at: u64,
    // Whether the last put failed: the log may ask for it still.
    unsettled: bool,
    ghost small: { name < 2 ^ 64 },
}

/// Does what the log asks for.
fn start<S: Storage>(alloc: Global, storage: &mut S, name: u64) -> Result<(), OpenRefusal>
    ensures follows { (k : Known) → S.known storage.old ≡ Some k → (now k).log.failed ≡ false
        → Follows (recover_plan name (now k).log.shows) (S.known storage.old) (S.known storage.new) result }
    ensures own { (k : Known) → S.known storage.old ≡ Some k → (now k).log.failed ≡ false
        → OnOk result (standing name (now k).log.shows ≢ Foreign) }
    ensures foreign { (k : Known) → S.known storage.old ≡ Some k → (now k).log.failed ≡ false
        → result ≡ Err OpenRefusal.Foreign → IsForeign name k (S.known storage.new) }
    ensures any_moment { (before after : ℕ → List ℕ) → Knows (IsRecoverable name before after) (S.known storage.old)
        → EachMoment (IsUnderWay name before after) (S.known storage.old) (S.known storage.new) }
    ensures ok { (before after : ℕ → List ℕ) → Knows (IsRecoverable name before after) (S.known storage.old)
        → OnOk result (Knows (RestsWithEither before after) (S.known storage.new)) }
{
    match recover(alloc, storage, name)? {
        Recovered::AsItWas | Recovered::Redone => Ok(()),
        Recovered::Foreign => Err(OpenRefusal::Foreign),
    }
}

impl<S: Storage + Drop> Kept<S> {
    /// Opens the image file of this name by files that were just opened: what the log asks for is done first. Where the last put was cut
    /// off, the image is then the one before it or the one after it.
    ///
    /// Foreign where the log asks for changes of an image of another name: then nothing was written.
    pub fn open(alloc: Global, storage: S, name: u64) -> Result<Kept<S>, OpenRefusal>
        ensures settled { IfOk result (λ kept. (kept.name ≡ name) × (kept.at ≡ 0) × (kept.unsettled ≡ false)) }
        ensures own { (k : Known) → S.known storage ≡ Some k → (now k).log.failed ≡ false
            → OnOk result (standing name (now k).log.shows ≢ Foreign) }
        ensures foreign { (k : Known) → S.known storage ≡ Some k → (now k).log.failed ≡ false
            → result ≡ Err OpenRefusal.Foreign → standing name (now k).log.shows ≡ Foreign }
        ensures follows { (k : Known) → S.known storage ≡ Some k → (now k).log.failed ≡ false
            → IfOk result (λ kept. Happens (map Did (recover_plan name (now k).log.shows)) (S.known storage) (S.known kept.storage)) }
        ensures ok { (before after : ℕ → List ℕ) → Knows (IsRecoverable name before after) (S.known storage)
            → IfOk result (λ kept. Knows (RestsWithEither before after) (S.known kept.storage)) }
    {
        let mut storage = storage;
        start(alloc, &mut storage, name)?;
        Ok(Kept {
            alloc,
            storage,
            name,
            at: 0,
            unsettled: false,
        })
    }

    /// The files.
    pub fn into_storage(self) -> S
        ensures { result ≡ self.storage }
    {
        let Kept { storage, .. } = self;
        storage
    }

    /// Settles what was put: the image file alone is then the image, and the log asks for nothing. At each moment a crash leaves the image.
    /// Where the last put failed, the image is the one before it or the one after it.
    ///
    /// After an error it is as after one of `put`.
    pub fn settle(&mut self) -> io::Result<()>
        ensures name { self.new.name ≡ self.old.name }
        ensures settled { OnOk result (self.new.unsettled ≡ false) }
        ensures place { OnOk result (self.new.at ≡ 0) }
        ensures unsettled { OnErr result (self.new.unsettled ≡ true) }
        ensures follows { (k : Known) → S.known self.old.storage ≡ Some k → (now k).log.failed ≡ false
            → Follows (recover_plan self.old.name (now k).log.shows) (S.known self.old.storage) (S.known self.new.storage) result }
        ensures any_moment { (before after : ℕ → List ℕ) → Knows (IsRecoverable self.old.name before after) (S.known self.old.storage)
            → EachMoment (IsUnderWay self.old.name before after) (S.known self.old.storage) (S.known self.new.storage) }
        ensures ok { (before after : ℕ → List ℕ) → Knows (IsRecoverable self.old.name before after) (S.known self.old.storage)
            → OnOk result (Knows (RestsWithEither before after) (S.known self.new.storage)) }
    {
        self.unsettled = true;
        match start(self.alloc, &mut self.storage, self.name) {
            Ok(()) => {
                self.at = 0;
                self.unsettled = false;
                Ok(())
            }
            Err(OpenRefusal::Io(error)) => Err(error),
            Err(OpenRefusal::Foreign) => Err(io::Error::from(io::ErrorKind::Other)),
        }
    }

    /// Logs changes, where the log has room.
    fn append<P: Puts>(&mut self, changes: &P) -> io::Result<()>
        requires { self.old.at < most }
        ensures name { self.new.name ≡ self.old.name }
        ensures settled { OnOk result (self.new.unsettled ≡ false) }
        ensures unsettled { OnErr result (self.new.unsettled ≡ true) }
        ensures follows { Follows (log_plan self.old.name self.old.at (P.puts changes.now))
            (S.known self.old.storage) (S.known self.new.storage) result }
        ensures any_moment { (image : ℕ → List ℕ) → Knows (IsCurrent self.old.name self.old.at image) (S.known self.old.storage)
            → EachMoment (IsUnderWay self.old.name image (put (P.puts changes.now) image))
            (S.known self.old.storage) (S.known self.new.storage) }
        ensures ok { (image : ℕ → List ℕ) → Knows (IsCurrent self.old.name self.old.at image) (S.known self.old.storage)
            → OnOk result (Knows (IsCurrent self.old.name self.new.at (put (P.puts changes.now) image)) (S.known self.new.storage)) }
    {
        self.unsettled = true;
        let next = log(&mut self.storage, self.name, self.at, changes)?;
        self.at = next;
        self.unsettled = false;
        Ok(())
    }

    /// Puts changes, where no put has failed.
    fn put_settled<P: Puts>(&mut self, changes: &P) -> io::Result<()>
        requires { self.old.unsettled ≡ false }
        ensures name { self.new.name ≡ self.old.name }
        ensures settled { OnOk result (self.new.unsettled ≡ false) }
        ensures unsettled { OnErr result (self.new.unsettled ≡ true) }
        ensures follows { self.old.at < most → Follows (put_plan self.old.name self.old.at (P.puts changes.now))
            (S.known self.old.storage) (S.known self.new.storage) result }
        ensures follows_long { most ≤ self.old.at → (k : Known) → S.known self.old.storage ≡ Some k → (now k).log.failed ≡ false
            → Follows (long_plan self.old.name (now k).log.shows (P.puts changes.now))
            (S.known self.old.storage) (S.known self.new.storage) result }
        ensures any_moment { (image : ℕ → List ℕ) → Knows (IsCurrent self.old.name self.old.at image) (S.known self.old.storage)
            → EachMoment (IsUnderWay self.old.name image (put (P.puts changes.now) image))
            (S.known self.old.storage) (S.known self.new.storage) }
        ensures ok { (image : ℕ → List ℕ) → Knows (IsCurrent self.old.name self.old.at image) (S.known self.old.storage)
            → OnOk result (Knows (IsCurrent self.old.name self.new.at (put (P.puts changes.now) image)) (S.known self.new.storage)) }
    {
        if changes.numbers().is_empty() {
            return Ok(());
        }
        let has_room = self.at < MOST;
        if has_room {
            return self.append(changes);
        }
        self.settle()?;
        self.append(changes)
    }

    /// Puts changed units of the image, whole or not at all: at each moment a crash leaves the image before or the image after; once it is
    /// `Ok`, the image after. Where there are none, nothing is asked of the files.
    ///
    /// It waits for two syncs. Once the log is long, what it says is settled first, by three more: that goes to the image file, which is an
    /// older image until then.
    ///
    /// After an error the image is the one before or the one after, and the next put first does what the log asks for: where that fails, it
    /// fails too. The units of a put that failed are to be in the next one (`mark_again` of a service marks them), since their bytes may
    /// stand in the file or not.
    pub fn put<P: Puts>(&mut self, changes: &P) -> io::Result<()>
        ensures name { self.new.name ≡ self.old.name }
        ensures settled { OnOk result (self.new.unsettled ≡ false) }
        ensures unsettled { OnErr result (self.new.unsettled ≡ true) }
        ensures follows { self.old.unsettled ≡ false → self.old.at < most
            → Follows (put_plan self.old.name self.old.at (P.puts changes.now))
            (S.known self.old.storage) (S.known self.new.storage) result }
        ensures follows_long { self.old.unsettled ≡ false → most ≤ self.old.at
            → (k : Known) → S.known self.old.storage ≡ Some k → (now k).log.failed ≡ false
            → Follows (long_plan self.old.name (now k).log.shows (P.puts changes.now))
            (S.known self.old.storage) (S.known self.new.storage) result }
        ensures any_moment { (image : ℕ → List ℕ) → self.old.unsettled ≡ false
            → Knows (IsCurrent self.old.name self.old.at image) (S.known self.old.storage)
            → EachMoment (FindsEither self.old.name image (put (P.puts changes.now) image))
            (S.known self.old.storage) (S.known self.new.storage) }
        ensures ok { (image : ℕ → List ℕ) → self.old.unsettled ≡ false
            → Knows (IsCurrent self.old.name self.old.at image) (S.known self.old.storage)
            → OnOk result (Knows (IsCurrent self.old.name self.new.at (put (P.puts changes.now) image)) (S.known self.new.storage)) }
        ensures failed { (image : ℕ → List ℕ) → self.old.unsettled ≡ false
            → Knows (IsCurrent self.old.name self.old.at image) (S.known self.old.storage)
            → OnErr result (Knows (IsUnderWay self.old.name image (put (P.puts changes.now) image)) (S.known self.new.storage)) }
        ensures again_any_moment { (before after : ℕ → List ℕ) → self.old.unsettled ≡ true
            → Knows (IsRecoverable self.old.name before after) (S.known self.old.storage)
            → EachMoment (FindsBetween self.old.name (P.puts changes.now) before after)
            (S.known self.old.storage) (S.known self.new.storage) }
        ensures again_ok { (before after : ℕ → List ℕ) → self.old.unsettled ≡ true
            → Knows (IsRecoverable self.old.name before after) (S.known self.old.storage)
            → OnOk result (Knows (CurrentWithEither self.old.name self.new.at (put (P.puts changes.now) before)
            (put (P.puts changes.now) after)) (S.known self.new.storage)) }
    {
        let failed = self.unsettled;
        if !failed {
            return self.put_settled(changes);
        }
        self.settle()?;
        self.put_settled(changes)
    }

    /// Settles what was put since the files were opened or settled last. Where nothing was, nothing is asked of them.
    fn settle_puts(&mut self) -> io::Result<()>
        ensures name { self.new.name ≡ self.old.name }
        ensures settled { OnOk result (self.new.unsettled ≡ false) }
        ensures place { OnOk result (self.new.at ≡ 0) }
        ensures any_moment { (image : ℕ → List ℕ) → Knows (IsCurrent self.old.name self.old.at image) (S.known self.old.storage)
            → EachMoment (IsUnderWay self.old.name image image) (S.known self.old.storage) (S.known self.new.storage) }
        ensures ok { (image : ℕ → List ℕ) → Knows (IsCurrent self.old.name self.old.at image) (S.known self.old.storage)
            → OnOk result (Knows (IsAtRest image) (S.known self.new.storage)) }
        ensures sound { (image : ℕ → List ℕ) → Knows (IsCurrent self.old.name self.old.at image) (S.known self.old.storage)
            → Knows IsImageSound (S.known self.old.storage) → OnOk result (Knows IsImageSound (S.known self.new.storage)) }
    {
        let is_settled = !self.unsettled && self.at == 0;
        if is_settled {
            return Ok(());
        }
        self.settle()
    }

    /// Puts the units of an image that the file doesn't show, whatever changed before, and settles them: once it is `Ok`, the file is the
    /// image, unit for unit. Behind the image's units the file stays as it is. It takes four bytes of memory for each unit that differs. Where
    /// nothing was put before and no unit differs, it waits for no sync.
    ///
    /// InvalidInput where the image has 2^32 units or more. After an error it is as after one of `put`.
    pub fn put_image(&mut self, image: &[u8]) -> io::Result<()>
        ensures name { self.new.name ≡ self.old.name }
        ensures settled { OnOk result (self.new.unsettled ≡ false) }
        ensures any_moment { (before : ℕ → List ℕ) → self.old.unsettled ≡ false
            → Knows (IsCurrent self.old.name self.old.at before) (S.known self.old.storage)
            → Knows IsImageSound (S.known self.old.storage)
            → EachMoment (FindsEither self.old.name before (with_image image.now before))
            (S.known self.old.storage) (S.known self.new.storage) }
        ensures ok { (before : ℕ → List ℕ) → self.old.unsettled ≡ false
            → Knows (IsCurrent self.old.name self.old.at before) (S.known self.old.storage)
            → Knows IsImageSound (S.known self.old.storage)
            → OnOk result (Knows (IsAtRest (with_image image.now before)) (S.known self.new.storage)) }
    {
        self.settle_puts()?;
        let numbers = differing(self.alloc, &mut self.storage, image)?;
        self.put_settled(&InPlace {
            numbers: &numbers,
            image,
        })?;
        self.settle_puts()
    }
}
