//! The media that drivers share, on which they write in the range of one volume alone.

ghost use Rattle.std.specs.Prelude.{◌≡◌, ◌<◌, ◌≤◌, ◌+◌, ◌/◌, ◌^◌, ◌↔◌, ℕ, List, IfNone, IfOk, IfSome, IsTrue, OnErr, OnOk, length};
ghost use Rattle.std.specs.List.{concat};
ghost use Rattle.media.specs.Contents.{adopted};
ghost use Rattle.true_replies.specs.Events.{opening_media};
ghost use Rattle.bdev.specs.Promises.{StepKeeps};
ghost use Rattle.bdev.specs.Stepping.{step_with};
ghost use Rattle.changes.specs.Units.{AreTaken, marked, puts_of, with_marks};
ghost use Rattle.shared_media.specs.Confined.{KeepsBut, KeepsOutside, IsImageOutside, IsInVolume, StaysInVolume, step_of, written_for};
ghost use Rattle.shared_media.specs.Editions.{kept_unless, may_write};
ghost use Rattle.shared_media.specs.Marking.{AreChangesOutside, MarksChanges, fresh, marked_for, of_image, units_of, unmarked};

use crate::edition::{Edition, end_edition, is_known, may_write, published};
use bdev::{BlockDriver, Stepped};
use board::counting::parameters::ServiceParameters;
use board::{Board, Seat};
use changes::{Changes, Marks};
use media::Media;
use message::BlockReply;
use std::alloc::{AllocError, Global};
use std::marker::{Model, PhantomData};

/// How many sectors are in a unit of changes.
const SECTORS: u32 = 8;

/// Media on which drivers write in a volume's range alone: they have as many sectors as were handed in, and outside of the range each
/// sector is as it was handed in. Beside them stands a mark for each unit of 4096 bytes: whether a sector of it may have changed since the
/// changes were last taken; and one for each unit of eight sectors of the range, counted from its first one on: whether steps may have
/// written it at all. And the number that the sectors were published by at last, while no step may have written since. Contracts see the
/// media, both lists of marks, and that number.
#[derive(Drop)]
pub struct Confined<N: ServiceParameters> {
    media: Media,
    marks: Marks,
    // The volume's first sector, and how many it has.
    first: u32,
    count: u32,
    // Which units of eight sectors of the range, from the first one on, steps may have written.
    written: Marks,
    // The edition that the sectors are, if it is known.
    edition: Option<Edition>,
    of: PhantomData<N>,
}

impl<N: ServiceParameters> Model for Confined<N> {
    ghost use Rattle.std.specs.Prelude.{◌≡◌, ◌+◌, ◌/◌, length};
    ghost use Rattle.shared_media.specs.Confined.{KeepsBut};
    ghost use Rattle.shared_media.specs.Editions.{AreKnown, number_of};
    ghost use Rattle.shared_media.specs.Marking.{ConfinedState, units_of};

    ghost Value = { ConfinedState };

    ghost view = { λ c. record { media = c.media; marks = c.marks; written = c.written; edition = number_of c.edition } };

    ghost invariant = { λ c. (c.first ≡ N.opening.first) × (c.count ≡ N.opening.count) × KeepsBut N.opening c.written c.media
        × (length c.marks ≡ units_of c.media) × (length c.written ≡ (N.opening.count + 7) / 8)
        × AreKnown N.table c.edition c.media.sectors };
}

/// How many units media have; the last one may have fewer than eight sectors.
fn units_of(media: &Media) -> u32
    ensures { result ≡ units_of media.now }
{
    (media.sectors() + (SECTORS - 1)) / SECTORS
}

/// The numbers of the units that are marked, of so many, in ascending order.
fn marked_in(alloc: Global, marks: &Marks, units: u32) -> Result<Vec<u32>, AllocError>
    requires { length marks.now ≡ units }
    ensures is { IfOk result (λ numbers. numbers.items ≡ marked marks.now) }
    ensures few { IfOk result (λ numbers. length numbers.items < 2 ^ 32) }
{
    let mut numbers = Vec::new(alloc);
    for unit in 0..units {
        if marks.has(unit) {
            numbers.push(unit)?;
        }
    }
    Ok(numbers)
}

/// Marks the unit of a sector, if there is one.
fn mark_sector(marks: &mut Marks, sector: Option<u32>)
    ensures { marks.new ≡ marked_for sector marks.old }
{
    if let Some(sector) = sector {
        marks.mark(sector / SECTORS);
    }
}

/// Marks the unit of a sector of a range with this first one, if there is a sector.
fn mark_written(first: u32, written: &mut Marks, sector: Option<u32>)
    requires { IfSome sector (λ s. first ≤ s) }
    ensures { written.new ≡ written_for first sector written.old }
{
    if let Some(sector) = sector {
        written.mark((sector - first) / SECTORS);
    }
}

/// Puts the answer of a step that is done into the reply, without its bytes and its endpoint.
fn put_completion(reply: &mut BlockReply, stepped: Stepped)
    ensures step { step_of stepped reply.new ≡ step_with stepped reply.old.bytes }
    ensures from { reply.new.from ≡ reply.old.from }
{
    if let Stepped::Done(completion) = stepped {
        reply.id = completion.id;
        reply.outcome = completion.outcome;
    }
}

impl<N: ServiceParameters> Confined<N> {
    /// The media as they were handed in, of which nothing is marked or published, and the volume's first sector and how many it has. Where
    /// no memory was found for all marks, the media are let go.
    #[tactic(auto, using(crate::proofs::Confining::keeps_given))]
    pub fn new(alloc: Global, media: Media, range: (u32, u32)) -> Result<Confined<N>, AllocError>
        requires range { (range.0 ≡ N.opening.first) × (range.1 ≡ N.opening.count) }
        requires media { media ≡ opening_media N.opening }
        ensures { IfOk result (λ confined. confined ≡ fresh N.opening.count media) }
    {
        let (first, count) = range;
        let marks = Marks::new(alloc, units_of(&media))?;
        let written = Marks::new(alloc, count.div_ceil(SECTORS))?;
        Ok(Confined {
            media,
            marks,
            first,
            count,
            written,
            edition: None,
            of: PhantomData,
        })
    }

    /// Makes a greater generation the one that may move sectors. The marks and the edition stay.
    #[tactic(auto, using(crate::proofs::Confining::keeps_adopted, crate::proofs::Marking::adopted_marks))]
    pub fn adopt(&mut self, generation: u32)
        ensures is { self.new ≡ record self.old { media = adopted self.old.media generation } }
        ensures changed { MarksChanges self.old self.new }
    {
        self.media.adopt(generation);
    }

    /// Takes a driver's step, under its generation, and puts the answer of one that is done into the reply, without its endpoint. A driver
    /// that names a sector outside of the range as the one that its step may write isn't stepped: it counts as failed. The units of the
    /// sector that the step may write are marked, that of the media and that of the range, whether the step writes it or not; and the
    /// sectors have no edition then, where the media accept this sector under the generation. Another step leaves them as they are.
    pub fn step<D: BlockDriver>(
        &mut self,
        driver: &mut D,
        generation: u32,
        reply: &mut BlockReply,
    ) -> Stepped
        ensures inside { StaysInVolume N.opening (D.state driver.old)
            → StepKeeps (D.state driver.old) self.old.media generation (step_of result reply.new) (D.state driver.new) self.new.media }
        ensures outside { ¬ (StaysInVolume N.opening (D.state driver.old))
            → (result ≡ Stepped.Failed) × (D.state driver.new ≡ D.state driver.old) × (self.new ≡ self.old) }
        ensures marks { StaysInVolume N.opening (D.state driver.old)
            → self.new.marks ≡ marked_for (D.state driver.old).in_work self.old.marks }
        ensures written { StaysInVolume N.opening (D.state driver.old)
            → self.new.written ≡ written_for N.opening.first (D.state driver.old).in_work self.old.written }
        ensures edition { StaysInVolume N.opening (D.state driver.old)
            → self.new.edition ≡ kept_unless (may_write self.old.media generation (D.state driver.old).in_work) self.old.edition }
        ensures changed { MarksChanges self.old self.new }
        ensures from { reply.new.from ≡ reply.old.from }
    {
        if !self.admits(driver) {
            return Stepped::Failed;
        }
        let sector = driver.in_work();
        mark_sector(&mut self.marks, sector);
        mark_written(self.first, &mut self.written, sector);
        let writes = may_write(&self.media, generation, sector);
        end_edition(&mut self.edition, writes);
        let stepped = driver.step_into(&mut self.media, generation, &mut reply.bytes);
        put_completion(reply, stepped);
        stepped
    }

    /// Gives the sectors, as they stand, a number that no others of the board had, and the seat knows them by it. Until a step comes that
    /// may write they are the edition of that number. None where another thread gave a number meanwhile, or all were given: they
    /// have no edition then.
    pub fn publish(&mut self, board: &Board, seat: &mut Seat) -> Option<u64>
        requires { (board.now ≡ N.table) × (seat.old.table ≡ N.table) }
        ensures table { seat.new.table ≡ N.table }
        ensures some { IfSome result (λ n. (self.new ≡ record self.old { edition = Some n })
            × (seat.new.view.edition ≡ Some (n, self.old.media.sectors))) }
        ensures none { IfNone result (self.new ≡ record self.old { edition = None }) }
    {
        self.edition = published(board, seat, self.media.as_sectors());
        match &self.edition {
            Some(edition) => Some(edition.number),
            None => None,
        }
    }

    /// Whether the sectors are the edition of this number still, which the seat knows. False where they have another one, or none.
    pub fn is_edition(&mut self, board: &Board, seat: &mut Seat, number: u64) -> bool
        requires table { (board.now ≡ N.table) × (seat.old.table ≡ N.table) }
        ensures table { seat.new.table ≡ N.table }
        ensures same { self.new ≡ self.old }
        ensures knows { seat.new.view.edition ≡ seat.old.view.edition }
        ensures is { (s : List (List ℕ)) → IsTrue result → seat.old.view.edition ≡ Some (number, s) → self.old.media.sectors ≡ s }
    {
        is_known(&mut self.edition, board, seat, number)
    }

    /// The marked units, in ascending order, with their bytes as they stand; then none is marked. Refused where no memory was found for these
    /// units: nothing has changed then.
    pub fn take_changes(&mut self, alloc: Global) -> Result<Changes, AllocError>
        ensures taken { IfOk result (AreTaken self.old.marks (concat self.old.media.sectors)) }
        ensures cleared { OnOk result (self.new ≡ unmarked self.old) }
        ensures refused { OnErr result (self.new ≡ self.old) }
        ensures outside { IfOk result (λ changes. AreChangesOutside N.opening (puts_of changes)) }
    {
        let _ = self.media.sectors();
        let changes = self.marks.changes(alloc, self.media.as_sectors())?;
        self.marks.clear();
        Ok(changes)
    }

    /// The numbers of the marked units, in ascending order. Refused where no memory was found, four bytes for each of these.
    pub fn marked(&self, alloc: Global) -> Result<Vec<u32>, AllocError>
        ensures is { IfOk result (λ numbers. numbers.items ≡ marked self.now.marks) }
        ensures few { IfOk result (λ numbers. length numbers.items < 2 ^ 32) }
        ensures outside { IfOk result (λ numbers.
            AreChangesOutside N.opening (of_image (concat self.now.media.sectors) numbers.items)) }
    {
        let _ = self.media.sectors();
        marked_in(alloc, &self.marks, units_of(&self.media))
    }

    /// The sectors of the media, in order, where they lie.
    pub fn as_sectors(&self) -> &[[u8; 512]]
        ensures { result.now ≡ self.now.media.sectors }
    {
        self.media.as_sectors()
    }

    /// Takes all marks of changes away, once the marked units were kept.
    #[tactic(auto, using(crate::proofs::Marking::long_unmarked))]
    pub fn unmark(&mut self)
        ensures { self.new ≡ unmarked self.old }
    {
        self.marks.clear();
    }

    /// Marks the units of changes that were taken and not kept, so that they are taken again with what then stands in them.
    #[tactic(auto, using(crate::proofs::Marking::long_again))]
    pub fn mark_again(&mut self, changes: &Changes)
        ensures is { self.new ≡ record self.old { marks = with_marks self.old.marks changes.now.numbers.items } }
        ensures changed { MarksChanges self.old self.new }
    {
        self.marks.mark_all(&changes.numbers);
    }

    /// The image of the media: the bytes of all sectors, in order, as they stand. Refused where no memory was found for it.
    #[tactic(auto, using(crate::proofs::Confining::keeps_outside))]
    pub fn image(&self, alloc: Global) -> Result<Vec<u8>, AllocError>
        ensures bytes { IfOk result (λ image. image.items ≡ concat self.now.media.sectors) }
        ensures outside { IfOk result (λ image. IsImageOutside N.opening image.items) }
    {
        let _ = self.media.sectors();
        match self.media.image(alloc) {
            Ok(image) => Ok(image),
            Err(_) => Err(AllocError),
        }
    }

    /// The volume's range: its first sector, and how many it has.
    pub fn range(&self) -> (u32, u32)
        ensures { (result.0 ≡ N.opening.first) × (result.1 ≡ N.opening.count) }
    {
        (self.first, self.count)
    }

    /// The media, with no drivers on them, and which units of eight sectors of the range, from its first on, steps may have written: each
    /// other sector is as it was handed in.
    #[tactic(auto, using(crate::proofs::Confining::keeps_outside))]
    pub fn into_media(self) -> (Media, Marks)
        ensures same { result.0 ≡ self.media }
        ensures written { result.1 ≡ self.written }
        ensures kept { KeepsBut N.opening result.1 result.0 }
        ensures outside { KeepsOutside N.opening result.0 }
        ensures units { length result.1 ≡ (N.opening.count + 7) / 8 }
    {
        let Confined { media, written, .. } = self;
        (media, written)
    }

    // Whether a driver names no sector as the next to be written, or one of the volume's.
    fn admits<D: BlockDriver>(&self, driver: &D) -> bool
        ensures { IsTrue result ↔ StaysInVolume N.opening (D.state driver.now) }
    {
        match driver.in_work() {
            Some(sector) => self.holds(sector),
            None => true,
        }
    }

    // Whether a sector is one of the volume's.
    fn holds(&self, sector: u32) -> bool
        ensures { IsTrue result ↔ IsInVolume N.opening sector }
    {
        self.first <= sector && sector - self.first < self.count
    }
}
