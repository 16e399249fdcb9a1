//! Laws of the record, each a function whose contract is the law.

ghost use Rattle.std.specs.Prelude.{List};
ghost use Rattle.records.specs.Marks.{Mark};
ghost use Rattle.records.specs.Area.{Area};
ghost use Rattle.records.specs.Acts.{Act, Outbox};
ghost use Rattle.records.specs.Laws.{BeginningsAreWellFormed, ReceivedIsWellFormed, EachCountedOnce, OpenedByFirstIssue, OpenAreWhole};
ghost use Rattle.records.specs.Laws.{OpenAreNumbered, OpenAreRising, OneOpenForEachId, OpenAreApart, OpenWritesAreUnsure};
ghost use Rattle.records.specs.Laws.{SectorsAreUnsureTogether, NothingIsUnsureAtFirst, MarksChangeDisk, UnwrittenIsImage, ActsCompose};
ghost use Rattle.records.specs.Laws.{MarksAreTold, ActsWriteInside, WiderRulesAreKept, HeadAndTailStay};

/// A well-formed record has well-formed beginnings.
#[tactic(auto, using(crate::proofs::Growing::well_formed_beginning))]
pub fn beginnings_are_well_formed()
    ensures { BeginningsAreWellFormed }
{}

/// Whatever a message says, the record after it is well formed if it was so before.
#[tactic(auto, using(crate::proofs::Growing::well_formed_received))]
pub fn received_is_well_formed()
    ensures { ReceivedIsWellFormed }
{}

/// Each mark that is an event of the file server adds one to the count, and no other does.
#[tactic(auto, using(crate::proofs::Growing::counted_one))]
pub fn each_counted_once()
    ensures { EachCountedOnce }
{}

/// In a well-formed record an id is opened by the first issue of it, and by no later one.
#[tactic(auto, using(crate::proofs::FirstIssue::opened_by_first_issue))]
pub fn opened_by_first_issue()
    ensures { OpenedByFirstIssue }
{}

/// Each open request begins and ends at a sector's border.
#[tactic(auto, using(crate::proofs::Sectors::open_are_whole))]
pub fn open_are_whole()
    ensures { OpenAreWhole }
{}

/// No open request has an id above the greatest.
#[tactic(auto, using(crate::proofs::OpenRequests::open_below))]
pub fn open_are_numbered()
    ensures { OpenAreNumbered }
{}

/// The open requests stand in the rising order of their ids.
#[tactic(auto, using(crate::proofs::Rising::open_are_rising))]
pub fn open_are_rising()
    ensures { OpenAreRising }
{}

/// Two open requests with one id are one.
#[tactic(auto, using(crate::proofs::OpenRequests::one_id))]
pub fn one_open_for_each_id()
    ensures { OneOpenForEachId }
{}

/// Two open requests are one, or have no byte in common.
#[tactic(auto, using(crate::proofs::OpenRequests::two_open))]
pub fn open_are_apart()
    ensures { OpenAreApart }
{}

/// Each place of an open write is unsure.
#[tactic(auto, using(crate::proofs::Unsure::unsure_open))]
pub fn open_writes_are_unsure()
    ensures { OpenWritesAreUnsure }
{}

/// The 512 places of a sector are unsure together.
#[tactic(auto, using(crate::proofs::Sectors::unsure_by_sector))]
pub fn sectors_are_unsure_together()
    ensures { SectorsAreUnsureTogether }
{}

/// Nothing is unsure at first.
pub fn nothing_is_unsure_at_first()
    ensures { NothingIsUnsureAtFirst }
{}

/// An issued write makes its places unsure, a good answer to a write makes the bytes that it moved the disk's and sure,
/// and no mark changes anything else.
#[tactic(auto, using(crate::proofs::Changes::marks_change_disk))]
pub fn marks_change_disk()
    ensures { MarksChangeDisk }
{}

/// Where no write was answered good, the disk is the image.
#[tactic(auto, using(crate::proofs::Changes::unwritten_is_image))]
pub fn unwritten_is_image()
    ensures { UnwrittenIsImage }
{}

/// What a server does in two calls, one after the other, keeps the rules where both do.
pub fn acts_compose()
    ensures { (area : Area) (later acts : List Act) (marks : List Mark) (o : Outbox) → ActsCompose area later acts marks o }
{}

/// The marks of a call follow from what its link was told and gave.
#[tactic(auto, using(crate::proofs::ActLaws::marks_are_told))]
pub fn marks_are_told()
    ensures { MarksAreTold }
{}

/// Where a server keeps the rules of its volume, each write that it issues lies in the volume, behind its first two blocks.
#[tactic(auto, using(crate::proofs::Inside::acts_write_inside))]
pub fn acts_write_inside()
    ensures { ActsWriteInside }
{}

/// What keeps the rules without writing keeps those of each area.
#[tactic(auto, using(crate::proofs::Inside::wider_rules))]
pub fn wider_rules_are_kept()
    ensures { WiderRulesAreKept }
{}

/// Where each write lies so, the first two blocks and what lies behind the last zone stay as they were, and no write to them is pending.
pub fn head_and_tail_stay()
    ensures { HeadAndTailStay }
{}
