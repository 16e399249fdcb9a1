//! The rule of the five words, and what each step tells.
//!
//! A step is of one of six kinds: a fetch_add of the tally by the record's seat, alone or with a caller's joined into it
//! (`Note`, `Take`); a load (`Look`, `Learn`, `Find`, `Feel`, `Ask`, `Compare`; `Note` of a mark that isn't counted; and each
//! split and each join of seats); a fetch_max of the generation (`Start`); a fetch_max of the pulse (`Beat`); a fetch_or of the
//! device word by the record's seat (`GiveUp`); a compare_exchange of the editions' number for one more (`Publish`).

use crate::mark::{NewEdition, NewMark, NewNumber};
use crate::seat::Knowledge;
use atomic_table::{Join, Play, Split, TableRule};
use std::marker::PhantomData;

/// The rule of the board.
pub struct Law;

impl TableRule<(), Knowledge, ()> for Law {
    ghost use Rattle.board.specs.Rule.{Kept};
    ghost use Rattle.board.specs.View.{opener};

    ghost holds = { λ _ s. Kept s.words s.views };

    ghost first = { λ _. opener };
}

/// A load of the tally.
pub(crate) struct Look;

impl Play<(), Knowledge> for Look {
    ghost use Rattle.board.specs.Steps.{Looked};

    ghost then = { Looked };
}

/// The record's seat adds a mark that is no call.
pub(crate) struct Note<C> {
    of: PhantomData<C>,
}

impl<C: NewMark> Play<(), Knowledge> for Note<C> {
    ghost use Rattle.board.specs.Steps.{Noted};

    ghost then = { Noted C.mark };
}

/// The record's seat adds a call of its guest.
pub(crate) struct Take<C> {
    of: PhantomData<C>,
}

impl<C: NewMark> Play<(), Knowledge> for Take<C> {
    ghost use Rattle.board.specs.Steps.{Called};

    ghost then = { Called C.mark };
}

/// A load of the generation.
pub(crate) struct Find;

impl Play<(), Knowledge> for Find {
    ghost use Rattle.board.specs.Steps.{Found};

    ghost then = { Found };
}

/// A generation is written.
pub(crate) struct Start;

impl Play<(), Knowledge> for Start {
    ghost use Rattle.board.specs.Steps.{Started};

    ghost then = { Started };
}

/// A load of the pulse.
pub(crate) struct Feel;

impl Play<(), Knowledge> for Feel {
    ghost use Rattle.board.specs.Steps.{Felt};

    ghost then = { Felt };
}

/// A pulse is written.
pub(crate) struct Beat;

impl Play<(), Knowledge> for Beat {
    ghost use Rattle.board.specs.Steps.{Beaten};

    ghost then = { Beaten };
}

/// A load of the device word.
pub(crate) struct Ask;

impl Play<(), Knowledge> for Ask {
    ghost use Rattle.board.specs.Steps.{Asked};

    ghost then = { Asked };
}

/// The device word is set.
pub(crate) struct GiveUp;

impl Play<(), Knowledge> for GiveUp {
    ghost use Rattle.board.specs.Steps.{GivenUp};

    ghost then = { GivenUp };
}

/// A load of the tally by a seat that was told what another has seen.
pub(crate) struct Learn;

impl Play<(), Knowledge> for Learn {
    ghost use Rattle.board.specs.Steps.{Learned};

    ghost then = { Learned };
}

/// Sectors get the number of an edition, where the word still is what was loaded.
pub(crate) struct Publish<C> {
    of: PhantomData<C>,
}

impl<C: NewEdition> Play<(), Knowledge> for Publish<C> {
    ghost use Rattle.board.specs.Steps.{Published};

    ghost then = { Published C.sectors };
}

/// A load by a seat that heard of the edition that another knows.
pub(crate) struct Compare;

impl Play<(), Knowledge> for Compare {
    ghost use Rattle.board.specs.Steps.{Compared};

    ghost then = { Compared };
}

/// A further seat without a number.
pub(crate) struct Copy;

impl Split<Knowledge> for Copy {
    ghost use Rattle.board.specs.View.{other_of};

    ghost left = { λ v. v };

    ghost right = { other_of };
}

/// A further seat with a number, from the record's.
pub(crate) struct Give<C> {
    of: PhantomData<C>,
}

impl<C: NewNumber> Split<Knowledge> for Give<C> {
    ghost use Rattle.board.specs.View.{with_used, new_caller};

    ghost left = { with_used C.number };

    ghost right = { new_caller C.number };
}

/// The guest of the record's seat gets a seat of its own.
pub(crate) struct Part;

impl Split<Knowledge> for Part {
    ghost use Rattle.board.specs.View.{alone, guest_of};

    ghost left = { alone };

    ghost right = { guest_of };
}

/// The record's seat takes a caller's in as its guest.
pub(crate) struct Host;

impl Join<Knowledge> for Host {
    ghost use Rattle.board.specs.View.{hosting, nobody};

    ghost both = { hosting };

    ghost spent = { nobody };
}

/// A caller's seat ends.
pub(crate) struct Spend;

impl Join<Knowledge> for Spend {
    ghost use Rattle.board.specs.View.{spending, nobody};

    ghost both = { spending };

    ghost spent = { nobody };
}

/// A seat is told what another has seen.
pub(crate) struct Tell;

impl Join<Knowledge> for Tell {
    ghost use Rattle.board.specs.View.{telling, nobody};

    ghost both = { telling };

    ghost spent = { nobody };
}

/// A seat hears of the edition that another knows.
pub(crate) struct Hear;

impl Join<Knowledge> for Hear {
    ghost use Rattle.board.specs.View.{hearing, nobody};

    ghost both = { hearing };

    ghost spent = { nobody };
}
