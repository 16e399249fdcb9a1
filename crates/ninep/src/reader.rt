//! A message that is read field by field.

ghost use Rattle.std.specs.Prelude.{◌≡◌, ℕ, List, Some, Ok};
ghost use Rattle.std.specs.Borrow.{Bor};
ghost use Rattle.ninep.specs.Parts.{Gives};
ghost use Rattle.ninep.specs.Fields.{One, Two, Four, Eight, Kind, IsNumber, IsText, IsData, AreNames, Number, Text, Data};
ghost use Rattle.ninep.specs.Fields.{Names as Listed};
ghost use Rattle.ninep.specs.Requests.{body_of, kinds_of, names_in};
ghost use Rattle.ninep.specs.Reading.{typed_at};
ghost use Rattle.ninep.specs.Readers.{Takes, TakesAll};

use crate::fault::MalformedMessage;
use crate::fields::{data_of, names_of, text_of, u8_at, u16_at, u32_at, u64_at};
use crate::names::Names;
use crate::request::Request;

/// Bytes that are read from the left: those that are left, or the first fault that was met. Behind a fault each number is 0, and all
/// else is empty.
#[derive(Clone, Copy)]
pub(crate) struct Reader<'a> {
    pub(crate) left: Result<&'a [u8], MalformedMessage>,
}

impl<'a> Reader<'a> {
    /// A number of one byte.
    pub(crate) fn u8(&mut self) -> u8
        ensures { Takes self.old.left (IsNumber One) (Number One result) self.new.left }
    {
        let Ok(bytes) = self.left else {
            return 0;
        };
        match u8_at(bytes) {
            Ok((value, rest)) => {
                self.left = Ok(rest);
                value
            }
            Err(fault) => {
                self.left = Err(fault);
                0
            }
        }
    }

    /// A number of two bytes.
    pub(crate) fn u16(&mut self) -> u16
        ensures { Takes self.old.left (IsNumber Two) (Number Two result) self.new.left }
    {
        let Ok(bytes) = self.left else {
            return 0;
        };
        match u16_at(bytes) {
            Ok((value, rest)) => {
                self.left = Ok(rest);
                value
            }
            Err(fault) => {
                self.left = Err(fault);
                0
            }
        }
    }

    /// A number of four bytes.
    pub(crate) fn u32(&mut self) -> u32
        ensures { Takes self.old.left (IsNumber Four) (Number Four result) self.new.left }
    {
        let Ok(bytes) = self.left else {
            return 0;
        };
        match u32_at(bytes) {
            Ok((value, rest)) => {
                self.left = Ok(rest);
                value
            }
            Err(fault) => {
                self.left = Err(fault);
                0
            }
        }
    }

    /// A number of eight bytes.
    pub(crate) fn u64(&mut self) -> u64
        ensures { Takes self.old.left (IsNumber Eight) (Number Eight result) self.new.left }
    {
        let Ok(bytes) = self.left else {
            return 0;
        };
        match u64_at(bytes) {
            Ok((value, rest)) => {
                self.left = Ok(rest);
                value
            }
            Err(fault) => {
                self.left = Err(fault);
                0
            }
        }
    }

    /// A text.
    pub(crate) fn text(&mut self) -> &'a [u8]
        ensures { Takes self.old.left IsText (Text result.now) self.new.left }
    {
        let Ok(bytes) = self.left else {
            return &[];
        };
        match text_of(bytes) {
            Ok((value, rest)) => {
                self.left = Ok(rest);
                value
            }
            Err(fault) => {
                self.left = Err(fault);
                &[]
            }
        }
    }

    /// Data.
    pub(crate) fn data(&mut self) -> &'a [u8]
        ensures { Takes self.old.left IsData (Data result.now) self.new.left }
    {
        let Ok(bytes) = self.left else {
            return &[];
        };
        match data_of(bytes) {
            Ok((value, rest)) => {
                self.left = Ok(rest);
                value
            }
            Err(fault) => {
                self.left = Err(fault);
                &[]
            }
        }
    }

    /// The names of a walk.
    pub(crate) fn names(&mut self) -> Names<'a>
        ensures { Takes self.old.left AreNames (Listed (names_in result)) self.new.left }
    {
        let Ok(bytes) = self.left else {
            return Names::none();
        };
        match names_of(bytes) {
            Ok((value, rest)) => {
                self.left = Ok(rest);
                value
            }
            Err(fault) => {
                self.left = Err(fault);
                Names::none()
            }
        }
    }

    /// The request of these fields, and the bytes behind it, or the first fault.
    pub(crate) fn end(
        self,
        request: Request<'a>,
    ) -> Result<(Request<'a>, &'a [u8]), MalformedMessage>
        ensures { (input : Bor (List ℕ)) (kinds : List Kind) → kinds_of (body_of request.entry).number ≡ Some kinds
            → TakesAll (Ok input) kinds (body_of request.entry).fields self.entry.left
            → Gives (λ r. (body_of r.0, r.1.now)) result (typed_at (body_of request.entry).number input.now) }
    {
        match self.left {
            Ok(rest) => Ok((request, rest)),
            Err(fault) => Err(fault),
        }
    }
}
