//! A message that is read field by field.

ghost use Rattle.fields.specs.Fields.{Four, Eight, IsNumber, IsUnused, IsName, Number, Unused, Name};
ghost use Rattle.fields.specs.Readers.{Takes, TakesBytes};

use crate::fault::MalformedMessage;
use crate::fields::{bytes_of, name_of, u32_at, u64_at};

/// Bytes that are read from the left: those that are left, or the first fault that was met. Behind a fault each number is 0, and all
/// else is empty.
#[derive(Clone, Copy)]
pub struct Reader<'a> {
    pub left: Result<&'a [u8], MalformedMessage>,
}

impl<'a> Reader<'a> {
    /// A number of four bytes.
    pub fn u32(&mut self) -> u32
        ensures { Takes self.old.left (IsNumber Four) (Number Four result) self.new.left }
    {
        let Ok(bytes) = self.left else {
            return 0;
        };
        match u32_at(bytes) {
            Ok((value, rest)) => {
                self.left = Ok(rest);
                value
            }
            Err(fault) => {
                self.left = Err(fault);
                0
            }
        }
    }

    /// A number of eight bytes.
    pub fn u64(&mut self) -> u64
        ensures { Takes self.old.left (IsNumber Eight) (Number Eight result) self.new.left }
    {
        let Ok(bytes) = self.left else {
            return 0;
        };
        match u64_at(bytes) {
            Ok((value, rest)) => {
                self.left = Ok(rest);
                value
            }
            Err(fault) => {
                self.left = Err(fault);
                0
            }
        }
    }

    /// Four bytes that say nothing.
    pub fn unused_u32(&mut self)
        ensures { Takes self.old.left (IsUnused Four) (Unused Four 0) self.new.left }
    {
        let Ok(bytes) = self.left else {
            return;
        };
        self.left = match u32_at(bytes) {
            Ok((_, rest)) => Ok(rest),
            Err(fault) => Err(fault),
        };
    }

    /// A name, without the zero that ends it.
    pub fn name(&mut self) -> &'a [u8]
        ensures { Takes self.old.left IsName (Name result.now) self.new.left }
    {
        let Ok(bytes) = self.left else {
            return &[];
        };
        match name_of(bytes) {
            Ok((value, rest)) => {
                self.left = Ok(rest);
                value
            }
            Err(fault) => {
                self.left = Err(fault);
                &[]
            }
        }
    }

    /// So many bytes.
    pub fn bytes(&mut self, count: usize) -> &'a [u8]
        ensures { TakesBytes self.old.left count result.now self.new.left }
    {
        let Ok(bytes) = self.left else {
            return &[];
        };
        match bytes_of(count, bytes) {
            Ok((value, rest)) => {
                self.left = Ok(rest);
                value
            }
            Err(fault) => {
                self.left = Err(fault);
                &[]
            }
        }
    }
}
