//! What the bytes of a volume say: the tree that an image holds, and the findings of the check.
#![tactic(auto)]

pub mod volume_laws;

ghost use Rattle.volume.specs.Fresh.{FreshHolds};
ghost use Rattle.volume.specs.Holds.{OneMapOfNodes};
ghost use Rattle.volume.specs.IsVerdict.{VerdictIsLeast};

use std::error::Error;
use std::fmt;

/// An inode as it lies on the disk: 64 bytes, of which each field here is a little-endian number (MINIX version 3).
#[derive(Clone, Copy, Debug, PartialEq, Eq)]
pub struct Inode {
    /// The type (octal 0040000 a directory, 0100000 a file) and the permissions (octal 0777).
    pub mode: u16,
    /// How many names lead here; of a directory 2 and its subdirectories. At most 32767.
    pub links: u16,
    /// The owner.
    pub uid: u16,
    /// The group.
    pub gid: u16,
    /// In bytes, at most 2147483647; of a directory 64 times its entries.
    pub size: u32,
    /// The time of access, in seconds; reading doesn't change it.
    pub atime: u32,
    /// The time of the last change of the contents, in seconds.
    pub mtime: u32,
    /// The time of the last change of the contents or the attributes, in seconds.
    pub ctime: u32,
    /// The zones of pages 0 to 6, then the single, the double and the triple indirect block; 0 is a hole.
    pub zones: [u32; 10],
}

/// What a check finds: the number of a rule that the volume breaks, and where. It prints as `finding 9 at 7`.
#[derive(Clone, Copy, Debug, PartialEq, Eq)]
pub struct Finding {
    /// From 1 to 17, in the order in which the rules are looked at.
    pub number: u32,
    /// Of 1 the number of the layout's refusal; of 2 and 3 it is 0; of 8 and 9 a zone; of the others an inode.
    pub place: u32,
}

impl fmt::Display for Finding {
    ghost use Rattle.std.specs.Prelude.{Some};
    ghost use Rattle.volume.specs.Text.{finding_text};

    ghost output = { λ f. Some (finding_text f) };

    fn fmt<W: fmt::Write>(&self, f: &mut fmt::Formatter<W>) -> fmt::Result {
        write!(f, "finding {} at {}", self.number, self.place)
    }
}

impl Error for Finding {}

/// No volume holds two different maps of nodes.
pub fn one_map_of_nodes()
    ensures { OneMapOfNodes }
{}

/// The verdict on an image is its least finding: one that is true at its place, where none of a lesser number is true
/// anywhere, and none of the same number at a lesser place. It is clean where no finding is true anywhere.
#[tactic(auto, using(crate::proofs::Verdicts::verdict_is_least))]
pub fn verdict_is_least()
    ensures { VerdictIsLeast }
{}

/// A new volume holds a root alone, whatever its geometry: what `mkfs` has to write is sound, and is a tree.
pub fn fresh_holds()
    ensures { FreshHolds }
{}
