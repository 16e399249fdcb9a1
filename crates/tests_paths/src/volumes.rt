//! A volume in memory, on which calls are made.

ghost use Rattle.std.specs.Prelude.{◌≡◌};
ghost use Rattle.layout.specs.Places.{IsGeometry};

use block_store::Halt;
use block_store::memory::Memory;
use directory::{find, insert, parent, remove, replace, set_parent};
use inode::inode_table::load;
use layout::Geometry;
use path::{Found, NameCache, Path, Stop, find_place, look_up, walk};
use std::alloc::{AllocError, Global};
use std::test::Fail;
use tree::{PathFrom, Start, User};

/// The number of the root's inode.
const ROOT: u32 = 1;

/// User 0, who may do all.
const USER: User = User { uid: 0, gid: 0 };

/// A call on a volume. Names are the root's.
#[derive(Clone, Copy)]
pub(crate) enum Call<'a> {
    /// Gives the root a name more, at time 70.
    Insert(&'a [u8], u32),
    /// Makes a name lead elsewhere, at time 80.
    Replace(&'a [u8], u32),
    /// Takes a name, at time 90.
    Remove(&'a [u8]),
    /// Where a name leads.
    Find(&'a [u8]),
    /// The root's parent after it was set.
    SetParent(u32),
    /// Whether these bytes are at a place of the image.
    Bytes(usize, &'a [u8]),
    /// The inode to which a user's path from the root leads.
    Walk(User, &'a [u8]),
    /// The inode to which a user's path leads from a node.
    WalkFrom(User, u16, &'a [u8]),
    /// What a user's path from the root finds.
    LookUp(User, &'a [u8]),
    /// What a path of user 0 finds from a node.
    LookUpFrom(u16, &'a [u8]),
    /// The place that a path of user 0 from the root means.
    Place(&'a [u8]),
    /// The place that a path of user 0 from a node means.
    PlaceFrom(u16, &'a [u8]),
    /// How many names the cache of names keeps.
    Kept,
}

/// What a call gives.
#[derive(Clone, Copy, PartialEq, Eq)]
pub(crate) enum Seen {
    /// It was done, or it is so.
    Done,
    /// It isn't so, or can't be tried.
    Not,
    /// This inode is there.
    There(u32),
    /// The name is missing in this directory.
    MissingIn(u32),
    /// The directory, how many bytes its name has, and the inode to which that leads.
    At(u32, usize, Option<u32>),
    /// So many names are kept.
    Kept(usize),
}

/// A call, and what it is to give.
pub(crate) type Step<'a> = (Call<'a>, Result<Seen, Stop>);

/// It was done, or it is so.
pub(crate) const DONE: Result<Seen, Stop> = Ok(Seen::Done);

/// The volume isn't sound, or has no such name.
pub(crate) const UNSOUND: Result<Seen, Stop> = Err(Stop::Halted(Halt::Unsound));

/// Whether a call gave what it was to give.
fn is_wanted(got: Result<Seen, Stop>, wanted: Result<Seen, Stop>) -> bool {
    match (got, wanted) {
        (Ok(got), Ok(wanted)) => got == wanted,
        (Err(got), Err(wanted)) => got == wanted,
        _ => false,
    }
}

/// A path from the node of a number.
fn from_node(number: u16, bytes: &[u8]) -> PathFrom<'_> {
    PathFrom {
        start: Start::Inode(number),
        bytes,
    }
}

/// A volume in memory.
#[derive(Drop)]
pub(crate) struct Volume {
    blocks: Memory,
    names: NameCache,
    geometry: Geometry,
    ghost sizes: { IsGeometry geometry },
    ghost same: { blocks.block_size ≡ geometry.block_size },
}

impl Volume {
    /// The volume of these sizes whose bytes the image has.
    pub(crate) fn new(alloc: Global, geometry: Geometry, image: Vec<u8>) -> Volume
        requires { IsGeometry geometry }
    {
        Volume {
            blocks: Memory::new(geometry.block_size, image),
            names: NameCache::new(alloc),
            geometry,
        }
    }

    /// The volume with the names that it keeps, whose image ends here.
    pub(crate) fn cut(self, alloc: Global, length: usize) -> Result<Volume, AllocError> {
        let Volume {
            blocks,
            names,
            geometry,
        } = self;
        let mut image = blocks.image().to_vec(alloc)?;
        image.truncate(length);
        Ok(Volume {
            blocks: Memory::new(geometry.block_size, image),
            names,
            geometry,
        })
    }

    /// Makes the calls of a row one after the other: each gives what stands beside it.
    pub(crate) fn gives(&mut self, row: &str, steps: &[Step]) -> Result<(), Fail> {
        for (step, (call, wanted)) in steps.iter().enumerate() {
            if !is_wanted(self.call(call), *wanted) {
                return Err(Fail::new(format_args!("{row}: step {step}")));
            }
        }
        Ok(())
    }

    /// Whether these bytes are at a place of the image.
    fn has_bytes(&self, from: usize, bytes: &[u8]) -> Result<Seen, Stop> {
        match self.blocks.image().get(from..) {
            Some(rest) if rest.starts_with(bytes) => Ok(Seen::Done),
            _ => Ok(Seen::Not),
        }
    }

    /// Makes a call.
    fn call(&mut self, call: &Call) -> Result<Seen, Stop> {
        match call {
            Call::Insert(name, number) => self.insert(name, *number),
            Call::Replace(name, number) => self.replace(name, *number),
            Call::Remove(name) => self.remove(name),
            Call::Find(name) => self.find(name),
            Call::SetParent(number) => self.set_parent(*number),
            Call::Bytes(from, bytes) => self.has_bytes(*from, bytes),
            Call::Walk(user, path) => self.walk(*user, PathFrom::root(path)),
            Call::WalkFrom(user, number, path) => self.walk(*user, from_node(*number, path)),
            Call::LookUp(user, path) => self.look_up(*user, PathFrom::root(path)),
            Call::LookUpFrom(number, path) => self.look_up(USER, from_node(*number, path)),
            Call::Place(path) => self.place(PathFrom::root(path)),
            Call::PlaceFrom(number, path) => self.place(from_node(*number, path)),
            Call::Kept => Ok(Seen::Kept(self.names.len())),
        }
    }

    /// Gives the root a name more.
    fn insert(&mut self, name: &[u8], number: u32) -> Result<Seen, Stop> {
        if name.len() > 60 {
            return Ok(Seen::Not);
        }
        insert(&mut self.blocks, &self.geometry, ROOT, name, number, 70)?;
        Ok(Seen::Done)
    }

    /// Makes a name of the root lead elsewhere.
    fn replace(&mut self, name: &[u8], number: u32) -> Result<Seen, Stop> {
        if name.is_empty() {
            return Ok(Seen::Not);
        }
        replace(&mut self.blocks, &self.geometry, ROOT, name, number, 80)?;
        Ok(Seen::Done)
    }

    /// Takes a name from the root.
    fn remove(&mut self, name: &[u8]) -> Result<Seen, Stop> {
        if name.is_empty() {
            return Ok(Seen::Not);
        }
        remove(&mut self.blocks, &self.geometry, ROOT, name, 90)?;
        Ok(Seen::Done)
    }

    /// Where a name of the root leads.
    fn find(&mut self, name: &[u8]) -> Result<Seen, Stop> {
        if name.is_empty() {
            return Ok(Seen::Not);
        }
        let inode = load(&mut self.blocks, &self.geometry, ROOT)?;
        match find(&mut self.blocks, &self.geometry, &inode, name)? {
            Some(found) => Ok(Seen::There(found.number)),
            None => Ok(Seen::MissingIn(ROOT)),
        }
    }

    /// The root's parent after it was set.
    fn set_parent(&mut self, number: u32) -> Result<Seen, Stop> {
        set_parent(&mut self.blocks, &self.geometry, ROOT, number)?;
        let inode = load(&mut self.blocks, &self.geometry, ROOT)?;
        Ok(Seen::There(parent(&mut self.blocks, &self.geometry, &inode)?))
    }

    /// The inode to which a path leads.
    fn walk(&mut self, user: User, path: PathFrom) -> Result<Seen, Stop> {
        let path = Path::parse(path)?;
        let number = walk(
            &mut self.blocks,
            &mut self.names,
            &self.geometry,
            user,
            &path,
        )?;
        Ok(Seen::There(number))
    }

    /// What a path finds.
    fn look_up(&mut self, user: User, path: PathFrom) -> Result<Seen, Stop> {
        let path = Path::parse(path)?;
        match look_up(
            &mut self.blocks,
            &mut self.names,
            &self.geometry,
            user,
            &path,
        )? {
            Found::There(number) => Ok(Seen::There(number)),
            Found::Missing(place) => Ok(Seen::MissingIn(place.directory)),
        }
    }

    /// The place that a path means.
    fn place(&mut self, path: PathFrom) -> Result<Seen, Stop> {
        let path = Path::parse(path)?;
        let place = find_place(
            &mut self.blocks,
            &mut self.names,
            &self.geometry,
            USER,
            &path,
        )?;
        Ok(Seen::At(place.directory, place.name.len(), place.there))
    }
}
