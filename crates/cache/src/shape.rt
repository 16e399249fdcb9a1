//! Where the blocks of a volume stand.

ghost use Rattle.std.specs.Prelude.{◌≡◌, ◌+◌, ◌*◌, ◌≤◌, ◌<◌, ◌/◌, ◌%◌, IsTrue, [], List, ℕ};
ghost use Rattle.layout.specs.Places.{is_block_size};
ghost use Rattle.message.specs.declared.Kind.TheVariants.{Read, Write};

use reissue::Ask;

/// The range of the media that a volume takes, and its blocks.
#[derive(Clone, Copy)]
pub struct Shape {
    /// The range of the media: 0 is the whole, 1 to 4 are the entries of the partition table.
    pub minor: u8,
    /// Bytes of a block: 1024, 2048 or 4096.
    pub block_size: u32,
    /// How many blocks the volume has.
    pub zones: u32,
    pub ghost least: { 512 ≤ block_size },
    pub ghost most: { block_size ≤ 4096 },
    pub ghost whole: { block_size % 512 ≡ 0 },
}

impl Shape {
    /// The shape of a volume with so many blocks of this size.
    pub fn new(minor: u8, block_size: u32, zones: u32) -> Shape
        requires { IsTrue (is_block_size block_size) }
        ensures minor { result.minor ≡ minor }
        ensures block_size { result.block_size ≡ block_size }
        ensures zones { result.zones ≡ zones }
    {
        Shape {
            minor,
            block_size,
            zones,
        }
    }

    /// A request to read a block.
    pub fn read(&self, block: u32) -> Ask<'static>
        ensures kind { result.kind ≡ Read }
        ensures minor { result.minor ≡ self.now.minor }
        ensures position { result.position ≡ block * self.now.block_size }
        ensures count { result.count ≡ self.now.block_size }
    {
        Ask::read(self.minor, self.place(block), self.block_size)
    }

    /// A request to write these bytes of a block.
    pub fn write<'b>(&self, block: u32, bytes: &'b [u8; 4096]) -> Ask<'b>
        ensures kind { result.kind ≡ Write }
        ensures minor { result.minor ≡ self.now.minor }
        ensures position { result.position ≡ block * self.now.block_size }
        ensures count { result.count ≡ self.now.block_size }
        ensures bytes { result.bytes.now ≡ bytes.now }
    {
        Ask::write(self.minor, self.place(block), self.block_size, bytes)
    }

    /// A request to write so many neighbouring blocks from this one on: their bytes, one block after the other.
    pub fn write_run<'b>(&self, block: u32, count: u32, bytes: &'b [u8; 4096]) -> Ask<'b>
        requires some { 0 < count }
        requires fits { count * self.now.block_size ≤ 4096 }
        ensures kind { result.kind ≡ Write }
        ensures minor { result.minor ≡ self.now.minor }
        ensures position { result.position ≡ block * self.now.block_size }
        ensures count { result.count ≡ count * self.now.block_size }
        ensures bytes { result.bytes.now ≡ bytes.now }
    {
        Ask::write(
            self.minor,
            self.place(block),
            count * self.block_size,
            bytes,
        )
    }

    /// How many blocks one request takes at most.
    pub fn most_blocks(&self) -> u32
        ensures { result ≡ 4096 / self.now.block_size }
    {
        4096 / self.block_size
    }

    /// The place of a block's first byte.
    fn place(&self, block: u32) -> u64
        ensures value { result ≡ block * self.now.block_size }
        ensures whole { result % 512 ≡ 0 }
    {
        block as u64 * self.block_size as u64
    }
}
