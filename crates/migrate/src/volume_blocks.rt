//! A volume in an image, with the bytes of its blocks.

ghost use Rattle.std.specs.Prelude.{◌≡◌, ◌≢◌, ◌<◌, ℕ, IfNone, IfSome, Ok, length, slice_index};
ghost use Rattle.layout.specs.declared.Geometry.{Geometry};
ghost use Rattle.layout.specs.Places.{geometry_of};
ghost use Rattle.volume.specs.Nodes.{page_byte};
ghost use Rattle.image.specs.Contents.{contents};

use image::Image;

/// How many bytes a block has, in the old volume and in the new one.
pub(crate) const BLOCK: usize = 1024;

/// What a zone holds that is no data zone.
static ZEROS: [u8; BLOCK] = [0; BLOCK];

/// A volume with blocks of 1024 bytes, and its blocks.
#[derive(Clone, Copy)]
pub(crate) struct VolumeBlocks<'a> {
    /// The bytes that the volume begins.
    pub(crate) bytes: &'a [u8],
    /// The volume, as the check reads it.
    pub(crate) image: Image<'a>,
    ghost same: { image.bytes.now ≡ bytes.now },
    ghost sized: { image.geometry.block_size ≡ 1024 },
}

impl<'a> VolumeBlocks<'a> {
    /// The volume that the bytes begin with; none where they are read as no volume with blocks of 1024 bytes.
    pub(crate) fn of(bytes: &'a [u8]) -> Option<VolumeBlocks<'a>>
        ensures volume { IfSome result (λ v. v.image.bytes.now ≡ bytes.now) }
        ensures none { IfNone result ((g : Geometry) → geometry_of bytes.now ≡ Ok g → g.block_size ≢ 1024) }
    {
        let image = match Image::parse(bytes) {
            Ok(image) => image,
            Err(_) => return None,
        };
        if image.geometry().block_size != 1024 {
            return None;
        }
        Some(VolumeBlocks { bytes, image })
    }

    /// The 1024 bytes of a data zone; of what is none, zeros.
    pub(crate) fn block(&self, zone: u32) -> &'a [u8]
        ensures len { length result.now ≡ 1024 }
        ensures bytes { (o : ℕ) → o < 1024 → slice_index result.now o ≡ page_byte (contents self.now.image) zone o }
    {
        if !self.image.is_data_zone(zone) {
            return &ZEROS;
        }
        let at = zone as usize * BLOCK;
        &self.bytes[at..at + BLOCK]
    }
}
