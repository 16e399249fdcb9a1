//! The numbers that stand in indirect blocks, and the bytes of zones.

ghost use Rattle.std.specs.Prelude.{◌≡◌, ◌<◌, ◌≤◌, ◌+◌, ◌*◌, ◌/◌, ◌↔◌, IfOk, IfErr, IfSome, OnOk, OnErr, IsErrOf, IsTrue, false, length, ℕ};
ghost use Rattle.tree.specs.Space.{numbers_in_zone};
ghost use Rattle.layout.specs.Bytes.{u32_at};
ghost use Rattle.volume.specs.Pieces.{pieces};
ghost use Rattle.volume.specs.Nodes.{number};
ghost use Rattle.volume.specs.Reading.{is_data_zone};
ghost use Rattle.block_store.specs.World.{Turns, Reads};
ghost use Rattle.block_store.specs.Rows.{with_bytes};
ghost use Rattle.block_store.specs.Halts.{Ends, IsHalt};
ghost use Rattle.block_store.specs.Volume.{IsOn, Alters};
ghost use Rattle.block_store.specs.Regions.{with_zone};
ghost use Rattle.zone.specs.PlaceParts.{with_number, HasNumbers, IsLastNumber, IsSomeNumber};
ghost use Rattle.zone.specs.Words.{HasWords, IsLastWord};

use block_store::words::{clear, read_u32, write_bytes, write_u32};
use block_store::{Blocks, Cut, Halt};
use layout::{Geometry, u32_at};

/// How many numbers an indirect block holds: 256, 512 or 1024.
pub fn numbers_in_zone(geometry: &Geometry) -> u32
    ensures { result ≡ numbers_in_zone geometry.now }
{
    geometry.block_size / 4
}

/// Whether this is the number of a data zone.
pub fn is_data_zone(geometry: &Geometry, zone: u32) -> bool
    ensures { result ≡ is_data_zone geometry.now zone }
{
    geometry.first_zone <= zone && zone < geometry.zones
}

/// The number that stands in an indirect zone; none stands in a hole, or outside the data zones.
pub fn number<B: Blocks>(
    blocks: &mut B,
    geometry: &Geometry,
    zone: u32,
    index: u32,
) -> Result<u32, Cut>
    requires on { IsOn B.world geometry.now blocks.old }
    requires index { index < numbers_in_zone geometry.now }
    ensures reads { Reads B.world blocks.old blocks.new (λ d. IfOk result (λ x. x ≡ number (pieces geometry.now d) zone index)) }
    ensures cut { IfErr result (λ c. B.world.over blocks.new c) }
{
    if !is_data_zone(geometry, zone) {
        return Ok(0);
    }
    read_u32(blocks, zone, 4 * index as usize)
}

/// Fills the slice with the numbers that stand side by side in a block's bytes, from one of them on.
fn read_words(bytes: &[u8], from: usize, into: &mut [u32])
    requires most { length bytes.now ≤ 4096 }
    requires within { 4 * (from + length into.old) ≤ length bytes.now }
    ensures { HasWords from into.new bytes.now }
{
    for (k, word) in into.iter_mut().enumerate() {
        *word = u32_at(bytes, 4 * (from + k));
    }
}

/// Fills the slice with the numbers that stand side by side in an indirect zone, from one of them on, with one look-up; none stands in
/// a hole, or outside the data zones, which gives zeros. Where the call is cut, the slice stays.
pub fn numbers<B: Blocks>(
    blocks: &mut B,
    geometry: &Geometry,
    zone: u32,
    from: u32,
    into: &mut [u32],
) -> Result<(), Cut>
    requires on { IsOn B.world geometry.now blocks.old }
    requires within { from + length into.old ≤ numbers_in_zone geometry.now }
    ensures reads { Reads B.world blocks.old blocks.new (λ d. OnOk result (HasNumbers (pieces geometry.now d) zone from into.new)) }
    ensures stays { OnErr result (into.new ≡ into.old) }
    ensures cut { IfErr result (λ c. B.world.over blocks.new c) }
{
    if !is_data_zone(geometry, zone) {
        into.fill(0);
        return Ok(());
    }
    let frame = blocks.fetch(zone)?;
    read_words(blocks.bytes(frame), from as usize, into);
    Ok(())
}

/// The last number but 0 in a block's bytes, of those before one of them. No number is looked at below it.
fn last_word(bytes: &[u8], before: usize) -> Option<u32>
    requires most { length bytes.now ≤ 4096 }
    requires within { 4 * before ≤ length bytes.now }
    ensures { IsLastWord bytes.now before result }
{
    for index in (0..before).rev() {
        if u32_at(bytes, 4 * index) != 0 {
            return Some(index as u32);
        }
    }
    None
}

/// The last number but 0 of an indirect zone, of those before one of them, if there is one; none stands in a hole, or outside the data
/// zones. From that bound down each number is looked at, to the one that is told.
pub fn last_number<B: Blocks>(
    blocks: &mut B,
    geometry: &Geometry,
    zone: u32,
    before: u32,
) -> Result<Option<u32>, Cut>
    requires on { IsOn B.world geometry.now blocks.old }
    requires before { before ≤ numbers_in_zone geometry.now }
    ensures reads { Reads B.world blocks.old blocks.new (λ d. IfOk result (λ x. IsLastNumber (pieces geometry.now d) zone before x)) }
    ensures within { IfOk result (λ x. IfSome x (λ j. j < before)) }
    ensures cut { IfErr result (λ c. B.world.over blocks.new c) }
{
    if !is_data_zone(geometry, zone) {
        return Ok(None);
    }
    let frame = blocks.fetch(zone)?;
    Ok(last_word(blocks.bytes(frame), before as usize))
}

/// A number but 0 of an indirect zone, if there is one: the last before one of them, or the last of all where none stands there.
pub fn some_number<B: Blocks>(
    blocks: &mut B,
    geometry: &Geometry,
    zone: u32,
    near: u32,
) -> Result<Option<u32>, Cut>
    requires on { IsOn B.world geometry.now blocks.old }
    requires near { near ≤ numbers_in_zone geometry.now }
    ensures reads { Reads B.world blocks.old blocks.new (λ d. IfOk result (λ x. IsSomeNumber geometry.now (pieces geometry.now d) zone x)) }
    ensures cut { IfErr result (λ c. B.world.over blocks.new c) }
{
    if let Some(before) = last_number(blocks, geometry, zone, near)? {
        return Ok(Some(before));
    }
    last_number(blocks, geometry, zone, numbers_in_zone(geometry))
}

/// Writes these bytes into a data zone, from a place on; of another zone the answer is Unsound, and nothing is changed.
pub fn write_zone<B: Blocks>(
    blocks: &mut B,
    geometry: &Geometry,
    zone: u32,
    from: usize,
    bytes: &[u8],
) -> Result<(), Halt>
    requires on { IsOn B.world geometry.now blocks.old }
    requires within { from + length bytes.now ≤ geometry.now.block_size }
    ensures turns { Turns B.world blocks.old blocks.new (λ d e. Ends result
        (λ x. Alters geometry.now (let v = pieces geometry.now d in with_zone v zone (with_bytes from bytes.now (v.zones zone))) d e)
        (IsTrue (is_data_zone geometry.now zone))) }
    ensures unsound { IsErrOf result Halt.Unsound ↔ (is_data_zone geometry.now zone ≡ false) }
    ensures untouched { is_data_zone geometry.now zone ≡ false → blocks.new ≡ blocks.old }
    ensures halt { IfErr result (λ h. IsHalt B.world blocks.new h) }
{
    if !is_data_zone(geometry, zone) {
        return Err(Halt::Unsound);
    }
    write_bytes(blocks, zone, from, bytes)?;
    Ok(())
}

/// Puts a number into an indirect block; where it is no data zone the answer is Unsound, and nothing is changed.
pub fn set_number<B: Blocks>(
    blocks: &mut B,
    geometry: &Geometry,
    block: u32,
    index: u32,
    number: u32,
) -> Result<(), Halt>
    requires on { IsOn B.world geometry.now blocks.old }
    requires index { index < numbers_in_zone geometry.now }
    ensures turns { Turns B.world blocks.old blocks.new (λ d e. Ends result
        (λ x. Alters geometry.now (with_number (pieces geometry.now d) block index number) d e)
        (IsTrue (is_data_zone geometry.now block))) }
    ensures unsound { IsErrOf result Halt.Unsound ↔ (is_data_zone geometry.now block ≡ false) }
    ensures untouched { is_data_zone geometry.now block ≡ false → blocks.new ≡ blocks.old }
    ensures halt { IfErr result (λ h. IsHalt B.world blocks.new h) }
{
    write_zone(
        blocks,
        geometry,
        block,
        4 * index as usize,
        &number.to_le_bytes(),
    )
}

/// Makes all bytes of a data zone zeros; of another zone the answer is Unsound, and nothing is changed.
pub fn clear_zone<B: Blocks>(blocks: &mut B, geometry: &Geometry, zone: u32) -> Result<(), Halt>
    requires on { IsOn B.world geometry.now blocks.old }
    ensures turns { Turns B.world blocks.old blocks.new (λ d e. Ends result
        (λ x. Alters geometry.now (with_zone (pieces geometry.now d) zone (λ o. 0)) d e)
        (IsTrue (is_data_zone geometry.now zone))) }
    ensures unsound { IsErrOf result Halt.Unsound ↔ (is_data_zone geometry.now zone ≡ false) }
    ensures untouched { is_data_zone geometry.now zone ≡ false → blocks.new ≡ blocks.old }
    ensures halt { IfErr result (λ h. IsHalt B.world blocks.new h) }
{
    if !is_data_zone(geometry, zone) {
        return Err(Halt::Unsound);
    }
    clear(blocks, zone)?;
    Ok(())
}
