//! Reading pieces of a volume back through a link.

ghost use Rattle.std.specs.Prelude.{◌≡◌, ◌≢◌, ◌+◌, ◌-◌, ◌<◌, ◌≤◌, ◌^◌, ◌%◌, ℕ, List, [], false, length, vec_capacity, OnOk, Err};
ghost use Rattle.records.specs.Told.{took_end};
ghost use Rattle.reissue.specs.Posts.{HasRoom};
ghost use Rattle.reissue.specs.Transfers.{link_of, table_of};
ghost use Rattle.volume_reading.specs.Pieces.{Piece};
ghost use Rattle.volume_reading.specs.Places.{AreAt, ArePlaces, AreTaken};
ghost use Rattle.volume_reading.specs.ReadBack.{AreFor, ReadsBack, ReadsPlace, Waits};

use crate::place::{Place, Takes};
use crate::reading::{Stop, read_in};
use crate::room::ReadRoom;
use crate::sought::Sought;
use message::Incoming;
use reissue::{Link, Settled, Transfers};

/// Takes messages until nothing is pending, the device is given up or the link ends. A Flush asks for nothing here.
fn wait_for_all<L: Link>(transfers: &mut Transfers<L>) -> Result<(), Stop>
    requires live { (table_of transfers.old).given_up ≡ false }
    requires unended { took_end (L.history (link_of transfers.old)) ≡ false }
    requires room { HasRoom (table_of transfers.old) (L.room (link_of transfers.old)) }
    requires ids { (table_of transfers.old).ids + L.budget_left (link_of transfers.old) < 2 ^ 60 }
    ensures waits { (minor : ℕ) → AreFor minor (table_of transfers.old).pending → Waits result minor (table_of transfers.old)
        (table_of transfers.new) (L.history (link_of transfers.old)) (L.history (link_of transfers.new)) (L.truth (link_of transfers.old))
        (L.truth (link_of transfers.new)) }
    ensures idle { OnOk result ((table_of transfers.new).pending ≡ []) }
    ensures live { OnOk result ((table_of transfers.new).given_up ≡ false) }
    ensures unended { OnOk result (took_end (L.history (link_of transfers.new)) ≡ false) }
    ensures goes { L.goes_on (link_of transfers.old) (link_of transfers.new) }
    ensures room { OnOk result (HasRoom (table_of transfers.new) (L.room (link_of transfers.new))) }
    ensures ids { OnOk result ((table_of transfers.new).ids + L.budget_left (link_of transfers.new)
        ≤ (table_of transfers.old).ids + L.budget_left (link_of transfers.old)) }
{
    let mut message = Incoming::End;
    let mut bytes = [0; 4096];
    'messages: loop {
        if transfers.is_idle() {
            return Ok(());
        }
        match transfers.step(&mut message, &mut bytes) {
            Settled::GaveUp => return Err(Stop::GaveUp),
            Settled::End => return Err(Stop::Ended),
            Settled::Nothing => {}
            Settled::Read(_) => {}
            Settled::Written(_) => {}
            Settled::Flush => {}
        }
    }
}

/// Reads the bytes of a place into the first ones of a buffer, and has them taken.
fn read_place<L: Link, T: Takes>(
    transfers: &mut Transfers<L>,
    asked: &mut Vec<Sought>,
    buffer: &mut [u8],
    minor: u8,
    place: &Place,
    taker: &mut T,
) -> Result<(), Stop>
    requires none { asked.old.items ≡ [] }
    requires wide { 16 ≤ vec_capacity asked.old }
    requires long { length buffer.old ≡ 1048576 }
    requires start { place.now.start % 512 ≡ 0 }
    requires whole { place.now.size % 512 ≡ 0 }
    requires most { place.now.size ≤ 1048576 }
    requires bound { place.now.start + place.now.size ≤ 2 ^ 48 }
    requires idle { (table_of transfers.old).pending ≡ [] }
    requires live { (table_of transfers.old).given_up ≡ false }
    requires unended { took_end (L.history (link_of transfers.old)) ≡ false }
    requires room { HasRoom (table_of transfers.old) (L.room (link_of transfers.old)) }
    requires ids { (table_of transfers.old).ids + L.budget_left (link_of transfers.old) + place.now.size ≤ 2 ^ 60 - 4096 }
    ensures reads { ReadsPlace T.takes result minor place.now taker.old taker.new (table_of transfers.old) (table_of transfers.new)
        (L.history (link_of transfers.old)) (L.history (link_of transfers.new)) (L.truth (link_of transfers.old))
        (L.truth (link_of transfers.new)) }
    ensures goes { L.goes_on (link_of transfers.old) (link_of transfers.new) }
    ensures room { OnOk result (HasRoom (table_of transfers.new) (L.room (link_of transfers.new))) }
    ensures ids { OnOk result ((table_of transfers.new).ids + L.budget_left (link_of transfers.new)
        ≤ (table_of transfers.old).ids + L.budget_left (link_of transfers.old) + place.now.size) }
    ensures none { OnOk result (asked.new.items ≡ []) }
    ensures wide { vec_capacity asked.new ≡ vec_capacity asked.old }
    ensures long { length buffer.new ≡ length buffer.old }
    ensures memory { result ≢ Err Stop.OutOfMemory }
{
    let into = &mut buffer[..place.size as usize];
    match read_in(transfers, asked, minor, place.start, into) {
        Ok(()) => {
            taker.take(place.start, into);
            Ok(())
        }
        Err(stop) => Err(stop),
    }
}

/// Reads the places, one after the other, where nothing is pending, and has each piece taken.
fn read_places<L: Link, T: Takes>(
    transfers: &mut Transfers<L>,
    room: ReadRoom,
    minor: u8,
    places: &[Place],
    taker: &mut T,
) -> Result<(), Stop>
    requires places { ArePlaces 0 (2 ^ 48) places.now }
    requires idle { (table_of transfers.old).pending ≡ [] }
    requires live { (table_of transfers.old).given_up ≡ false }
    requires unended { took_end (L.history (link_of transfers.old)) ≡ false }
    requires room { HasRoom (table_of transfers.old) (L.room (link_of transfers.old)) }
    requires ids { (table_of transfers.old).ids + L.budget_left (link_of transfers.old) + 2 ^ 48 < 2 ^ 60 - 4096 }
    ensures back { (pieces : List Piece) × AreTaken T.takes taker.old pieces taker.new × OnOk result (AreAt places.now pieces)
        × ReadsBack result minor pieces (table_of transfers.old) (table_of transfers.new) (L.history (link_of transfers.old))
        (L.history (link_of transfers.new)) (L.truth (link_of transfers.old)) (L.truth (link_of transfers.new)) }
    ensures goes { L.goes_on (link_of transfers.old) (link_of transfers.new) }
    ensures memory { result ≢ Err Stop.OutOfMemory }
{
    let ReadRoom {
        mut asked,
        mut buffer,
    } = room;
    for place in places {
        match read_place(transfers, &mut asked, &mut buffer, minor, place, taker) {
            Ok(()) => {}
            Err(stop) => return Err(stop),
        }
    }
    Ok(())
}

/// Waits for all that is pending, and then reads these places of the range of the media that this minor names, in order. Each piece is
/// taken once its last byte was read, before the next one is asked for. It takes messages until all have come, the device is given up or
/// the link ends, and none where the device was given up before. It takes no memory.
pub fn read_back<L: Link, T: Takes>(
    transfers: &mut Transfers<L>,
    room: ReadRoom,
    minor: u8,
    places: &[Place],
    taker: &mut T,
) -> Result<(), Stop>
    requires minor { AreFor minor (table_of transfers.old).pending }
    requires places { ArePlaces 0 (2 ^ 48) places.now }
    requires unended { took_end (L.history (link_of transfers.old)) ≡ false }
    requires room { HasRoom (table_of transfers.old) (L.room (link_of transfers.old)) }
    requires ids { (table_of transfers.old).ids + L.budget_left (link_of transfers.old) + 2 ^ 48 < 2 ^ 60 - 4096 }
    ensures back { (pieces : List Piece) × AreTaken T.takes taker.old pieces taker.new × OnOk result (AreAt places.now pieces)
        × ReadsBack result minor pieces (table_of transfers.old) (table_of transfers.new) (L.history (link_of transfers.old))
        (L.history (link_of transfers.new)) (L.truth (link_of transfers.old)) (L.truth (link_of transfers.new)) }
    ensures goes { L.goes_on (link_of transfers.old) (link_of transfers.new) }
    ensures memory { result ≢ Err Stop.OutOfMemory }
{
    if transfers.is_given_up() {
        return Err(Stop::GaveUp);
    }
    match wait_for_all(transfers) {
        Ok(()) => read_places(transfers, room, minor, places, taker),
        Err(stop) => Err(stop),
    }
}
