//! A pending request.

ghost use Rattle.std.specs.Prelude.{◌≡◌, ◌+◌, ◌<◌, ◌≤◌, ◌^◌, ◌-◌, ◌%◌, ℕ, length, nat_lt, slice_index, true, false};
ghost use Rattle.message.specs.Good.{is_write};

use crate::ask::{Ask, Ticket};
use message::{BlockRequest, Kind};

/// A request that isn't settled: the range that was asked for, and the request for what is left of it.
#[derive(Clone, Copy)]
pub struct Pending {
    /// What whoever began it knows it by.
    pub ticket: Ticket,
    /// The first byte's place, as it was asked for.
    pub start: u64,
    /// How many bytes were asked for.
    pub size: u32,
    /// Of a read, what was read so far, and the others have no meaning; of a write, the bytes as they were given.
    pub bytes: [u8; 4096],
    /// The request for what is left, under its present id. A read's bytes have no meaning.
    pub request: BlockRequest,
    pub ghost some: { 0 < size },
    pub ghost small: { size ≤ 4096 },
    pub ghost bound: { start + size < 2 ^ 63 },
    pub ghost from: { start ≤ request.position },
    pub ghost end: { request.position + request.count ≡ start + size },
    pub ghost whole_position: { request.position % 512 ≡ 0 },
    pub ghost whole_count: { request.count % 512 ≡ 0 },
    pub ghost full: { length request.bytes ≡ 4096 },
}

/// The bytes from the n-th on, at the front.
fn shifted(bytes: &[u8; 4096], n: usize) -> [u8; 4096]
    requires { n ≤ 4096 }
    ensures { (k : ℕ) → n + k < 4096 → slice_index result k ≡ slice_index bytes.now (n + k) }
{
    let mut next = *bytes;
    next[..4096 - n].copy_from_slice(&bytes[n..]);
    next
}

impl Pending {
    ghost use Rattle.reissue.specs.Entries.{begun_of, meets};
    ghost use Rattle.reissue.specs.Moves.{begun_by, IsRequestFor};

    /// Whether a byte of this range was asked for.
    #[inline]
    pub fn meets(&self, start: u64, size: u32) -> bool
        requires { start + size < 2 ^ 63 }
        ensures { result ≡ meets start size self.now }
    {
        start < self.start + self.size as u64 && self.start < start + size as u64
    }

    /// Whether something of it is left after an answer that moved so many bytes.
    #[inline]
    pub(crate) fn goes_on(&self, moved: u32) -> bool
        ensures { result ≡ nat_lt moved self.now.request.count }
    {
        moved < self.request.count
    }

    /// A request that nobody asked for: the room of one that is to come.
    pub(crate) fn unused() -> Pending {
        Pending {
            ticket: Ticket::of_id(0),
            start: 0,
            size: 512,
            bytes: [0; 4096],
            request: BlockRequest {
                id: 0,
                kind: Kind::Read,
                minor: 0,
                position: 0,
                count: 512,
                bytes: [0; 4096],
            },
        }
    }

    /// It is what is asked for from now on, under this id. A write's bytes are copied. Those of a read have no meaning; zeros take the place
    /// of an earlier write's, since a run's notes keep what isn't zero.
    pub(crate) fn begin(&mut self, ask: &Ask<'_>, id: u64)
        ensures ticket { self.new.ticket ≡ id }
        ensures start { self.new.start ≡ ask.now.position }
        ensures size { self.new.size ≡ ask.now.count }
        ensures bytes { is_write ask.now.kind ≡ true → self.new.bytes ≡ ask.now.bytes.now }
        ensures begun { begun_of self.new ≡ begun_by ask.now }
        ensures request { IsRequestFor ask.now id self.new.request }
    {
        let was_write = self.request.kind == Kind::Write;
        self.ticket = Ticket::of_id(id);
        self.start = ask.position;
        self.size = ask.count;
        self.request.id = id;
        self.request.kind = ask.kind;
        self.request.minor = ask.minor;
        self.request.position = ask.position;
        self.request.count = ask.count;
        match ask.kind {
            Kind::Read if was_write => self.request.bytes = [0; 4096],
            Kind::Read => {}
            Kind::Write => {
                self.bytes = *ask.bytes;
                self.request.bytes = *ask.bytes;
            }
        }
    }

    /// An answer moved so many bytes of it: what is left is pending under a new id.
    pub(crate) fn answer(&mut self, moved: u32, bytes: &[u8; 4096], id: u64)
        requires within { moved ≤ self.old.request.count }
        requires whole { moved % 512 ≡ 0 }
        ensures ticket { self.new.ticket ≡ self.old.ticket }
        ensures start { self.new.start ≡ self.old.start }
        ensures size { self.new.size ≡ self.old.size }
        ensures id { self.new.request.id ≡ id }
        ensures kind { self.new.request.kind ≡ self.old.request.kind }
        ensures minor { self.new.request.minor ≡ self.old.request.minor }
        ensures position { self.new.request.position ≡ self.old.request.position + moved }
        ensures count { self.new.request.count + moved ≡ self.old.request.count }

        // A read keeps what was read before, and goes on with what was read now.
        ensures before { is_write self.old.request.kind ≡ false → (k : ℕ) → self.old.start + k < self.old.request.position
            → slice_index self.new.bytes k ≡ slice_index self.old.bytes k }
        ensures moved { is_write self.old.request.kind ≡ false → (k : ℕ) → k < moved
            → slice_index self.new.bytes (self.old.request.position - self.old.start + k) ≡ slice_index bytes.now k }

        // A write keeps its bytes, and those that are left go to the front of its request.
        ensures begun { is_write self.old.request.kind ≡ true → self.new.bytes ≡ self.old.bytes }
        ensures rest { is_write self.old.request.kind ≡ true → (k : ℕ) → k < self.new.request.count
            → slice_index self.new.request.bytes k ≡ slice_index self.old.request.bytes (moved + k) }
    {
        let done = (self.request.position - self.start) as usize;
        let n = moved as usize;
        self.request.id = id;
        self.request.position += moved as u64;
        self.request.count -= moved;
        match self.request.kind {
            Kind::Read => self.bytes[done..done + n].copy_from_slice(&bytes[..n]),
            Kind::Write => self.request.bytes = shifted(&self.request.bytes, n),
        }
    }

    /// An answer moved so many bytes of this read, of which nothing is left then: those of earlier answers go into `into`, and behind them
    /// those of this one.
    pub(crate) fn finish(&self, moved: u32, bytes: &[u8; 4096], into: &mut [u8; 4096])
        requires within { moved ≤ self.now.request.count }
        ensures before { (k : ℕ) → self.now.start + k < self.now.request.position
            → slice_index into.new k ≡ slice_index self.now.bytes k }
        ensures moved { (k : ℕ) → k < moved
            → slice_index into.new (self.now.request.position - self.now.start + k) ≡ slice_index bytes.now k }
        ensures after { (k : ℕ) → self.now.request.position + moved ≤ self.now.start + k
            → slice_index into.new k ≡ slice_index into.old k }
    {
        let done = (self.request.position - self.start) as usize;
        let n = moved as usize;
        into[..done].copy_from_slice(&self.bytes[..done]);
        into[done..done + n].copy_from_slice(&bytes[..n]);
    }
}
