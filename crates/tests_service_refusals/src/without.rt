//! Calls of a service after its opening, while there is no memory: none but read and readdir takes any.

use crate::standing::Standing;
use board::counting::parameters::ServiceParameters;
use board::counting::recorder::Recorder;
use call_text::scripts::reading::read_script;
use call_text::scripts::timed::TimedCall;
use errno::Errno;
use file_server::FileServer;
use fixtures::orders::{refuse, was_refused};
use fixtures::{new_volume, patient};
use modeldisk::supply::{drivers_for, table_in};
use serve::service::{Service, Shared};
use serve::session::Session;
use serve::stopping::image_left;
use service_start::program::Program;
use service_start::start::serve;
use std::alloc::{AllocError, Global};
use std::env;
use std::sync::{Arc, Wait};
use std::test::Fail;
use std::thread::Threads;
use tree::{Outcome, Reply};

/// All memory that there is, or an order by which no request is granted.
#[derive(Drop)]
struct Hoard(Vec<Vec<u8>>);

/// How many blocks are taken, at most.
const BLOCKS: usize = 262_144;

/// The bytes of the largest blocks, 2^46, and how often they are halved: to 16.
const LARGEST: usize = 0x4000_0000_0000;

const HALVES: u32 = 43;

/// Blocks of each size up to so many bytes are taken too: an allocator may keep those that were given back for such requests alone.
const MOST_SMALL: usize = 1040;

/// How often in a row a request is refused where there is no memory. Each thread may have a part of memory of its own, and an allocator
/// that finds none in one may look into another one the next time.
const ASKS: u32 = 256;

/// How often all sizes are gone through, at most, until nothing is found: other threads may give memory back meanwhile.
const ROUNDS: u32 = 30;

/// Whether a small request is granted.
fn is_granted(alloc: Global) -> bool {
    let asked: Result<Vec<u8>, AllocError> = Vec::with_capacity(alloc, 16);
    asked.is_ok()
}

/// Takes blocks of this size while there are any.
fn take_all(alloc: Global, size: usize, blocks: &mut Vec<Vec<u8>>) {
    let mut refused = 0u32;
    for _ in blocks.len()..BLOCKS {
        let asked: Result<Vec<u8>, AllocError> = Vec::with_capacity(alloc, size);
        match asked {
            Ok(block) => {
                let _ = blocks.push(block);
                refused = 0;
            }
            Err(_) => refused = refused.saturating_add(1),
        }
        if refused >= ASKS {
            return;
        }
    }
}

/// Takes blocks of all sizes while there are any. Whether none was found.
fn was_none_left(alloc: Global, blocks: &mut Vec<Vec<u8>>) -> bool {
    let taken = blocks.len();
    let mut size = LARGEST;
    for _ in 0..HALVES {
        take_all(alloc, size, blocks);
        size /= 2;
    }
    for size in (16..=MOST_SMALL).step_by(16) {
        take_all(alloc, size, blocks);
    }
    blocks.len() == taken && taken < BLOCKS
}

impl Hoard {
    /// Takes all memory; nothing where some is left.
    fn all(alloc: Global) -> Option<Hoard> {
        let blocks = Vec::with_capacity(alloc, BLOCKS).ok()?;
        refuse(alloc, 9, 0);
        let mut hoard = Hoard(blocks);
        if hoard.takes_rest(alloc) {
            return Some(hoard);
        }
        hoard.release(alloc);
        None
    }

    /// Takes what there is, and what is given back meanwhile. Whether nothing is left.
    fn takes_rest(&mut self, alloc: Global) -> bool {
        for _ in 0..ROUNDS {
            if was_none_left(alloc, &mut self.0) {
                return true;
            }
        }
        false
    }

    /// Gives it back.
    fn release(self, alloc: Global) {
        drop(self);
        was_refused(alloc);
    }
}

/// Calls that are made in a session, those of the second list at the end; where `without` holds all of them without memory, and then those
/// of the second list again.
#[derive(Drop)]
struct Calls<'c, R: Wait + Copy> {
    alloc: Global,
    gate: Arc<Standing<R>>,
    calls: &'c [TimedCall<'c>],
    reads: &'c [TimedCall<'c>],
    without: bool,
}

/// Makes calls, and adds what each comes to; nothing where there is no room for it.
pub(crate) fn make<N: ServiceParameters, R: Wait + Copy, L: Recorder<N>, S: FileServer<L>>(
    session: &mut Session<N, Shared<N, R, L, S>>,
    calls: &[TimedCall<'_>],
    outcomes: &mut Vec<Outcome>,
) -> Option<()> {
    for timed in calls {
        let outcome = session.call(timed.time, &timed.call);
        outcomes.push(outcome).ok()?;
    }
    Some(())
}

impl<R: Threads + Wait + Copy + Send + Sync + 'static> Program<R> for Calls<'_, R> {
    /// What each call came to, in their order; nothing where memory couldn't be taken away. By then the service is stopped, so that none of
    /// its threads gives memory back while the next one runs.
    type Output = Option<Vec<Outcome>>;

    ghost gives = { λ program geometry opening output. Unit {0} };

    fn run<N: ServiceParameters, L: Recorder<N>, S: FileServer<L>>(
        self,
        service: Service<N, R, L, S>,
    ) -> Option<Vec<Outcome>>
        ensures { Unit {0} }
    {
        let mut outcomes = Vec::with_capacity(self.alloc, 128).ok()?;
        let made = self.make_in(&service, &mut outcomes);
        image_left(service.stop()).ok()?;
        made?;
        Some(outcomes)
    }
}

impl<R: Wait + Copy> Calls<'_, R> {
    /// Makes the calls in a session of a service, which then ends, and adds what each comes to.
    fn make_in<N: ServiceParameters, L: Recorder<N>, S: FileServer<L>>(
        &self,
        service: &Service<N, R, L, S>,
        outcomes: &mut Vec<Outcome>,
    ) -> Option<()>
    where
        R: Threads,
    {
        let mut session = service.session(0, 0).ok()?;
        let made = self.make_all(&mut session, outcomes);
        session.end();
        made
    }

    /// Makes the calls, without memory if need be, and then the reads.
    fn make_all<N: ServiceParameters, L: Recorder<N>, S: FileServer<L>>(
        &self,
        session: &mut Session<N, Shared<N, R, L, S>>,
        outcomes: &mut Vec<Outcome>,
    ) -> Option<()> {
        if self.without {
            self.gate.set(true);
            let made = self.make_without(session, outcomes);
            self.gate.set(false);
            made?;
        } else {
            make(session, self.calls, outcomes)?;
        }
        make(session, self.reads, outcomes)
    }

    /// Makes all of them without memory. What was given back by the time of the reads is taken too.
    fn make_without<N: ServiceParameters, L: Recorder<N>, S: FileServer<L>>(
        &self,
        session: &mut Session<N, Shared<N, R, L, S>>,
        outcomes: &mut Vec<Outcome>,
    ) -> Option<()> {
        let mut hoard = Hoard::all(self.alloc)?;
        let made = make(session, self.calls, outcomes).is_some()
            && hoard.takes_rest(self.alloc)
            && make(session, self.reads, outcomes).is_some();
        hoard.release(self.alloc);
        if made { Some(()) } else { None }
    }
}

/// Each call but read and readdir.
const CALLS: &str = "\
user 0 0
100 open /f rwc 644
100 fill 0 40000 61
100 write 0 68656c6c6f
100 fill 0 131072 62
100 seek 0 set 39998
100 dup 0
100 close 1
100 stat /f
100 fstat 0
100 mkdir /d 755
100 mkdir /d/e 755
100 rename /d/e /e
100 link /f /d/g
100 rename /d/g /h
100 unlink /h
100 rmdir /e
100 chmod /f 600
100 chown /f 5 7
100 utime /f 1 2
100 truncate /f 50000
100 symlink f /l
100 symlink l /m
100 lstat /m
100 readlink /m
100 stat /m
100 symlink /n/n /n
100 stat /n
100 sync
100 statfs
100 open / r 0
100 open /none r 0
100 open /m rwac 644
100 fill 2 3000 63
100 sync
100 close 2
";

/// Reads of a file and of a directory that are open, which change what later reads give.
const READS: &str = "\
user 0 0
101 read 0 9
101 readdir 1
";

/// What the calls and reads of two scripts come to on an image, with memory or without; nothing where memory couldn't be taken away.
fn come_to<R: Threads + Wait + Copy + Send + Sync + 'static>(
    rt: R,
    image: &[u8],
    program: Calls<'_, R>,
) -> Result<Option<Vec<Outcome>>, Fail> {
    let alloc = program.alloc;
    let supply = drivers_for(alloc, 0, false, table_in(image))?;
    let gate = Arc::try_clone(&program.gate)?;
    let image = Vec::from_slice(alloc, image)?;
    match serve(alloc, rt, image, &patient(), supply, gate, program) {
        Ok(outcomes) => Ok(outcomes),
        Err(_) => Err(Fail::from("not served")),
    }
}

/// What calls come to on an image, with memory or without.
fn outcomes<R: Threads + Wait + Copy + Send + Sync + 'static>(
    alloc: Global,
    rt: R,
    image: &[u8],
    without: bool,
) -> Result<Option<Vec<Outcome>>, Fail> {
    let script = read_script(alloc, CALLS.as_bytes())?;
    let calls = script.calls(alloc)?;
    let reads = read_script(alloc, READS.as_bytes())?;
    let reads = reads.calls(alloc)?;
    let program = Calls {
        alloc,
        gate: Arc::new(alloc, Standing::new(rt))?,
        calls: calls.as_slice(),
        reads: reads.as_slice(),
        without,
    };
    come_to(rt, image, program)
}

/// Whether a call wanted memory.
fn wants_memory(outcome: &Outcome) -> bool {
    *outcome == Outcome::Reply(Reply::Refused(Errno::ENOMEM))
}

/// Whether the two reads, which want memory, found none. It is an error where another call came without memory to something else than with
/// it, or where the reads then didn't give what they would have given.
fn are_same(with: &[Outcome], without: &[Outcome]) -> Result<bool, Fail> {
    let made = with.len().saturating_sub(2);
    let (calls, rest) = without.split_at(made.min(without.len()));
    let (wanting, reads) = rest.split_at(2.min(rest.len()));
    let (same, last) = with.split_at(made.min(with.len()));
    for (number, (one, other)) in calls.iter().zip(same).enumerate() {
        if one != other {
            return Err(Fail::new(format_args!("call {number}: {one:?}, not {other:?}")));
        }
    }
    if !wanting.iter().all(|outcome| wants_memory(outcome)) {
        return Ok(false);
    }
    if calls == same && reads == last {
        return Ok(true);
    }
    Err(Fail::from("the reads"))
}

/// How often memory is taken away, at most. It is done again where some was left, or a read was granted what another thread gave back.
const TRIALS: u32 = 30;

/// It is so on a volume with blocks of this size.
fn are_made_without<R: Threads + Wait + Copy + Send + Sync + 'static>(
    alloc: Global,
    rt: R,
    block: usize,
) -> Result<(), Fail> {
    let image = new_volume(alloc, block)?;
    let with = outcomes(alloc, rt, &image, false)?.ok_or("not made, or not stopped")?;
    for _ in 0..TRIALS {
        if let Some(without) = outcomes(alloc, rt, &image, true)? {
            if are_same(with.as_slice(), without.as_slice())? {
                return Ok(());
            }
        }
    }
    Err(Fail::from("memory is left each time, or a read wants none"))
}

#[test]
fn calls_after_opening(rt: HostRuntime) -> Result<(), Fail> {
    // An allocator takes orders, or all memory is taken: not under `rt try`, which gives no environment, and whose memory has no end.
    refuse(rt.alloc(), 9, 1);
    let takes_orders = !is_granted(rt.alloc());
    was_refused(rt.alloc());
    if !takes_orders && env::var(&rt, "PATH").is_err() {
        return Ok(());
    }
    for block in [1024, 2048, 4096] {
        are_made_without(rt.alloc(), rt, block)?;
    }
    Ok(())
}
