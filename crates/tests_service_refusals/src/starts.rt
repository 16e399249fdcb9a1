//! Starts of a service of which each request for memory is refused in turn. What they are handed is made before, and the calls in the service
//! are made with memory.

use crate::without::make;
use board::counting::parameters::ServiceParameters;
use board::counting::recorder::Recorder;
use call_text::scripts::reading::read_script;
use call_text::scripts::timed::TimedCall;
use file_server::FileServer;
use fixtures::orders::{MOST, is_last, refuse, was_refused};
use fixtures::{new_volume, patient};
use gate::paced_gate::Paced;
use modeldisk::supply::{drivers_for, table_in};
use serve::service::Service;
use service_start::program::Program;
use service_start::start::serve;
use std::alloc::{AllocError, Global};
use std::sync::{Arc, Wait};
use std::test::Fail;
use std::thread::Threads;
use tree::Outcome;
use volume_mount::StartRefusal;

/// Makes calls in a session of a service, with memory: from here on no request is refused.
#[derive(Drop)]
struct Calls<'c> {
    alloc: Global,
    calls: &'c [TimedCall<'c>],
}

impl<R: Threads + Wait + Copy + Send + Sync + 'static> Program<R> for Calls<'_> {
    /// What each call came to, in their order; nothing where there was no session or no room for that.
    type Output = Option<Vec<Outcome>>;

    ghost gives = { λ program geometry opening output. Unit {0} };

    fn run<N: ServiceParameters, L: Recorder<N>, S: FileServer<L>>(
        self,
        service: Service<N, R, L, S>,
    ) -> Option<Vec<Outcome>>
        ensures { Unit {0} }
    {
        was_refused(self.alloc);
        let mut outcomes = Vec::with_capacity(self.alloc, self.calls.len()).ok()?;
        make_in(&service, self.calls, &mut outcomes)?;
        Some(outcomes)
    }
}

/// Makes calls in a session of a service, and adds what each comes to; nothing where there is no session or no room for it.
fn make_in<N: ServiceParameters, R: Threads + Wait + Copy, L: Recorder<N>, S: FileServer<L>>(
    service: &Service<N, R, L, S>,
    calls: &[TimedCall<'_>],
    outcomes: &mut Vec<Outcome>,
) -> Option<()> {
    let mut session = service.session(0, 0).ok()?;
    make(&mut session, calls, outcomes)
}

/// A file is made, written, removed while it is open, and read until it is closed.
const SCRIPT: &str = "\
user 0 0
100 open /f rwc 644
100 fill 0 1 41
100 unlink /f
100 sync
100 seek 0 set 0
100 read 0 5
100 statfs
100 close 0
100 statfs
";

/// What a start came to: what calls came to in the service, or its refusal.
type Started = Result<Option<Vec<Outcome>>, StartRefusal>;

/// A trial.
#[derive(Clone, Copy)]
struct Trial {
    number: u16,
    /// How many drivers there are but the first.
    spares: u8,
}

/// Starts a service on an image, of which there is a copy, over drivers and a gate that were made before the order: which of its requests
/// is refused, or 0 for none.
fn started<R: Threads + Wait + Copy + Send + Sync + 'static>(
    alloc: Global,
    rt: R,
    image: &[u8],
    calls: &[TimedCall<'_>],
    trial: Trial,
    request: u32,
) -> Result<(Started, bool), AllocError> {
    let supply = drivers_for(alloc, trial.spares, false, table_in(image))?;
    let gate = Arc::new(alloc, Paced::new(rt))?;
    let image = Vec::from_slice(alloc, image)?;
    let setup = patient();
    if request > 0 {
        refuse(alloc, trial.number, request);
    }
    let came = serve(
        alloc,
        rt,
        image,
        &setup,
        supply,
        gate,
        Calls { alloc, calls },
    );
    Ok((came, was_refused(alloc)))
}

/// Whether a start is right of which a request was refused, or none was: it is refused for want of memory; or the calls in the service come
/// to what they come to in the undisturbed one.
fn is_started(came: &Started, undisturbed: &Started, refused: bool) -> bool {
    match came {
        Ok(_) => came == undisturbed,
        Err(refusal) => refused && *refusal == StartRefusal::OutOfMemory,
    }
}

/// Whether this was the last request of a start, which is refused and comes out right beside the undisturbed one.
fn is_last_start<R: Threads + Wait + Copy + Send + Sync + 'static>(
    alloc: Global,
    rt: R,
    image: &[u8],
    calls: &[TimedCall<'_>],
    trial: Trial,
    request: u32,
    undisturbed: &Started,
) -> Result<bool, Fail> {
    let (came, refused) = started(alloc, rt, image, calls, trial, request)?;
    is_last(
        trial.number,
        request,
        refused,
        is_started(&came, undisturbed, refused),
    )
}

/// Starts a service on an image with the start's first request refused, then with its second, until none is. It comes out right each time.
fn starts_each_refused<R: Threads + Wait + Copy + Send + Sync + 'static>(
    alloc: Global,
    rt: R,
    image: &[u8],
    calls: &[TimedCall<'_>],
    trial: Trial,
) -> Result<(), Fail> {
    let (undisturbed, _) = started(alloc, rt, image, calls, trial, 0)?;
    if !matches!(&undisturbed, Ok(Some(_))) {
        return Err(Fail::from("not started"));
    }
    for request in 1..=MOST {
        if is_last_start(alloc, rt, image, calls, trial, request, &undisturbed)? {
            return Ok(());
        }
    }
    Err(Fail::from("no end"))
}

/// The same of a new volume, and the calls of a script.
fn start_each_refused<R: Threads + Wait + Copy + Send + Sync + 'static>(
    alloc: Global,
    rt: R,
    trial: Trial,
    script: &str,
) -> Result<(), Fail> {
    let image = new_volume(alloc, 1024)?;
    let script = read_script(alloc, script.as_bytes())?;
    let calls = script.calls(alloc)?;
    starts_each_refused(alloc, rt, &image, calls.as_slice(), trial)
}

#[test]
fn starts_of_a_service(rt: HostRuntime) -> Result<(), Fail> {
    let trial = Trial {
        number: 24,
        spares: 5,
    };
    start_each_refused(rt.alloc(), rt, trial, SCRIPT)
}

/// Where no memory is found for the first driver's thread that is the start's refusal, and no fault of the driver, in whose place none comes.
#[test]
fn starts_over_one_driver(rt: HostRuntime) -> Result<(), Fail> {
    let trial = Trial {
        number: 27,
        spares: 0,
    };
    start_each_refused(rt.alloc(), rt, trial, SCRIPT)
}
