//! What a server is handed between two calls: a Flush, and messages that came meanwhile.

ghost use Rattle.std.specs.Prelude.{◌≡◌, ◌<◌, ◌≤◌, ◌+◌, ◌^◌, ◌∷◌, List, IfNone, IfSome};
ghost use Rattle.std.specs.Bool.{OnFalse};
ghost use Rattle.records.specs.Marks.{Mark, Flush};
ghost use Rattle.records.specs.Opening.{Opening};
ghost use Rattle.records.specs.Told.{received};
ghost use Rattle.file_server.specs.Over.{SameServing};
ghost use Rattle.board.specs.Steady.{IsAside};
ghost use Rattle.shared_server.specs.Recorder.{SameServer};
ghost use Rattle.shared_server.specs.Held.{IsHeld};

use board::counting::parameters::ServiceParameters;
use board::counting::recorder::Recorder;
use file_server::FileServer;
use message::Incoming;

// The Flush is noted at the server's link.
fn note_flush<N: ServiceParameters, L: Recorder<N>, S: FileServer<L>>(server: &mut S)
    ensures same { SameServer L.Link S.Serve.serving S.line S.is_ready L.runs_on server.old server.new }
    ensures truth { (v : Opening) (older : List Mark) → L.truth (S.line server.old) v older
        → L.truth (S.line server.new) v (Flush ∷ older) }
    ensures absorbed { S.absorbed server.new ≡ S.absorbed server.old }
    ensures numbers { L.numbers (S.line server.new) ≡ L.numbers (S.line server.old) }
    ensures room { 33 ≤ L.room (S.line server.new) }
{
    server.link_mut().note_flush();
}

/// The server takes a Flush, which is a mark of the record. It stands with its record as before, and the numbers of sessions stay.
pub fn take_flush<N: ServiceParameters, L: Recorder<N>, S: FileServer<L>>(server: &mut S)
    requires held { IsHeld N.ServiceParameters L.Link S.Serve.serving S.line S.is_ready S.knows L.runs_on L.marks server.old }
    requires few { S.absorbed server.old < 2 ^ 48 }
    ensures held { IsHeld N.ServiceParameters L.Link S.Serve.serving S.line S.is_ready S.knows L.runs_on L.marks server.new }
    ensures absorbed { S.absorbed server.new ≤ S.absorbed server.old + 1 }
    ensures numbers { L.numbers (S.line server.new) ≡ L.numbers (S.line server.old) }
{
    note_flush(server);
    server.absorb(Incoming::Flush);
}

// The next message, if it has come already, is taken from the server's link, which notes it in its record alone.
fn next_aside<N: ServiceParameters, L: Recorder<N>, S: FileServer<L>>(
    server: &mut S,
) -> Option<Incoming>
    ensures served { SameServing (S.Serve.serving server.old) (S.Serve.serving server.new) }
    ensures may { S.is_ready server.old → S.is_ready server.new }
    ensures told { L.Link.history (S.line server.new) ≡ L.Link.history (S.line server.old) }
    ensures goes { L.Link.goes_on (S.line server.old) (S.line server.new) }
    ensures message { IfSome result IsAside }
    ensures some { IfSome result (λ m. (v : Opening) (older : List Mark) → L.truth (S.line server.old) v older
        → L.truth (S.line server.new) v (received m older)) }
    ensures none { IfNone result ((v : Opening) (older : List Mark) → L.truth (S.line server.old) v older
        → L.truth (S.line server.new) v older) }
    ensures absorbed { S.absorbed server.new ≡ S.absorbed server.old }
    ensures room { 33 ≤ L.room (S.line server.new) }
{
    server.link_mut().aside()
}

/// The server is handed the next message, if it has come already: a driver's answer or a start, which is a mark of the record where it
/// counts. Whether one had come. It stands with its record as before, and the numbers of sessions stay.
pub fn take_aside<N: ServiceParameters, L: Recorder<N>, S: FileServer<L>>(server: &mut S) -> bool
    requires held { IsHeld N.ServiceParameters L.Link S.Serve.serving S.line S.is_ready S.knows L.runs_on L.marks server.old }
    requires few { S.absorbed server.old < 2 ^ 48 }
    ensures held { IsHeld N.ServiceParameters L.Link S.Serve.serving S.line S.is_ready S.knows L.runs_on L.marks server.new }
    ensures absorbed { S.absorbed server.new ≤ S.absorbed server.old + 1 }
    ensures none { OnFalse result (S.absorbed server.new ≡ S.absorbed server.old) }
    ensures numbers { L.numbers (S.line server.new) ≡ L.numbers (S.line server.old) }
{
    match next_aside(server) {
        Some(message) => {
            server.absorb(message);
            true
        }
        None => false,
    }
}
