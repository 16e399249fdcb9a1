//! What the threads behind a link share.

ghost use Rattle.std.specs.Prelude.{◌≡◌, IfOk};
ghost use Rattle.std.specs.Arc.{arc_value};
ghost use Rattle.true_replies.specs.Events.{opening_media};

use board::Board;
use board::counting::parameters::ServiceParameters;
use gate::Gate;
use gate::bell::Bell;
use media::Media;
use shared_media::confined::Confined;
use std::alloc::{AllocError, Global};
use std::sync::{Arc, Mutex};

/// The media under their lock, the board, the gate, and the bell that tells all threads to end.
#[derive(Drop)]
pub(crate) struct Shared<N: ServiceParameters, G: Gate> {
    pub(crate) media: Arc<Mutex<Confined<N>>>,
    pub(crate) board: Arc<Board>,
    pub(crate) gate: Arc<G>,
    pub(crate) ending: Arc<Bell>,
}

impl<N: ServiceParameters, G: Gate> Shared<N, G> {
    /// For the first of the threads: these media, which drivers write in this range alone.
    pub(crate) fn new(
        alloc: Global,
        media: Media,
        range: (u32, u32),
        board: &Arc<Board>,
        gate: Arc<G>,
    ) -> Result<Shared<N, G>, AllocError>
        requires range { (range.0 ≡ N.opening.first) × (range.1 ≡ N.opening.count) }
        requires media { media ≡ opening_media N.opening }
        ensures { IfOk result (λ s. arc_value s.board ≡ arc_value board.now) }
    {
        Ok(Shared {
            media: Arc::new(alloc, Mutex::new(Confined::new(alloc, media, range)?))?,
            board: Arc::try_clone(board)?,
            gate,
            ending: Arc::new(alloc, Bell::new())?,
        })
    }

    /// The same for a further thread.
    pub(crate) fn another(&self) -> Result<Shared<N, G>, AllocError>
        ensures { IfOk result (λ s. arc_value s.board ≡ arc_value self.now.board) }
    {
        Ok(Shared {
            media: Arc::try_clone(&self.media)?,
            board: Arc::try_clone(&self.board)?,
            gate: Arc::try_clone(&self.gate)?,
            ending: Arc::try_clone(&self.ending)?,
        })
    }
}
