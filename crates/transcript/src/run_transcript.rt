//! What a run came to.

use crate::shown::shown_marks;
use cached_blocks::Stored;
use file_server::FileServer;
use reply_text::mark::MarkRef;
use schedule::Sent;
use simulated_link::RunLink;
use simulated_link::unit::Unit;
use std::alloc::{AllocError, Global};
use synchronous_driver::local::LocalDriver;
use vfs::Server;

/// What a run came to: its record, the replies that drivers sent, the drivers and the server as they stand, and the calls that wait.
#[derive(Drop)]
pub struct Transcript<'a, D> {
    /// The server as it stands, over the link that ran the schedule.
    pub server: Server<Stored<RunLink<'a, D>>>,
    /// How many calls arrived and have no reply.
    pub unanswered: u64,
}

impl<'a, D: LocalDriver> Transcript<'a, D> {
    ghost use Rattle.std.specs.Prelude.{◌≡◌, ◌++◌, ◌∷◌, [], IfOk, map, reverse};
    ghost use Rattle.reply_text.specs.TranscriptText.{mark_of};
    ghost use Rattle.vfs.specs.OverLink.{line_of};
    ghost use Rattle.transcript.specs.ShownTranscript.{transcript_of};

    /// The link, as it stands.
    fn link(&self) -> &RunLink<'a, D>
        ensures { result.now ≡ line_of self.now.server }
    {
        self.server.link()
    }

    /// The marks of the record, oldest first. An error: no memory was found.
    pub fn marks(&self, alloc: Global) -> Result<Vec<MarkRef<'_>>, AllocError>
        ensures { IfOk result (λ shown. map mark_of shown.items ≡ reverse (transcript_of D.state self.now).marks) }
    {
        shown_marks(alloc, &self.link().log)
    }

    /// The replies that drivers sent, by their numbers, each with the number of the event at whose step it was sent.
    pub fn sent(&self) -> &[Sent]
        ensures { result.now ≡ (transcript_of D.state self.now).sent }
    {
        self.link().stage.drivers.sent.as_slice()
    }

    /// The drivers that were started, each as it stands: those before the last one, the first of them first, and the last one.
    pub fn drivers(&self) -> (&[Unit<D>], &Unit<D>)
        ensures { map (λ u. D.state u.driver) result.0.now ++ D.state result.1.now.driver ∷ [] ≡ (transcript_of D.state self.now).drivers }
    {
        let drivers = &self.link().stage.drivers;
        (drivers.older.as_slice(), &drivers.current)
    }

    /// The bytes of the media. An error: no memory was found.
    pub fn image(&self, alloc: Global) -> Result<Vec<u8>, AllocError>
        ensures { IfOk result (λ bytes. bytes.items ≡ (transcript_of D.state self.now).image) }
    {
        match self.link().stage.drivers.media.image(alloc) {
            Ok(bytes) => Ok(bytes),
            Err(_) => Err(AllocError),
        }
    }
}
