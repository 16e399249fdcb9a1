//! What a server over a link stands through, each a law of the definitions.

ghost use Rattle.file_server.specs.Laws.{SameStands, MessageStands, AnswerStands, CutStands};
ghost use Rattle.file_server.specs.Leaving.{CutLeaves};

use crate::FileServer;
use reissue::Link;

/// A server stands after something was done at its link that changed nothing else, with what its link guarantees then.
#[tactic(auto, using(crate::proofs::Standing::same_stands))]
pub fn same_server_stands<L: Link + Drop, S: FileServer<L>>()
    ensures { SameStands S L S.Serve.serving L.Link.truth }
{}

/// A server that was handed a message, which its link has noted, stands with the record that has it.
#[tactic(auto, using(crate::proofs::Standing::message_stands))]
pub fn message_stands<L: Link + Drop, S: FileServer<L>>()
    ensures { MessageStands S L S.Serve.serving L.Link.truth }
{}

/// A call was answered, and its mark noted: the server stands with the record that has it.
pub fn answer_stands<L: Link + Drop, S: FileServer<L>>()
    ensures { AnswerStands S L S.Serve.serving L.Link.truth }
{}

/// A call was cut: the server stands with the record that has what was done in it.
#[tactic(auto, using(crate::proofs::Standing::cut_stands))]
pub fn cut_stands<L: Link + Drop, S: FileServer<L>>()
    ensures { CutStands S L S.Serve.serving L.Link.truth }
{}

/// A call was cut by an End of its own, after which nothing was taken: something is pending that a message was needed for, and the device
/// isn't given up.
pub fn cut_leaves<L: Link + Drop, S: FileServer<L>>()
    ensures { CutLeaves S L S.Serve.serving L.Link.truth }
{}
