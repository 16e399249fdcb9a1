//! When a call of a service over drivers in threads is cut.

ghost use Rattle.std.specs.Prelude.{◌≡◌, List, length};
ghost use Rattle.records.specs.Marks.{Mark};
ghost use Rattle.records.specs.Opening.{Opening};
ghost use Rattle.shared_server.specs.Held.{HasEnded, IsCutAtEnd};
ghost use Rattle.service_start.specs.Spent.{IsSpent};

use board::counting::RecordingLink;
use board::counting::parameters::ServiceParameters;
use board::counting::recorder::Recorder;
use channel_link::link::ChannelLink;
use reissue::link::Link;
use std::sync::Wait;
use tree::Outcome;

/// Where a session says of a call that it was cut exactly once the link to the drivers had ended, and that link is one to drivers in
/// threads, its budget was spent then: it had received 2^40 messages, which is all that it gives, by its own count (`cut`). So it had
/// wherever it has ended (`spent`). What is said of the record alone, without the link (`ended`), holds of every record: messages that left
/// no mark may be any.
pub fn cut_once_spent<N: ServiceParameters, R: Wait + Copy>()
    ensures cut { (v : Opening) (outcome : Outcome) (seen : List Mark)
        → (is : IsCutAtEnd ⟦<RecordingLink<N, ChannelLink<R>> as Link>⟧ ⟦<RecordingLink<N, ChannelLink<R>> as Recorder<N>>⟧.marks v outcome seen)
        → outcome ≡ Outcome.Cut
        → (⟦<ChannelLink<R> as Link>⟧.budget_left is.line.link ≡ 0) × (length is.line.link.line ≡ 1099511627776) }
    ensures spent { (v : Opening) (seen : List Mark) (h : HasEnded ⟦<RecordingLink<N, ChannelLink<R>> as Link>⟧ v seen)
        → (⟦<ChannelLink<R> as Link>⟧.budget_left h.line.link ≡ 0) × (length h.line.link.line ≡ 1099511627776) }
    ensures ended { (v : Opening) (seen : List Mark) → HasEnded ⟦<RecordingLink<N, ChannelLink<R>> as Link>⟧ v seen → IsSpent seen }
{}
