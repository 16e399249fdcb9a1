//! The requests in a run's marks.

use reply_text::mark::MarkRef;

/// How many requests were posted, and how many are open.
#[derive(Clone, Copy)]
pub struct Requests {
    /// How many were posted, those that were issued again among them.
    pub posted: u32,
    /// The greatest id: ids rise by one from 1.
    greatest: u64,
    /// How many have a good answer.
    good: u64,
}

impl Requests {
    /// Nothing was posted.
    pub const NONE: Requests = Requests {
        posted: 0,
        greatest: 0,
        good: 0,
    };

    /// Sees a mark. The drivers here answer whole requests.
    pub fn see(&mut self, mark: &MarkRef<'_>) {
        match mark {
            MarkRef::Issued(request, _) => {
                self.posted = self.posted.saturating_add(1);
                self.greatest = self.greatest.max(request.head.id);
            }
            MarkRef::Answered(reply) if reply.head.outcome.is_ok() => {
                self.good = self.good.saturating_add(1);
            }
            _ => {}
        }
    }

    /// How many have no good answer.
    pub fn open(&self) -> u64 {
        self.greatest.saturating_sub(self.good)
    }
}
