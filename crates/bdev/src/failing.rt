//! A driver that fails, for whoever writes one.

ghost use Rattle.bdev.specs.Failing.{FailedAccepts, FailedIsDriver, FailingKeeps};

/// A driver may fail at any step, whether a request is in work or not: where it leaves the media and its own state as they are, but for
/// having failed, it keeps the interface. From then on it is a driver still, and takes and refuses requests as it did.
pub fn failing_keeps()
    ensures step { FailingKeeps }
    ensures driver { FailedIsDriver }
    ensures accept { FailedAccepts }
{}
