//! What a transcript of a run that was run out promises.

ghost use Rattle.world.specs.Shows.{RunsAreShown};

/// Where a run holds, a transcript with its marks, its frames, its calls without an answer and its media's bytes shows that.
pub fn runs_are_shown()
    ensures { RunsAreShown }
{}
