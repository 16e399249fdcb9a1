//! The media's bytes at a run's end.

ghost use Rattle.transcript.specs.Shown.{ImageShows};

/// Media whose sectors hold what a run's record says of the disk: so do their bytes in a transcript. The boot block, the superblock and what
/// lies behind the last zone stay.
pub fn image_shows_media()
    ensures { ImageShows }
{}
