//! A redo log beside an image file: a commit changes some units of the image, and a crash leaves the image before it or after it. The image
//! file itself has the changes later, once they are settled.
#![tactic(auto)]

mod committing;
mod log_reading;
mod parts;
mod puts;
mod recovering;

ghost use Rattle.std.specs.Prelude.{ℕ, List};
ghost use Rattle.redo.specs.Laws.{CommitsAreSafe, RecoveriesAreSafe, CrashesAreSafe, RunsAreSafe};
ghost use Rattle.redo.specs.Costs.{Costs};

pub use committing::log;
pub use log_reading::{Logged, read_log};
pub use puts::Puts;
pub use recovering::{MOST, Recovered, recover};

/// At each moment of a commit a crash leaves the image before or the image after; behind it, and at each moment of its settling, the image
/// after.
pub fn commits_survive()
    ensures { CommitsAreSafe }
{}

/// At each moment of a recovery the files stand as a commit may leave them. After it all is at rest, with the image before or the image
/// after.
pub fn recoveries_survive()
    ensures { RecoveriesAreSafe }
{}

/// Where the files stand as a commit or a recovery may leave them, a crash leaves the image before or the image after, and the files opened
/// again stand so too.
pub fn crashes_are_survived()
    ensures { CrashesAreSafe }
{}

/// After any number of commits and settlings, at each moment of the next commit, a crash leaves the image of the last one that was answered
/// ok or of the next one; at each moment of a settling, that of the last one.
pub fn runs_survive()
    ensures { RunsAreSafe }
{}

/// What a commit and its settling write, by how many calls, and how many syncs they wait for.
pub fn commits_are_counted()
    ensures { (name at : ℕ) (changes : List (ℕ × List ℕ)) → Costs name at changes }
{}
