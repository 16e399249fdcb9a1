//! Why an image file isn't opened.

ghost use Rattle.std.specs.Prelude.{◌≡◌};
ghost use Rattle.image_file.specs.Numbers.{refusal_number};
ghost use Rattle.image_file.specs.declared.refusal.OpenRefusal.TheVariants.{Io as IoRefusal};

use std::{error, fmt, io};

/// Why an image file isn't opened, or isn't read.
#[derive(Debug, Drop)]
pub enum OpenRefusal {
    /// The log asks for changes of another image. Neither file was written.
    Foreign,
    /// A read, a write or a sync failed, or no memory was found. The next start finds the image that this one would have found.
    Io(io::Error),
}

impl OpenRefusal {
    /// Its number.
    pub fn number(&self) -> u32
        ensures { result ≡ refusal_number self.now }
    {
        match self {
            OpenRefusal::Foreign => 1,
            OpenRefusal::Io(_) => 2,
        }
    }
}

impl fmt::Display for OpenRefusal {
    fn fmt<W: fmt::Write>(&self, f: &mut fmt::Formatter<W>) -> fmt::Result {
        match self {
            OpenRefusal::Foreign => f.write_str("the log is of another image"),
            OpenRefusal::Io(error) => write!(f, "{error}"),
        }
    }
}

impl error::Error for OpenRefusal {}

impl From<io::Error> for OpenRefusal {
    ghost use Rattle.std.specs.Prelude.{◌≡◌};
    ghost use Rattle.image_file.specs.declared.refusal.OpenRefusal.TheVariants.{Io as IoRefusal};

    ghost from_gives = { λ error refusal. refusal ≡ IoRefusal error };

    fn from(error: io::Error) -> OpenRefusal {
        OpenRefusal::Io(error)
    }
}
