//! An image file as an archive: the changes of each sync are put into it by its log.

ghost use Rattle.std.specs.Prelude.{◌≡◌, IfErr, OnOk, Ok, Err};
ghost use Rattle.std.specs.IoError.{error_kind};
ghost use Rattle.archive.specs.FilePuts.{errno_of};

use crate::puts::Archive;
use errno::Errno;
use image_file::Kept;
use redo::Puts;
use stable::Storage;
use std::io;
use std::io::ErrorKind;

/// An image file, as where the changes of each sync are put.
#[derive(Drop)]
pub struct FileArchive<S> {
    kept: Kept<S>,
}

/// What a sync is answered for a put: ENOMEM where no memory was found, ENOSPC where no room was left for the files, EIO where they
/// refused.
fn answer(put: io::Result<()>) -> Result<(), Errno>
    ensures ok { OnOk put (result ≡ Ok tt) }
    ensures refused { IfErr put (λ error. result ≡ Err (errno_of (error_kind error))) }
{
    match put {
        Ok(()) => Ok(()),
        Err(error) => Err(errno_for(error.kind())),
    }
}

/// What is answered for an error of files.
fn errno_for(kind: ErrorKind) -> Errno
    ensures { result ≡ errno_of kind }
{
    match kind {
        ErrorKind::OutOfMemory => Errno::ENOMEM,
        ErrorKind::StorageFull | ErrorKind::QuotaExceeded => Errno::ENOSPC,
        _ => Errno::EIO,
    }
}

impl<S: Storage + Drop> FileArchive<S> {
    /// The changes go into this image file.
    pub fn new(kept: Kept<S>) -> FileArchive<S>
        ensures { result.kept ≡ kept }
    {
        FileArchive { kept }
    }
}

impl<S: Storage + Drop> Archive for FileArchive<S> {
    ghost use Rattle.image_file.specs.PutBy.{IsPutBy, IsImagePutBy};

    ghost puts = { λ s changes answer t. IsPutBy S.known s.kept changes answer t.kept };

    ghost ends = { λ s image answer t. IsImagePutBy S.known s.kept image answer t.kept };

    fn put<P: Puts>(&mut self, changes: &P) -> Result<(), Errno> {
        answer(self.kept.put(changes))
    }

    fn finish(&mut self, image: &[u8]) -> Result<(), Errno> {
        answer(self.kept.put_image(image))
    }
}
