//! Reads and writes: a seek to the offset, and then the call.

ghost use Rattle.std.specs.Prelude.{◌≡◌, min};
ghost use Rattle.ninep_fids.specs.Knowledge.{known_of};
ghost use Rattle.ninep_server.specs.Messages.{reading, writing};
ghost use Rattle.ninep_server.specs.Progress.{AsksNext, BeginsAs, GoesOnAs, left_of_transfer};

use crate::work::{DataWork, Next, Work};
use errno::Errno;
use ninep_fids::answer::NinepAnswer;
use ninep_fids::knows::Knows;
use ninep_fids::send::within;
use talks::ask::Ask;
use talks::heard::Heard;
use talks::refused::Refused;
use tree::{Call, MAX_SIZE, MAX_TRANSFER, Whence};

/// What is moved.
#[derive(Clone, Copy)]
pub(crate) enum Moved<'m> {
    /// At most so many bytes of the file.
    Read { count: u32 },
    /// These bytes into the file.
    Write { bytes: &'m [u8] },
}

/// Bytes are moved at an offset of an open file.
#[derive(Clone, Copy)]
pub(crate) struct Transfer<'m> {
    session: u8,
    fd: u32,
    /// Where the position is set to; none once it is.
    seek: Option<i64>,
    moved: Moved<'m>,
}

/// The smaller one.
pub(crate) fn least(a: u32, b: u32) -> u32
    ensures { result ≡ min a b }
{
    if a < b { a } else { b }
}

impl<'m> Transfer<'m> {
    /// Reads at most so many bytes, and at most what an answer and a read of the server may have. Past the largest offset there are none.
    pub(crate) fn read(
        knows: &Knows,
        fid: u32,
        offset: u64,
        count: u32,
    ) -> Result<Next<'m>, Refused>
        ensures { BeginsAs (reading (known_of knows.now) fid offset count) knows.now knows.now result }
    {
        let (session, fd) = knows.fids.open(fid)?;
        if offset > u64::from(MAX_SIZE) {
            return Ok(Next::Done(NinepAnswer::Read(Vec::new(knows.alloc))));
        }
        let count = least(least(count, knows.most()), MAX_TRANSFER);
        Ok(Next::Go(Work::Data(DataWork::Transfer(Transfer {
            session,
            fd,
            seek: Some(offset as i64),
            moved: Moved::Read { count },
        }))))
    }

    /// Writes bytes, at most as many as a write of the server takes. EFBIG past the largest offset.
    pub(crate) fn write(
        knows: &Knows,
        fid: u32,
        offset: u64,
        bytes: &'m [u8],
    ) -> Result<Next<'m>, Refused>
        ensures { BeginsAs (writing (known_of knows.now) fid offset bytes.now) knows.now knows.now result }
    {
        let (session, fd) = knows.fids.open(fid)?;
        if offset > u64::from(MAX_SIZE) {
            return Err(Refused::By(Errno::EFBIG));
        }
        Ok(Next::Go(Work::Data(DataWork::Transfer(Transfer {
            session,
            fd,
            seek: Some(offset as i64),
            moved: Moved::Write {
                bytes: within(bytes, MAX_TRANSFER),
            },
        }))))
    }

    /// The call of its stage.
    fn call(&self) -> Call<'_>
        ensures { AsksNext (left_of_transfer self.now) (Ask.Call self.now.session result) }
    {
        let fd = self.fd;
        match (self.seek, self.moved) {
            (Some(offset), _) => Call::Seek {
                fd,
                whence: Whence::Set,
                offset,
            },
            (None, Moved::Read { count }) => Call::Read { fd, count },
            (None, Moved::Write { bytes }) => Call::Write { fd, bytes },
        }
    }

    pub(crate) fn ask(&self) -> Ask<'_>
        ensures { AsksNext (left_of_transfer self.now) result }
    {
        Ask::Call {
            session: self.session,
            call: self.call(),
        }
    }

    pub(crate) fn hear(self, heard: Heard) -> Result<Next<'m>, Refused>
        ensures { GoesOnAs (left_of_transfer self.entry) heard result }
    {
        match (self.seek, self.moved) {
            (Some(_), _) => {
                heard.at()?;
                Ok(Next::Go(Work::Data(DataWork::Transfer(Transfer { seek: None, ..self }))))
            }
            (None, Moved::Read { .. }) => Ok(Next::Done(NinepAnswer::Read(heard.bytes()?))),
            (None, Moved::Write { .. }) => Ok(Next::Done(NinepAnswer::Write(heard.wrote()?))),
        }
    }
}
