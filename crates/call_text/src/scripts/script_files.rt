//! Files that hold scripts: which fault of them is told first, and the scripts.

ghost use Rattle.std.specs.Prelude.{◌≡◌, Ok, Some, IfOk, IfErr, map};
ghost use Rattle.call_text.specs.Said.{said};
ghost use Rattle.call_text.specs.Files.{AreScripts, IsBad, IsRefused, first_unread, refusal_text, script_in};

use crate::scripts::reading::{ScriptRefusal, read_script};
use crate::scripts::script::Script;
use std::alloc::Global;
use std::fmt;

/// The most scripts that are played at a time: each has a session, and a server has no more.
pub const MAX_SCRIPTS: usize = 64;

/// A file that the command line names, and its bytes if it could be read.
#[derive(Clone, Copy)]
pub struct File<'n, 'b> {
    /// The name as it was given.
    pub name: &'n str,
    /// All its bytes; none where it couldn't be read.
    pub bytes: Option<&'b [u8]>,
}

/// Why the files aren't read as scripts. Nothing was played.
#[derive(Clone, Copy)]
pub enum FileRefusal<'n> {
    /// The file of this name is the first that can't be read.
    CannotRead(&'n str),
    /// The line of this number, from 1, of the script of this name is the first that can't be read.
    BadLine(u64, &'n str),
    /// There are more than [`MAX_SCRIPTS`].
    TooMany,
    /// No memory was found for a script, or for a call before a line that can't be read.
    OutOfMemory,
}

impl fmt::Display for FileRefusal<'_> {
    ghost output = { λ r. Some (refusal_text r) };

    fn fmt<W: fmt::Write>(&self, f: &mut fmt::Formatter<W>) -> fmt::Result {
        match self {
            FileRefusal::CannotRead(name) => write!(f, "cannot read {name}"),
            FileRefusal::BadLine(number, name) => write!(f, "bad line {number} of {name}"),
            FileRefusal::TooMany => f.write_str("TooMany"),
            FileRefusal::OutOfMemory => f.write_str("OutOfMemory"),
        }
    }
}

/// The name of the first file that couldn't be read.
fn first_unread<'n>(files: &[File<'n, '_>]) -> Option<&'n str>
    ensures { result ≡ first_unread files.now }
{
    for file in files {
        if file.bytes.is_none() {
            return Some(file.name);
        }
    }
    None
}

/// The script that a file holds.
fn read<'n, 'b>(alloc: Global, file: &File<'n, 'b>) -> Result<Script<'b>, FileRefusal<'n>>
    ensures ok { IfOk result (λ script. script_in file.now ≡ Ok (said script)) }
    ensures err { IfErr result (IsBad file.now) }
{
    let text = file.bytes.unwrap_or(&[]);
    match read_script(alloc, text) {
        Ok(script) => Ok(script),
        Err(ScriptRefusal::BadLine(number)) => Err(FileRefusal::BadLine(number, file.name)),
        Err(ScriptRefusal::OutOfMemory) => Err(FileRefusal::OutOfMemory),
    }
}

/// Reads the scripts of all files, in their order.
///
/// Faults are looked for in this order: a file that can't be read, a bad line, file by file, more than 64 scripts.
pub fn read_scripts<'n, 'b>(
    alloc: Global,
    files: &[File<'n, 'b>],
) -> Result<Vec<Script<'b>>, FileRefusal<'n>>
    ensures ok { IfOk result (λ scripts. AreScripts files.now (map said scripts.items)) }
    ensures err { IfErr result (IsRefused files.now) }
{
    if let Some(name) = first_unread(files) {
        return Err(FileRefusal::CannotRead(name));
    }
    let mut scripts = Vec::new(alloc);
    for file in files {
        let script = match read(alloc, file) {
            Ok(script) => script,
            Err(refusal) => return Err(refusal),
        };
        if scripts.push(script).is_err() {
            return Err(FileRefusal::OutOfMemory);
        }
    }
    if scripts.len() > MAX_SCRIPTS {
        return Err(FileRefusal::TooMany);
    }
    Ok(scripts)
}
