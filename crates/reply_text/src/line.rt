//! A line that is made anew for each value.

ghost use Rattle.std.specs.Prelude.{[], OnOk};
ghost use Rattle.std.specs.Fmt.{AppendsText, with_newline};
ghost use Rattle.std.specs.String.{string_bytes};

use output::OutputRefusal;
use std::fmt::{Display, Write};

/// Makes a line of a value's text and a newline, in the memory of the line before it.
pub(crate) fn make_line<T: Display>(line: &mut String, what: &T) -> Result<(), OutputRefusal>
    ensures { OnOk result (AppendsText [] (string_bytes line.new) (with_newline (T.output what.now))) }
{
    line.clear();
    match write!(line, "{what}\n") {
        Ok(()) => Ok(()),
        Err(_) => Err(OutputRefusal::OutOfMemory),
    }
}
