//! Laws: functions without a body, each of which stands for its clause.

ghost use Rattle.descriptors.specs.Laws.{CloseIsClose, DupIsDup, FileIsFound, MovedIsMoved, OpenIsOpen, PutIsOpen};

/// What the calls of this crate do is what client calls do to the open files and descriptors of a file tree.
pub fn calls_are_of_the_tree()
    ensures put { PutIsOpen }
    ensures dup { DupIsDup }
    ensures close { CloseIsClose }
    ensures get { FileIsFound }
    ensures set_position { MovedIsMoved }
    ensures is_open { OpenIsOpen }
{}
