//! Laws of the entries of a directory, from bytes to names: what a change of one entry does.

ghost use Rattle.directory.specs.Rows.{AllBytes, CountedNames, EntryOfName, FieldIsName, FoundEntry, InsertKeeps, InsertedNames};
ghost use Rattle.directory.specs.Rows.{NameIsField, NamesCommute, NewRow, NextName, NoEntry, NoneAtFirst, NoneHasIt, NoneSoFar, OtherByte};
ghost use Rattle.directory.specs.Rows.{RemoveKeeps, RemovedNames, RenamedOnto, ReparentKeeps, ReparentedNames, ReplaceKeeps, ReplacedNames};
ghost use Rattle.directory.specs.Rows.{RetargetedNames, SortedNames};
ghost use Rattle.directory.specs.Directories.{DirectoryIsRow, EmptyIsTwo, Inserted, NewDirectory, Removed, Renamed, Reparented, Retargeted};
ghost use Rattle.directory.specs.Directories.{RowIsDirectory, WholeAgain, WholeStill};
ghost use Rattle.directory.specs.Files.{ResizeDropsLast, WriteDropsEntry, WriteSetsEntry, WriteSetsNumber};
ghost use Rattle.directory.specs.Writes.{FileInserted, FileLastRemoved, FileRemoved, FileRenamed, FileReparented, FileRetargeted};

/// The 60 bytes of a name, filled with zeros, are that name and no other, and a comparison byte by byte finds out.
pub fn fields_are_names()
    ensures field_is_name { FieldIsName }
    ensures name_is_field { NameIsField }
    ensures all_bytes { AllBytes }
    ensures other_byte { OtherByte }
{}

/// A look-up answers the inode of the entry that has the name, and nothing exactly where no entry has it.
pub fn look_ups_are_entries()
    ensures found_entry { FoundEntry }
    ensures no_entry { NoEntry }
    ensures none_has_it { NoneHasIt }
    ensures entry_of_name { EntryOfName }
{}

/// A scan of the entries for a name goes on entry by entry.
pub fn scans_go_on()
    ensures none_at_first { NoneAtFirst }
    ensures none_so_far { NoneSoFar }
    ensures next_name { NextName }
{}

/// An entry more is a name more.
pub fn inserts()
    ensures inserted_names { InsertedNames }
    ensures insert_keeps { InsertKeeps }
{}

/// An entry less, whose place the last one takes, is a name less.
pub fn removals()
    ensures removed_names { RemovedNames }
    ensures remove_keeps { RemoveKeeps }
{}

/// An entry that is set anew is its name gone and another there: another name, another inode, another parent.
pub fn replacements()
    ensures replaced_names { ReplacedNames }
    ensures replace_keeps { ReplaceKeeps }
    ensures retargeted_names { RetargetedNames }
    ensures reparented_names { ReparentedNames }
    ensures reparent_keeps { ReparentKeeps }
    ensures renamed_onto { RenamedOnto }
    ensures names_commute { NamesCommute }
{}

/// A row has as many names as entries but two, in the order of their bytes; a new one has two entries.
pub fn counts()
    ensures counted_names { CountedNames }
    ensures sorted_names { SortedNames }
    ensures new_row { NewRow }
{}

/// A directory in order is a row of entries by the rules whose pages are all held.
pub fn directories_are_rows()
    ensures directory_is_row { DirectoryIsRow }
    ensures row_is_directory { RowIsDirectory }
    ensures empty_is_two { EmptyIsTwo }
    ensures whole_again { WholeAgain }
    ensures whole_still { WholeStill }
    ensures new_directory { NewDirectory }
{}

/// What the changes of a row are to a directory of a volume.
pub fn directories_change()
    ensures inserted { Inserted }
    ensures removed { Removed }
    ensures retargeted { Retargeted }
    ensures renamed { Renamed }
    ensures reparented { Reparented }
{}

/// Writes of 64 or 4 bytes set an entry, and a write with a smaller size drops one.
pub fn writes_set_entries()
    ensures write_sets_entry { WriteSetsEntry }
    ensures write_sets_number { WriteSetsNumber }
    ensures write_drops_entry { WriteDropsEntry }
    ensures resize_drops_last { ResizeDropsLast }
{}

/// What the calls of the layer of files do to a directory: insert, removal, replacement, rename, another parent.
pub fn files_change_directories()
    ensures file_inserted { FileInserted }
    ensures file_removed { FileRemoved }
    ensures file_last_removed { FileLastRemoved }
    ensures file_retargeted { FileRetargeted }
    ensures file_renamed { FileRenamed }
    ensures file_reparented { FileReparented }
{}
