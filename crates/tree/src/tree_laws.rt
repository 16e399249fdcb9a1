//! Laws of the file tree: every client call keeps a tree a tree and keeps to the room on its volume, and what a server and its
//! clients may rest on from call to call. Each law is the contract of a function that does nothing.

ghost use Rattle.tree.specs.Keeps.{ChmodKeeps, ChownKeeps, UtimeKeeps, SeekKeeps, ReadKeeps, DupKeeps, CloseKeeps, WriteKeeps};
ghost use Rattle.tree.specs.Keeps.{TruncateKeeps, UnlinkKeeps, LinkKeeps, MkdirKeeps, RmdirKeeps, OpenKeeps, RenameKeeps, SymlinkKeeps};
ghost use Rattle.tree.specs.Keeps.{EveryCallKeeps};
ghost use Rattle.tree.specs.Room.{EveryCallFits, TooBigIsRefused, FullIsRefused, EnospcMeans, FullMakesNone, OthersHaveRoom};
ghost use Rattle.tree.specs.Sessions.{OtherSessionsStay, RenameOfSameStays, ReaddirLists, ReadGivesWritten};
ghost use Rattle.tree.specs.Links.{LinkHasTarget, TargetIsWritten, LinkIsItsTarget};
ghost use Rattle.tree.specs.Order.{LinkOrder, OpenOrder, FoundOrder, RenameOrder};
ghost use Rattle.tree.specs.Zones.{NeedIsMonotone, NeedGrows, OnePageMore, PagesLetGo};

/// The calls that set attributes keep a tree a tree.
pub fn attribute_calls_keep()
    ensures chmod { ChmodKeeps }
    ensures chown { ChownKeeps }
    ensures utime { UtimeKeeps }
{}

/// The calls that move positions and take descriptors keep a tree a tree.
pub fn position_calls_keep()
    ensures seek { SeekKeeps }
    ensures read { ReadKeeps }
    ensures dup { DupKeeps }
{}

/// Close keeps a tree a tree, whether or not the file is freed.
pub fn close_keeps()
    ensures { CloseKeeps }
{}

/// The calls that change a file's bytes keep a tree a tree.
pub fn byte_calls_keep()
    ensures write { WriteKeeps }
    ensures truncate { TruncateKeeps }
{}

/// Unlink keeps a tree a tree, whether or not the file is freed.
pub fn unlink_keeps()
    ensures { UnlinkKeeps }
{}

/// Link keeps a tree a tree.
pub fn link_keeps()
    ensures { LinkKeeps }
{}

/// Mkdir and rmdir keep a tree a tree.
pub fn directory_calls_keep()
    ensures mkdir { MkdirKeeps }
    ensures rmdir { RmdirKeeps }
{}

/// Open keeps a tree a tree, whether or not it makes the file.
pub fn open_keeps()
    ensures { OpenKeeps }
{}

/// Rename keeps a tree a tree, of a file and of a directory, onto nothing and onto another node.
pub fn rename_keeps()
    ensures { RenameKeeps }
{}

/// Symlink keeps a tree a tree.
pub fn symlink_keeps()
    ensures { SymlinkKeeps }
{}

/// A symbolic link is its target, whose bytes are those that are written into an empty file.
pub fn links_are_targets()
    ensures made { LinkHasTarget }
    ensures written { TargetIsWritten }
    ensures only { LinkIsItsTarget }
{}

/// Every client call keeps a tree a tree, refused or not: for each geometry that a superblock can have, each caller, time and call of Rust.
pub fn every_call_keeps()
    ensures { EveryCallKeeps }
{}

/// A tree that fits its volume fits it after each client call, refused or not.
pub fn every_call_fits()
    ensures { EveryCallFits }
{}

/// ENOSPC is answered exactly where the tree would be too big for the volume, or where no inode is free and with one more the call
/// would make a node. The calls that take no room never answer it.
pub fn enospc_is_exact()
    ensures too_big { TooBigIsRefused }
    ensures no_inode { FullIsRefused }
    ensures means { EnospcMeans }
    ensures full { FullMakesNone }
    ensures others { OthersHaveRoom }
{}

/// How the zones that a file needs change: with more pages held, with one more, and with all from a page on let go.
pub fn need_changes()
    ensures monotone { NeedIsMonotone }
    ensures more { NeedGrows }
    ensures one { OnePageMore }
    ensures let_go { PagesLetGo }
{}

/// No call of one session changes another's descriptors.
pub fn other_sessions_stay()
    ensures { OtherSessionsStay }
{}

/// A rename of one name of a node onto another name of it changes nothing.
pub fn rename_of_same_stays()
    ensures { RenameOfSameStays }
{}

/// A readdir that succeeds lists exactly the names of the directory, in the order of their bytes, each once.
pub fn readdir_lists()
    ensures { ReaddirLists }
{}

/// After a write, and a seek back to where its bytes begin, a read of as many bytes by the same descriptor gives them.
pub fn read_gives_written()
    ensures { ReadGivesWritten }
{}

/// Where two refusals of link, open or rename hold at once, the first in the order of the call's rules is answered.
pub fn first_refusal_is_answered()
    ensures link { LinkOrder }
    ensures open { OpenOrder }
    ensures found { FoundOrder }
    ensures rename { RenameOrder }
{}
