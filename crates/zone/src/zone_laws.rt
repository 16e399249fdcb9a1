//! Laws of the zones of a volume: what a change of one number does to the places of inodes, to files, to the rules of the format,
//! to the nodes and to the count of zones. A change is stated on the volume's pieces: no block is read or written here.

ghost use Rattle.zone.specs.ZoneSteps.{OnePlaceOfSlot, OnePlaceOfWord, SoundIsSoundBut, SoundButIsSound, FullAgain, Weaker, LinkKeeps};
ghost use Rattle.zone.specs.ZoneSteps.{UnlinkKeeps, LinkedPageIsHeld, LinkKeepsFiles, UnlinkedPageIsHole, UnlinkKeepsFiles, NodesChangeAt};
ghost use Rattle.zone.specs.ZoneSteps.{LinkMarksOne, UnlinkFreesOne, MarkedAsNeeded, NodesChangeWith};
ghost use Rattle.zone.specs.Raw.{FilledSlotLinks, FilledWordLinks, ClearedSlotUnlinks, ClearedWordUnlinks, PlacesStay, NumbersKeep};
ghost use Rattle.zone.specs.Raw.{WriteKeepsNumbers, WrittenFile, WriteKeepsFiles, WriteKeeps, ResizedFile, ResizeKeeps};
ghost use Rattle.zone.specs.Missing.{PageTakesMissing};
ghost use Rattle.zone.specs.Composite.{AttachedInner, AttachesInner, AttachedOuter, AttachesOuter, DetachesInner, DetachesOuter};
ghost use Rattle.zone.specs.Composite.{DetachesOn, UnlinkedAbove, AttachedNodes, DetachedNodes};
ghost use Rattle.zone.specs.Room.{NodesTakeMarked, PageHasRoom};
ghost use Rattle.zone.specs.Chunks.{ChunkIsWritten, WritesJoin};
ghost use Rattle.zone.specs.Inodes.{ChangeKeeps, ChangedNodes, NoSlotsNoPlaces, FourBytes};

/// A number that changes in an inode changes what stands at one place of that inode, and at no other place of a marked inode,
/// where no number stands below it before or after.
pub fn one_place_of_slot()
    ensures { OnePlaceOfSlot }
{}

/// So does a number that changes in an indirect block, where the zones agree with the maps.
pub fn one_place_of_word()
    ensures { OnePlaceOfWord }
{}

/// A sound volume keeps the rules of which one inode is let off: each indirect block has a number.
pub fn sound_is_sound_but()
    ensures { SoundIsSoundBut }
{}

/// And a volume that keeps them is sound, where that inode is no directory, or one in order.
pub fn sound_but_is_sound()
    ensures { SoundButIsSound }
{}

/// An indirect block that was let off, but has a number after all, needs no exception.
pub fn full_again()
    ensures { FullAgain }
{}

/// Where no block is let off, any may be.
pub fn weaker()
    ensures { Weaker }
{}

/// A zone that is linked below a block without a number keeps the rules; the new one may be without a number then.
pub fn link_keeps()
    ensures { LinkKeeps }
{}

/// A zone without a number that is let go keeps the rules; the block above may be without a number then.
pub fn unlink_keeps()
    ensures { UnlinkKeeps }
{}

/// A page that is linked is held, and its bytes are zeros.
pub fn linked_page()
    ensures { LinkedPageIsHeld }
{}

/// A zone that is linked changes no other file, and none at all if it is an indirect block.
pub fn link_keeps_files()
    ensures { LinkKeepsFiles }
{}

/// A page that is let go is a hole.
pub fn unlinked_page()
    ensures { UnlinkedPageIsHole }
{}

/// A zone that is let go changes no other file, and none at all if it is an indirect block.
pub fn unlink_keeps_files()
    ensures { UnlinkKeepsFiles }
{}

/// Where the other files and all attributes stay, the nodes change at one number.
pub fn nodes_change_at()
    ensures { NodesChangeAt }
{}

/// A zone that is linked is one more in the zone map.
pub fn link_marks_one()
    ensures { LinkMarksOne }
{}

/// A zone that is let go is one less in the zone map.
pub fn unlink_frees_one()
    ensures { UnlinkFreesOne }
{}

/// Where one node of a sound volume changes, the zone map has as many zones more as that node takes more.
pub fn marked_as_needed()
    ensures { MarkedAsNeeded }
{}

/// A free zone, filled with zeros, whose number is put into an inode, is linked there.
pub fn filled_slot_links()
    ensures { FilledSlotLinks }
{}

/// So is one whose number is put into an indirect block.
pub fn filled_word_links()
    ensures { FilledWordLinks }
{}

/// A zone whose number in an inode becomes 0, and whose bit is cleared, is let go.
pub fn cleared_slot_unlinks()
    ensures { ClearedSlotUnlinks }
{}

/// So is one whose number in an indirect block becomes 0.
pub fn cleared_word_unlinks()
    ensures { ClearedWordUnlinks }
{}

/// Where no number changes, each place names what it named.
pub fn places_stay()
    ensures { PlacesStay }
{}

/// Where no number changes, the rules hold that are of numbers.
pub fn numbers_keep()
    ensures { NumbersKeep }
{}

/// A write to a page's zone changes no number.
pub fn write_keeps_numbers()
    ensures { WriteKeepsNumbers }
{}

/// A write to a page's zone changes the bytes of that page, up to the file's end.
pub fn written_file()
    ensures { WrittenFile }
{}

/// A write to a page's zone changes no other file.
pub fn write_keeps_files()
    ensures { WriteKeepsFiles }
{}

/// A write to a page's zone keeps the rules.
pub fn write_keeps()
    ensures { WriteKeeps }
{}

/// Where an inode's size changes and no number, each byte below both sizes stays, and those past the old one are 0 where the
/// zones hold zeros there.
pub fn resized_file()
    ensures { ResizedFile }
{}

/// Such a change keeps the rules, where each held page begins below the new size.
pub fn resize_keeps()
    ensures { ResizeKeeps }
{}

/// A page that comes to be held takes as many zones as there are holes on the way to it.
pub fn page_takes_missing()
    ensures { PageTakesMissing }
{}

/// A place of an inode that has a zone is attached.
pub fn attached_inner()
    ensures { AttachedInner }
{}

/// A zone that is linked at a place of an inode attaches that place.
pub fn attaches_inner()
    ensures { AttachesInner }
{}

/// A place of an attached block that has a zone is attached.
pub fn attached_outer()
    ensures { AttachedOuter }
{}

/// A zone that is linked at a place of an attached block attaches that place.
pub fn attaches_outer()
    ensures { AttachesOuter }
{}

/// A zone that is let go at a place of an inode detaches that place.
pub fn detaches_inner()
    ensures { DetachesInner }
{}

/// So does one at a place of a block that has another number.
pub fn detaches_outer()
    ensures { DetachesOuter }
{}

/// Where the block has none, it is let go too.
pub fn detaches_on()
    ensures { DetachesOn }
{}

/// The rules that hold between the two: the block above is let off.
pub fn unlinked_above()
    ensures { UnlinkedAbove }
{}

/// The nodes after a page was attached: the file holds the page.
pub fn attached_nodes()
    ensures { AttachedNodes }
{}

/// The nodes after a page was detached: the page is a hole.
pub fn detached_nodes()
    ensures { DetachedNodes }
{}

/// The nodes of a sound volume take as many zones as the zone map marks.
pub fn nodes_take_marked()
    ensures { NodesTakeMarked }
{}

/// Where the nodes fit in which a file holds some more pages, each of these pages has room on the way there.
pub fn page_has_room()
    ensures { PageHasRoom }
{}

/// To write a file's bytes within one page is to grow it, to hold the page, and to replace bytes of the page.
pub fn chunk_is_written()
    ensures { ChunkIsWritten }
{}

/// Where one inode's attributes and file change and no other's, the nodes change at that number.
pub fn nodes_change_with()
    ensures { NodesChangeWith }
{}

/// Two writes in a row, the second where the first ends, are one.
pub fn writes_join()
    ensures { WritesJoin }
{}

/// Where an inode without zones is marked or freed, the rules hold.
pub fn change_keeps()
    ensures { ChangeKeeps }
{}

/// And the nodes change at that number.
pub fn changed_nodes()
    ensures { ChangedNodes }
{}

/// An inode whose ten numbers are 0 has no zone at any place.
pub fn no_slots_no_places()
    ensures { NoSlotsNoPlaces }
{}

/// Where four bytes of an indirect block change, one of its numbers does.
pub fn four_bytes()
    ensures { FourBytes }
{}
