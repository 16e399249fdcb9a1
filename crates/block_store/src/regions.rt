//! What a write to one block of a volume changes, each law a function whose contract is the law: the piece in whose region the
//! block lies, and no other. A volume has four regions: the inode map, the zone map, the inode table and the data zones.

ghost use Rattle.block_store.specs.Regions.{InodeMapAlone, ZoneMapAlone, TableAlone, ZoneAlone};

/// A write to a block of the inode map changes the inode map alone.
pub fn inode_map_alone()
    ensures { InodeMapAlone }
{}

/// A write to a block of the zone map changes the zone map alone.
pub fn zone_map_alone()
    ensures { ZoneMapAlone }
{}

/// A write to a block of the inode table changes the inodes alone.
pub fn table_alone()
    ensures { TableAlone }
{}

/// A write to a data zone changes that zone alone.
pub fn zone_alone()
    ensures { ZoneAlone }
{}
