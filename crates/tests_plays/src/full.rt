//! Volumes are filled to their last inode and their last zone, and emptied again.

/// The plays.
pub(crate) const PLAYS: &str = "volume 1024 64
# 31 directories take all inodes, a zone each, and two more of the root; then a file takes the place of the last of them, and all zones.
user 0 0
100 mkdir /1 755 -> ok
100 mkdir /2 755 -> ok
100 mkdir /3 755 -> ok
100 mkdir /4 755 -> ok
100 mkdir /5 755 -> ok
100 mkdir /6 755 -> ok
100 mkdir /7 755 -> ok
100 mkdir /8 755 -> ok
100 mkdir /9 755 -> ok
100 mkdir /10 755 -> ok
100 mkdir /11 755 -> ok
100 mkdir /12 755 -> ok
100 mkdir /13 755 -> ok
100 mkdir /14 755 -> ok
100 mkdir /15 755 -> ok
100 mkdir /16 755 -> ok
100 mkdir /17 755 -> ok
100 mkdir /18 755 -> ok
100 mkdir /19 755 -> ok
100 mkdir /20 755 -> ok
100 mkdir /21 755 -> ok
100 mkdir /22 755 -> ok
100 mkdir /23 755 -> ok
100 mkdir /24 755 -> ok
100 mkdir /25 755 -> ok
100 mkdir /26 755 -> ok
100 mkdir /27 755 -> ok
100 mkdir /28 755 -> ok
100 mkdir /29 755 -> ok
100 mkdir /30 755 -> ok
100 mkdir /31 755 -> ok
100 statfs -> block 1024 zones 58 free 24 inodes 32 free 0
100 mkdir /x 755 -> ENOSPC
100 open /x rwc 644 -> ENOSPC
100 rmdir /31 -> ok
100 statfs -> block 1024 zones 58 free 26 inodes 32 free 1
100 open /x rwc 644 -> fd 0
100 fill 0 24577 61 -> ENOSPC
100 fill 0 24576 61 -> wrote 24576
100 statfs -> block 1024 zones 58 free 0 inodes 32 free 0
100 write 0 62 -> ENOSPC
100 seek 0 cur 0 -> at 24576
100 unlink /x -> ok
100 close 0 -> ok
100 rmdir /1 -> ok
100 rmdir /2 -> ok
100 rmdir /3 -> ok
100 rmdir /4 -> ok
100 rmdir /5 -> ok
100 rmdir /6 -> ok
100 rmdir /7 -> ok
100 rmdir /8 -> ok
100 rmdir /9 -> ok
100 rmdir /10 -> ok
100 rmdir /11 -> ok
100 rmdir /12 -> ok
100 rmdir /13 -> ok
100 rmdir /14 -> ok
100 rmdir /15 -> ok
100 rmdir /16 -> ok
100 rmdir /17 -> ok
100 rmdir /18 -> ok
100 rmdir /19 -> ok
100 rmdir /20 -> ok
100 rmdir /21 -> ok
100 rmdir /22 -> ok
100 rmdir /23 -> ok
100 rmdir /24 -> ok
100 rmdir /25 -> ok
100 rmdir /26 -> ok
100 rmdir /27 -> ok
100 rmdir /28 -> ok
100 rmdir /29 -> ok
100 rmdir /30 -> ok
100 statfs -> block 1024 zones 58 free 57 inodes 32 free 31

volume 1024 64
# 31 links take all inodes, a zone each, and two more of the root; a further name takes no inode.
user 0 0
100 symlink / /1 -> ok
100 symlink / /2 -> ok
100 symlink / /3 -> ok
100 symlink / /4 -> ok
100 symlink / /5 -> ok
100 symlink / /6 -> ok
100 symlink / /7 -> ok
100 symlink / /8 -> ok
100 symlink / /9 -> ok
100 symlink / /10 -> ok
100 symlink / /11 -> ok
100 symlink / /12 -> ok
100 symlink / /13 -> ok
100 symlink / /14 -> ok
100 symlink / /15 -> ok
100 symlink / /16 -> ok
100 symlink / /17 -> ok
100 symlink / /18 -> ok
100 symlink / /19 -> ok
100 symlink / /20 -> ok
100 symlink / /21 -> ok
100 symlink / /22 -> ok
100 symlink / /23 -> ok
100 symlink / /24 -> ok
100 symlink / /25 -> ok
100 symlink / /26 -> ok
100 symlink / /27 -> ok
100 symlink / /28 -> ok
100 symlink / /29 -> ok
100 symlink / /30 -> ok
100 symlink / /31 -> ok
100 statfs -> block 1024 zones 58 free 24 inodes 32 free 0
100 symlink / /32 -> ENOSPC
100 link /1 /32 -> ok
100 stat /32 -> inode 1 mode 0040755 links 2 uid 0 gid 0 size 2176 times 50 100 100
100 unlink /1 -> ok
100 statfs -> block 1024 zones 58 free 24 inodes 32 free 0
100 unlink /32 -> ok
100 statfs -> block 1024 zones 58 free 26 inodes 32 free 1
100 symlink a /33 -> ok
100 lstat /33 -> inode 2 mode 0120777 links 1 uid 0 gid 0 size 1 times 100 100 100
100 statfs -> block 1024 zones 58 free 24 inodes 32 free 0
";
