//! Renames where `/f` and `/l` are inode 2, of 5 bytes without a zone, `/g` is inode 3, `/d` inode 4 in zone 7, `/e` inode 5 in zone 8, and
//! `/d/x` inode 6. The maps begin at bytes 2048 and 3072, the inode table at 4096, the root's zone at 6144. All times are 0.

/// The plays.
pub(crate) const PLAYS: &str = "volume 1024 64
# What is made.
user 0 0
0 open /f wc 644 -> fd 0
0 truncate /f 5 -> ok
0 open /g wc 644 -> fd 1
0 mkdir /d 755 -> ok
0 mkdir /e 755 -> ok
0 link /f /l -> ok
0 open /d/x wc 644 -> fd 2
0 utime / 0 0 -> ok
left 2048 7f
left 3072 0f
left 4096 ed4104
left 4120 06
left 4160 a48102000000000005
left 4288 ed41020000000000c0
left 4312 07
left 4352 ed4102000000000080
left 4376 08
left 4416 a48101
left 4104 c001
left 4224 a48101
left 6144 010000002e
left 6208 010000002e2e
left 6272 0200000066
left 6336 0300000067
left 6400 0400000064
left 6464 0500000065
left 6528 020000006c
left 7168 040000002e
left 7232 010000002e2e
left 7296 0600000078
left 8192 050000002e
left 8256 010000002e2e

volume 1024 64
# Refusals change no byte.
user 0 0
0 open /f wc 644 -> fd 0
0 truncate /f 5 -> ok
0 open /g wc 644 -> fd 1
0 mkdir /d 755 -> ok
0 mkdir /e 755 -> ok
0 link /f /l -> ok
0 open /d/x wc 644 -> fd 2
0 utime / 0 0 -> ok
unchanged
user 0 0
60 open /e r 0 -> fd 0
60 rename /f /d -> EISDIR
60 rename /d /f -> ENOTDIR
60 rename /e /d -> ENOTEMPTY
60 rename /d /e -> EBUSY
60 rename /d /d/y -> EINVAL
60 rename /d /d/x -> EINVAL
60 rename /h /f -> ENOENT
60 rename /f /h/f -> ENOENT
60 rename /f /e/.. -> EINVAL

volume 1024 64
# Names of one inode stay, and so does each byte.
user 0 0
0 open /f wc 644 -> fd 0
0 truncate /f 5 -> ok
0 open /g wc 644 -> fd 1
0 mkdir /d 755 -> ok
0 mkdir /e 755 -> ok
0 link /f /l -> ok
0 open /d/x wc 644 -> fd 2
0 utime / 0 0 -> ok
unchanged
user 0 0
60 rename /f /l -> ok
60 rename /l /f -> ok
60 rename /g /g -> ok
60 rename /d /d -> ok

volume 1024 64
# Over a file, over one that is open, and from one of two names.
user 0 0
0 open /f wc 644 -> fd 0
0 truncate /f 5 -> ok
0 open /g wc 644 -> fd 1
0 mkdir /d 755 -> ok
0 mkdir /e 755 -> ok
0 link /f /l -> ok
0 open /d/x wc 644 -> fd 2
0 utime / 0 0 -> ok
user 0 0
60 statfs -> block 1024 zones 58 free 55 inodes 32 free 26
60 rename /f /g -> ok
60 stat /g -> inode 2 mode 0100644 links 2 uid 0 gid 0 size 5 times 0 0 60
60 stat /f -> ENOENT
60 statfs -> block 1024 zones 58 free 55 inodes 32 free 27
# one that is open lives on, and one that has another name
60 open /d/x r 0 -> fd 0
60 rename /g /d/x -> ok
60 stat /d/x -> inode 2 mode 0100644 links 2 uid 0 gid 0 size 5 times 0 0 60
60 statfs -> block 1024 zones 58 free 55 inodes 32 free 27

volume 1024 64
# A file loses one of its names.
user 0 0
0 open /f wc 644 -> fd 0
0 truncate /f 5 -> ok
0 open /g wc 644 -> fd 1
0 mkdir /d 755 -> ok
0 mkdir /e 755 -> ok
0 link /f /l -> ok
0 open /d/x wc 644 -> fd 2
0 utime / 0 0 -> ok
user 0 0
60 rename /g /f -> ok
60 stat /f -> inode 3 mode 0100644 links 1 uid 0 gid 0 size 0 times 0 0 60
60 stat /l -> inode 2 mode 0100644 links 1 uid 0 gid 0 size 5 times 0 0 60
60 statfs -> block 1024 zones 58 free 55 inodes 32 free 26

volume 1024 64
# A directory has its new parent.
user 0 0
0 open /f wc 644 -> fd 0
0 truncate /f 5 -> ok
0 open /g wc 644 -> fd 1
0 mkdir /d 755 -> ok
0 mkdir /e 755 -> ok
0 link /f /l -> ok
0 open /d/x wc 644 -> fd 2
0 utime / 0 0 -> ok
user 0 0
60 stat / -> inode 1 mode 0040755 links 4 uid 0 gid 0 size 448 times 0 0 0
60 rename /d /e/k -> ok
60 stat /e/k -> inode 4 mode 0040755 links 2 uid 0 gid 0 size 192 times 0 0 60
60 stat /e/k/.. -> inode 5 mode 0040755 links 3 uid 0 gid 0 size 192 times 0 60 60
60 stat /e/k/x -> inode 6 mode 0100644 links 1 uid 0 gid 0 size 0 times 0 0 0
60 stat / -> inode 1 mode 0040755 links 3 uid 0 gid 0 size 384 times 0 60 60
60 stat /d -> ENOENT

volume 1024 64
# Over an empty directory.
user 0 0
0 open /f wc 644 -> fd 0
0 truncate /f 5 -> ok
0 open /g wc 644 -> fd 1
0 mkdir /d 755 -> ok
0 mkdir /e 755 -> ok
0 link /f /l -> ok
0 open /d/x wc 644 -> fd 2
0 utime / 0 0 -> ok
user 0 0
60 rename /d /e -> ok
60 stat /e -> inode 4 mode 0040755 links 2 uid 0 gid 0 size 192 times 0 0 60
60 stat /e/x -> inode 6 mode 0100644 links 1 uid 0 gid 0 size 0 times 0 0 0
60 stat / -> inode 1 mode 0040755 links 3 uid 0 gid 0 size 384 times 0 60 60
60 statfs -> block 1024 zones 58 free 56 inodes 32 free 27

volume 1024 9
# On nine blocks, with nine names more of `/g`, the root's 16 entries fill its zone, and no zone is free: what is refused changes no byte.
user 0 0
0 open /f wc 644 -> fd 0
0 truncate /f 5 -> ok
0 open /g wc 644 -> fd 1
0 mkdir /d 755 -> ok
0 mkdir /e 755 -> ok
0 link /f /l -> ok
0 open /d/x wc 644 -> fd 2
0 link /g /0 -> ok
0 link /g /1 -> ok
0 link /g /2 -> ok
0 link /g /3 -> ok
0 link /g /4 -> ok
0 link /g /5 -> ok
0 link /g /6 -> ok
0 link /g /7 -> ok
0 link /g /8 -> ok
0 utime / 0 0 -> ok
0 statfs -> block 1024 zones 3 free 0 inodes 32 free 26
unchanged
user 0 0
60 rename /d/x /y -> ENOSPC
left 2048 7f
left 4096 ed4104
left 4120 06
left 4160 a48102000000000005
left 4288 ed41020000000000c0
left 4312 07
left 4352 ed4102000000000080
left 4376 08
left 4416 a48101
left 4104 0004
left 4224 a4810a
left 6144 010000002e
left 6208 010000002e2e
left 6272 0200000066
left 6336 0300000067
left 6400 0400000064
left 6464 0500000065
left 6528 020000006c
left 7168 040000002e
left 7232 010000002e2e
left 7296 0600000078
left 8192 050000002e
left 8256 010000002e2e
left 6592 0300000030
left 6656 0300000031
left 6720 0300000032
left 6784 0300000033
left 6848 0300000034
left 6912 0300000035
left 6976 0300000036
left 7040 0300000037
left 7104 0300000038

volume 1024 9
# The same volume: within a directory, over a name, and to where the last zone has room.
user 0 0
0 open /f wc 644 -> fd 0
0 truncate /f 5 -> ok
0 open /g wc 644 -> fd 1
0 mkdir /d 755 -> ok
0 mkdir /e 755 -> ok
0 link /f /l -> ok
0 open /d/x wc 644 -> fd 2
0 link /g /0 -> ok
0 link /g /1 -> ok
0 link /g /2 -> ok
0 link /g /3 -> ok
0 link /g /4 -> ok
0 link /g /5 -> ok
0 link /g /6 -> ok
0 link /g /7 -> ok
0 link /g /8 -> ok
0 utime / 0 0 -> ok
user 0 0
60 rename /d/x /y -> ENOSPC
60 rename /f /y -> ok
60 rename /d/x /y -> ok
60 rename /l /e/l -> ok
60 stat /y -> inode 6 mode 0100644 links 1 uid 0 gid 0 size 0 times 0 0 60
60 stat /e/l -> inode 2 mode 0100644 links 1 uid 0 gid 0 size 5 times 0 0 60
";
