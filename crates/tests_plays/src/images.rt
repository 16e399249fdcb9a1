//! The image that a play leaves. The root's inode stands at byte 4096, its zone, block 6, at 6144; entry 2 there is the first behind those
//! of `.` and `..`.

/// The plays.
pub(crate) const PLAYS: &str = "volume 1024 64
# 16 entries fill the root's zone: fourteen names beside `.` and `..`. The fifteenth name takes a zone, and gives it back when its entry
# takes the place of the first name, in entry 2. The root's size stands at byte 4104, its zones from 4120 on, the zone map at 3072.
user 0 0
60 open /n01 rwc 644 -> fd 0
60 close 0 -> ok
60 open /n02 rwc 644 -> fd 0
60 close 0 -> ok
60 open /n03 rwc 644 -> fd 0
60 close 0 -> ok
60 open /n04 rwc 644 -> fd 0
60 close 0 -> ok
60 open /n05 rwc 644 -> fd 0
60 close 0 -> ok
60 open /n06 rwc 644 -> fd 0
60 close 0 -> ok
60 open /n07 rwc 644 -> fd 0
60 close 0 -> ok
60 open /n08 rwc 644 -> fd 0
60 close 0 -> ok
60 open /n09 rwc 644 -> fd 0
60 close 0 -> ok
60 open /n10 rwc 644 -> fd 0
60 close 0 -> ok
60 open /n11 rwc 644 -> fd 0
60 close 0 -> ok
60 open /n12 rwc 644 -> fd 0
60 close 0 -> ok
60 open /n13 rwc 644 -> fd 0
60 close 0 -> ok
60 open /n14 rwc 644 -> fd 0
60 close 0 -> ok
61 stat / -> inode 1 mode 0040755 links 2 uid 0 gid 0 size 1024 times 50 60 60
61 statfs -> block 1024 zones 58 free 57 inodes 32 free 17
60 open /n15 rwc 644 -> fd 0
60 close 0 -> ok
61 stat / -> inode 1 mode 0040755 links 2 uid 0 gid 0 size 1088 times 50 60 60
61 statfs -> block 1024 zones 58 free 56 inodes 32 free 16
70 unlink /n01 -> ok
71 stat / -> inode 1 mode 0040755 links 2 uid 0 gid 0 size 1024 times 50 70 70
71 statfs -> block 1024 zones 58 free 57 inodes 32 free 17
left 6272 100000006e313500
left 6336 030000006e303200
left 7104 0f0000006e313400
left 4104 00040000
left 4120 0600000000000000
left 3072 0300

volume 1024 64
# The 60 bytes of the longest name are in its entry; a longer one is refused.
user 0 0
60 open /aaaaaaaaaaaaaaaaaaaaaaaaaaaaaaaaaaaaaaaaaaaaaaaaaaaaaaaaaaaa rwc 644 -> fd 0
60 open /aaaaaaaaaaaaaaaaaaaaaaaaaaaaaaaaaaaaaaaaaaaaaaaaaaaaaaaaaaaaa rwc 644 -> ENAMETOOLONG
left 6272 02000000
left 6276 616161616161616161616161616161616161616161616161616161616161616161616161616161616161616161616161616161616161616161616161
left 6336 00

volume 1024 64
# What `FILLS` and `READS` do, in two sessions of one service.
user 0 0
100 mkdir /d 755 -> ok
100 open /d/f rwc 644 -> fd 0
100 write 0 68656c6c6f -> wrote 5
100 link /d/f /g -> ok
100 open /h wc 600 -> fd 1
100 fill 1 3000 ab -> wrote 3000
100 unlink /h -> ok
user 0 0
200 open /g r 0 -> fd 0
200 read 0 9 -> bytes 68656c6c6f
200 open /d r 0 -> fd 1
200 readdir 1 -> names 1 66:3
200 open / r 0 -> fd 2
200 readdir 2 -> names 2 64:2 67:3
200 statfs -> block 1024 zones 58 free 55 inodes 32 free 29
";

/// Fills a volume. What a script left is on the image, though it never asked for a sync.
pub(crate) const FILLS: &str = "user 0 0
100 mkdir /d 755 -> ok
100 open /d/f rwc 644 -> fd 0
100 write 0 68656c6c6f -> wrote 5
100 link /d/f /g -> ok
100 open /h wc 600 -> fd 1
100 fill 1 3000 ab -> wrote 3000
100 unlink /h -> ok
";

/// Reads it.
pub(crate) const READS: &str = "user 0 0
200 open /g r 0 -> fd 0
200 read 0 9 -> bytes 68656c6c6f
200 open /d r 0 -> fd 1
200 readdir 1 -> names 1 66:3
200 open / r 0 -> fd 2
200 readdir 2 -> names 2 64:2 67:3
200 statfs -> block 1024 zones 58 free 55 inodes 32 free 29
";
