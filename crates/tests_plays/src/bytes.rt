//! Bytes and sizes of an empty file `/f`, inode 2 of user 5 and group 7 with permissions 644, made at 50. A zone of 1024 bytes holds 256
//! numbers, so pages 0 to 6 are direct, and page 7 takes an indirect block. The free zones have other bytes: a file `/z` was there before.

/// The plays.
pub(crate) const PLAYS: &str = "volume 1024 64
# Zones 7 to 13, which `/z` had, are full of 0x5a.
user 0 0
50 open /z rwc 600 -> fd 0
50 fill 0 57344 5a -> wrote 57344
50 unlink /z -> ok
50 close 0 -> ok
50 open /f wc 644 -> fd 0
50 chown /f 5 7 -> ok
50 stat /f -> inode 2 mode 0100644 links 1 uid 5 gid 7 size 0 times 50 50 50
user 0 0
left 3072 03
left 4160 a48101000500070000000000320000003200000032
left 6272 020000006600
left 7168 5a5a5a5a5a5a5a5a5a5a5a5a5a5a5a5a
left 8192 5a5a5a5a5a5a5a5a5a5a5a5a5a5a5a5a
left 9216 5a5a5a5a5a5a5a5a5a5a5a5a5a5a5a5a
left 14320 5a5a5a5a5a5a5a5a5a5a5a5a5a5a5a5a

volume 1024 64
# A write over the end of the direct pages.
user 0 0
50 open /z rwc 600 -> fd 0
50 fill 0 57344 5a -> wrote 57344
50 unlink /z -> ok
50 close 0 -> ok
50 open /f wc 644 -> fd 0
50 chown /f 5 7 -> ok
user 5 7
60 statfs -> block 1024 zones 58 free 57 inodes 32 free 30
60 open /f w 0 -> fd 0
60 seek 0 set 7166 -> at 7166
60 write 0 7778797a -> wrote 4
# pages 6 and 7, and the block of numbers
60 statfs -> block 1024 zones 58 free 54 inodes 32 free 30
60 open /f r 0 -> fd 1
60 seek 1 set 7164 -> at 7164
60 read 1 6 -> bytes 00007778797a
60 seek 0 cur 0 -> at 7170
60 fstat 0 -> inode 2 mode 0100644 links 1 uid 5 gid 7 size 7170 times 50 60 60

volume 1024 64
# A write at the place of a descriptor, and one at the end of the file.
user 0 0
50 open /z rwc 600 -> fd 0
50 fill 0 57344 5a -> wrote 57344
50 unlink /z -> ok
50 close 0 -> ok
50 open /f wc 644 -> fd 0
50 chown /f 5 7 -> ok
user 5 7
60 open /f w 0 -> fd 0
60 open /f wa 0 -> fd 1
60 seek 1 set 1 -> at 1
60 write 0 616263 -> wrote 3
61 write 1 6465 -> wrote 2
61 open /f r 0 -> fd 2
61 read 2 5 -> bytes 6162636465
61 seek 0 cur 0 -> at 3
61 seek 1 cur 0 -> at 5

volume 1024 64
# Writes that are refused, in their order, and one of no bytes: no byte changes.
user 0 0
50 open /z rwc 600 -> fd 0
50 fill 0 57344 5a -> wrote 57344
50 unlink /z -> ok
50 close 0 -> ok
50 open /f wc 644 -> fd 0
50 chown /f 5 7 -> ok
unchanged
user 5 7
60 open /f r 0 -> fd 0
60 open /f w 0 -> fd 1
60 seek 1 set 2147483647 -> at 2147483647
60 write 2 - -> EBADF
60 fill 0 65537 00 -> EBADF
60 fill 1 65537 00 -> EINVAL
60 write 1 61 -> EFBIG
60 write 0 - -> EBADF
60 write 1 - -> wrote 0

volume 1024 64
# Sizes down and up, by the owner and by user 0.
user 0 0
50 open /z rwc 600 -> fd 0
50 fill 0 57344 5a -> wrote 57344
50 unlink /z -> ok
50 close 0 -> ok
50 open /f wc 644 -> fd 0
50 chown /f 5 7 -> ok
user 5 9
60 open /f w 0 -> fd 0
60 write 0 616263 -> wrote 3
70 truncate /f 1 -> ok
user 0 9
71 truncate /f 3 -> ok
71 open /f r 0 -> fd 0
71 read 0 3 -> bytes 610000
71 statfs -> block 1024 zones 58 free 56 inodes 32 free 30
user 5 9
# the second page is a hole
72 truncate /f 2048 -> ok
72 statfs -> block 1024 zones 58 free 56 inodes 32 free 30
72 stat /f -> inode 2 mode 0100644 links 1 uid 5 gid 7 size 2048 times 50 72 72
73 truncate /f 0 -> ok
73 statfs -> block 1024 zones 58 free 57 inodes 32 free 30

volume 1024 64
# The position stays when the size changes.
user 0 0
50 open /z rwc 600 -> fd 0
50 fill 0 57344 5a -> wrote 57344
50 unlink /z -> ok
50 close 0 -> ok
50 open /f wc 644 -> fd 0
50 chown /f 5 7 -> ok
user 5 9
60 open /f w 0 -> fd 0
60 write 0 616263 -> wrote 3
70 truncate /f 1 -> ok
71 truncate /f 3 -> ok
72 truncate /f 2048 -> ok
73 truncate /f 0 -> ok
73 seek 0 cur 0 -> at 3

volume 1024 64
# Sizes that are refused, in their order: no byte changes.
user 0 0
50 open /z rwc 600 -> fd 0
50 fill 0 57344 5a -> wrote 57344
50 unlink /z -> ok
50 close 0 -> ok
50 open /f wc 644 -> fd 0
50 chown /f 5 7 -> ok
unchanged
user 6 9
60 truncate /x 2147483648 -> EFBIG
60 truncate /x 2147483647 -> ENOENT
60 truncate / 0 -> EISDIR
user 0 9
60 truncate /. 0 -> EISDIR
user 6 9
60 truncate /f 0 -> EACCES

volume 1024 10
# Of ten blocks three are free for bytes, and then two, which a write would need three of: no byte changes.
user 0 0
50 open /z rwc 600 -> fd 0
50 fill 0 3072 5a -> wrote 3072
50 unlink /z -> ok
50 close 0 -> ok
50 open /f wc 644 -> fd 0
50 chown /f 5 7 -> ok
50 statfs -> block 1024 zones 4 free 3 inodes 32 free 30
user 5 7
60 open /f w 0 -> fd 0
60 open /f w 0 -> fd 1
60 seek 1 set 7166 -> at 7166
60 write 0 6162 -> wrote 2
60 statfs -> block 1024 zones 4 free 2 inodes 32 free 30
unchanged
70 write 1 7778797a -> ENOSPC
70 seek 1 cur 0 -> at 7166
70 statfs -> block 1024 zones 4 free 2 inodes 32 free 30

volume 1024 10
# The first of the two pages alone has room.
user 0 0
50 open /z rwc 600 -> fd 0
50 fill 0 3072 5a -> wrote 3072
50 unlink /z -> ok
50 close 0 -> ok
50 open /f wc 644 -> fd 0
50 chown /f 5 7 -> ok
user 5 7
60 open /f w 0 -> fd 0
60 open /f w 0 -> fd 1
60 seek 1 set 7166 -> at 7166
60 write 0 6162 -> wrote 2
70 write 1 7778797a -> ENOSPC
70 seek 1 cur 0 -> at 7166
70 write 1 7778 -> wrote 2
70 statfs -> block 1024 zones 4 free 1 inodes 32 free 30

volume 1024 64
# Names in their order, seeks, and a file without a name that goes with its last descriptor, on a volume with the files `/f` of 5 bytes
# and `/b`.
user 0 0
0 open /f wc 644 -> fd 0
0 chown /f 5 7 -> ok
0 truncate /f 5 -> ok
0 open /b wc 644 -> fd 1
0 chown /b 5 7 -> ok
0 utime / 0 0 -> ok
user 0 0
60 open / r 0 -> fd 0
60 open /f r 0 -> fd 1
60 readdir 0 -> names 2 62:3 66:2
60 readdir 1 -> ENOTDIR
60 readdir 2 -> EBADF
user 0 0
60 open /f r 0 -> fd 0
60 seek 0 end -2 -> at 3
60 seek 0 cur -4 -> EINVAL
60 seek 0 cur -3 -> at 0
60 seek 0 set 2147483648 -> EINVAL
60 seek 0 set 2147483647 -> at 2147483647
60 seek 0 end 9223372036854775807 -> EINVAL
user 0 0
60 statfs -> block 1024 zones 58 free 57 inodes 32 free 29
60 open /f r 0 -> fd 0
60 dup 0 -> fd 1
60 unlink /f -> ok
60 close 0 -> ok
60 statfs -> block 1024 zones 58 free 57 inodes 32 free 29
60 close 1 -> ok
60 statfs -> block 1024 zones 58 free 57 inodes 32 free 30
60 close 1 -> EBADF
";
