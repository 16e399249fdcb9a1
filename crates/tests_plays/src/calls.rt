//! Scripts of all calls, each on a new volume of 64 blocks with 32 inodes: what its calls are answered.

/// One session each, and then several, of which each sees what the one before it wrote; at last the root and the numbers of each new
/// volume.
pub(crate) const PLAYS: &str = "volume 1024 64
# No call.
user 0 0

volume 1024 64
# A path holds any bytes but a space and a newline.
user 5 65535
100 stat /\r -> ENOENT
007 stat / -> inode 1 mode 0040755 links 2 uid 0 gid 0 size 128 times 50 50 50

volume 1024 64
# One byte far out takes its zone and three levels of numbers.
user 0 0
100 open /f rwc 644 -> fd 0
100 seek 0 set 67378176 -> at 67378176
100 fill 0 1 07 -> wrote 1
100 fstat 0 -> inode 2 mode 0100644 links 1 uid 0 gid 0 size 67378177 times 100 100 100
100 statfs -> block 1024 zones 58 free 53 inodes 32 free 30
100 truncate /f 67378176 -> ok
100 statfs -> block 1024 zones 58 free 57 inodes 32 free 30

volume 1024 64
# A file takes all zones: 56 pages and one block of numbers.
user 0 0
100 open /f rwc 644 -> fd 0
100 fill 0 57344 61 -> wrote 57344
100 statfs -> block 1024 zones 58 free 0 inodes 32 free 30
100 fill 0 1 61 -> ENOSPC
100 seek 0 cur 0 -> at 57344
100 seek 0 end 0 -> at 57344

volume 1024 64
# One page more doesn't fit, and is refused whole.
user 0 0
100 open /f rwc 644 -> fd 0
100 fill 0 58368 61 -> ENOSPC
100 seek 0 end 0 -> at 0
100 statfs -> block 1024 zones 58 free 57 inodes 32 free 30

volume 1024 64
# The longest name, and a longer one.
user 0 0
100 open /aaaaaaaaaaaaaaaaaaaaaaaaaaaaaaaaaaaaaaaaaaaaaaaaaaaaaaaaaaaa rwc 644 -> fd 0
100 open /aaaaaaaaaaaaaaaaaaaaaaaaaaaaaaaaaaaaaaaaaaaaaaaaaaaaaaaaaaaaa rwc 644 -> ENAMETOOLONG

volume 1024 64
# A file without a name lives while it is open.
user 0 0
100 open /f rwc 644 -> fd 0
100 fill 0 1 41 -> wrote 1
100 unlink /f -> ok
100 sync -> ok
100 seek 0 set 0 -> at 0
100 read 0 5 -> bytes 41
100 statfs -> block 1024 zones 58 free 56 inodes 32 free 30
100 close 0 -> ok
100 statfs -> block 1024 zones 58 free 57 inodes 32 free 31

volume 1024 64
# Renames of directories that are refused, and one that changes nothing.
user 0 0
100 mkdir /d 755 -> ok
100 mkdir /d/e 755 -> ok
100 mkdir /g 755 -> ok
100 mkdir /g/h 755 -> ok
200 rename /d /d/e/x -> EINVAL
200 rename /d /g -> ENOTEMPTY
200 rename /d /d -> ok
200 stat /d -> inode 2 mode 0040755 links 3 uid 0 gid 0 size 192 times 100 100 100
200 stat / -> inode 1 mode 0040755 links 4 uid 0 gid 0 size 256 times 50 100 100

volume 1024 64
# Directories are made and removed.
user 0 0
100 mkdir /d 755 -> ok
100 stat / -> inode 1 mode 0040755 links 3 uid 0 gid 0 size 192 times 50 100 100
100 stat /d/../d/. -> inode 2 mode 0040755 links 2 uid 0 gid 0 size 128 times 100 100 100
100 mkdir /d 755 -> EEXIST
100 mkdir /.. 755 -> EEXIST
100 rmdir /d/. -> EINVAL
100 mkdir /x/y 755 -> ENOENT
100 stat d -> EINVAL
100 rmdir /d -> ok
100 stat / -> inode 1 mode 0040755 links 2 uid 0 gid 0 size 128 times 50 100 100

volume 1024 64
# A directory is listed, in the order of the names' bytes.
user 0 0
100 mkdir /b 755 -> ok
100 mkdir /a 755 -> ok
100 open / r 0 -> fd 0
100 readdir 0 -> names 2 61:3 62:2
100 read 0 5 -> EISDIR
100 seek 0 set 0 -> EISDIR

volume 1024 64
# The last byte that a file can have.
user 0 0
100 open /f rwc 644 -> fd 0
100 seek 0 set 2147483646 -> at 2147483646
100 fill 0 1 07 -> wrote 1
100 fill 0 1 07 -> EFBIG
100 statfs -> block 1024 zones 58 free 53 inodes 32 free 30

volume 1024 64
# A second name, and attributes that are set.
user 0 0
100 open /f rwc 600 -> fd 0
100 write 0 6162 -> wrote 2
200 link /f /g -> ok
300 chmod /g 4 -> ok
300 chmod /f 604 -> ok
300 chown /f 5 7 -> ok
400 utime /g 11 12 -> ok
400 stat /f -> inode 2 mode 0100604 links 2 uid 5 gid 7 size 2 times 11 12 400
400 unlink /g -> ok
500 stat /g -> ENOENT
500 fstat 0 -> inode 2 mode 0100604 links 1 uid 5 gid 7 size 2 times 11 12 400

volume 1024 64
# A second descriptor has the position of the first; what is appended goes to the end; no bytes change nothing.
user 0 0
100 open /f rwac 644 -> fd 0
100 dup 0 -> fd 1
100 write 1 616263 -> wrote 3
100 seek 0 set 1 -> at 1
100 read 1 1 -> bytes 62
100 seek 1 set 0 -> at 0
100 write 0 64 -> wrote 1
200 write 0 - -> wrote 0
100 seek 0 set 0 -> at 0
100 read 0 9 -> bytes 61626364
100 read 0 9 -> bytes -
100 fstat 1 -> inode 2 mode 0100644 links 1 uid 0 gid 0 size 4 times 100 100 100
100 close 0 -> ok
100 close 0 -> EBADF

volume 1024 64
# A session has 32 descriptors, of which the lowest that is free is given: 33 opens, and one after a close.
user 0 0
100 open / r 0 -> fd 0
100 open / r 0 -> fd 1
100 open / r 0 -> fd 2
100 open / r 0 -> fd 3
100 open / r 0 -> fd 4
100 open / r 0 -> fd 5
100 open / r 0 -> fd 6
100 open / r 0 -> fd 7
100 open / r 0 -> fd 8
100 open / r 0 -> fd 9
100 open / r 0 -> fd 10
100 open / r 0 -> fd 11
100 open / r 0 -> fd 12
100 open / r 0 -> fd 13
100 open / r 0 -> fd 14
100 open / r 0 -> fd 15
100 open / r 0 -> fd 16
100 open / r 0 -> fd 17
100 open / r 0 -> fd 18
100 open / r 0 -> fd 19
100 open / r 0 -> fd 20
100 open / r 0 -> fd 21
100 open / r 0 -> fd 22
100 open / r 0 -> fd 23
100 open / r 0 -> fd 24
100 open / r 0 -> fd 25
100 open / r 0 -> fd 26
100 open / r 0 -> fd 27
100 open / r 0 -> fd 28
100 open / r 0 -> fd 29
100 open / r 0 -> fd 30
100 open / r 0 -> fd 31
100 open / r 0 -> EMFILE
100 close 5 -> ok
100 open / r 0 -> fd 5

volume 1024 64
# Whom a file's bits grant to read: its group isn't, others and user 0 are.
user 0 0
100 open /f rwc 604 -> fd 0
100 close 0 -> ok
100 chown /f 5 7 -> ok
user 9 7
100 open /f r 0 -> EACCES
user 9 8
100 open /f r 0 -> fd 0
user 0 0
100 open /f r 0 -> fd 0

volume 1024 64
# A session sees what the one before it wrote; its descriptors are its own.
user 0 0
100 open /f rwac 644 -> fd 0
100 write 0 6162 -> wrote 2
user 0 0
100 close 0 -> EBADF
100 open /f r 0 -> fd 0
100 read 0 9 -> bytes 6162

volume 1024 64
# What a session left open is closed before the next one calls.
user 0 0
100 open /f rwc 644 -> fd 0
100 write 0 41 -> wrote 1
100 dup 0 -> fd 1
100 unlink /f -> ok
100 statfs -> block 1024 zones 58 free 56 inodes 32 free 30
user 0 0
100 statfs -> block 1024 zones 58 free 57 inodes 32 free 31

volume 1024 64
# A new volume.
user 0 0
100 stat / -> inode 1 mode 0040755 links 2 uid 0 gid 0 size 128 times 50 50 50
100 statfs -> block 1024 zones 58 free 57 inodes 32 free 31

volume 2048 64
# A new volume.
user 0 0
100 stat / -> inode 1 mode 0040755 links 2 uid 0 gid 0 size 128 times 50 50 50
100 statfs -> block 2048 zones 59 free 58 inodes 32 free 31

volume 4096 64
# A new volume.
user 0 0
100 stat / -> inode 1 mode 0040755 links 2 uid 0 gid 0 size 128 times 50 50 50
100 statfs -> block 4096 zones 59 free 58 inodes 32 free 31
";
