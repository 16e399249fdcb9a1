//! Names: made, linked, taken away and moved.

/// The plays.
pub(crate) const PLAYS: &str = "volume 1024 64
# A second name.
user 0 0
100 open /f wc 644 -> fd 0
100 mkdir /d 755 -> ok
100 link n /g -> EINVAL
# both paths are read before the first is walked
100 link /n g -> EINVAL
100 link /n /g -> ENOENT
100 link /n /f -> ENOENT
100 link /d /n/g -> EPERM
100 link /f /n/g -> ENOENT
100 link /f /f/g -> ENOTDIR
100 link /f /d -> EEXIST
100 link /f / -> EEXIST
100 link /f /d/.. -> EEXIST
110 link /f /d/g -> ok
120 stat /d/g -> inode 2 mode 0100644 links 2 uid 0 gid 0 size 0 times 100 100 110
120 stat /d -> inode 3 mode 0040755 links 2 uid 0 gid 0 size 192 times 100 110 110
user 5 7
100 link /f /d/g -> EEXIST
100 link /f /h -> EACCES
100 link /d /h -> EPERM

volume 1024 64
# A name goes; the node goes with its last name, or, where it is open, with its last descriptor.
user 0 0
100 open /f rwc 644 -> fd 0
100 link /f /g -> ok
100 mkdir /d 755 -> ok
100 unlink f -> EINVAL
100 unlink / -> EINVAL
100 unlink /n/. -> EINVAL
100 unlink /n/f -> ENOENT
100 unlink /f/x -> ENOTDIR
100 unlink /n -> ENOENT
100 unlink /d -> EPERM
110 unlink /g -> ok
120 stat /f -> inode 2 mode 0100644 links 1 uid 0 gid 0 size 0 times 100 100 110
120 fill 0 3 61 -> wrote 3
130 unlink /f -> ok
140 fstat 0 -> inode 2 mode 0100644 links 0 uid 0 gid 0 size 3 times 100 120 130
140 statfs -> block 1024 zones 58 free 55 inodes 32 free 29
140 write 0 62 -> wrote 1
140 seek 0 set 0 -> at 0
140 read 0 9 -> bytes 61616162
140 close 0 -> ok
140 statfs -> block 1024 zones 58 free 56 inodes 32 free 30
140 open /k wc 600 -> fd 0
user 5 7
100 unlink /n -> ENOENT
100 unlink /k -> EACCES
100 unlink /d -> EACCES

volume 1024 64
# Directories.
user 0 0
100 mkdir /n/x 1000 -> EINVAL
100 mkdir /n/x 755 -> ENOENT
100 mkdir / 755 -> EEXIST
100 mkdir /d 755 -> ok
100 mkdir /d 755 -> EEXIST
100 mkdir /d/. 755 -> EEXIST
110 mkdir /d/e 700 -> ok
120 stat /d -> inode 2 mode 0040755 links 3 uid 0 gid 0 size 192 times 100 110 110
120 open /f wc 644 -> fd 0
120 mkdir /f/x 755 -> ENOTDIR
120 rmdir / -> EINVAL
120 rmdir /n/.. -> EINVAL
120 rmdir /n -> ENOENT
120 rmdir /f -> ENOTDIR
120 open /d r 0 -> fd 1
# it isn't empty, and it is open
120 rmdir /d -> ENOTEMPTY
130 rmdir /d/e -> ok
140 stat /d -> inode 2 mode 0040755 links 2 uid 0 gid 0 size 128 times 100 130 130
140 rmdir /d -> EBUSY
140 close 1 -> ok
140 rmdir /d -> ok
150 stat / -> inode 1 mode 0040755 links 2 uid 0 gid 0 size 192 times 50 140 140
150 mkdir /d 755 -> ok
150 mkdir /d/e 755 -> ok
user 5 7
100 mkdir /x 1000 -> EINVAL
100 mkdir /d 755 -> EEXIST
100 mkdir /x 755 -> EACCES
100 rmdir /n -> ENOENT
100 rmdir /f -> EACCES
100 rmdir /d -> EACCES

volume 1024 64
# Renames that are refused, in their order.
user 0 0
100 mkdir /d 755 -> ok
100 mkdir /d/e 755 -> ok
100 mkdir /g 755 -> ok
100 mkdir /g/h 755 -> ok
100 open /f wc 644 -> fd 0
100 rename /n x -> EINVAL
100 rename / /x -> EINVAL
100 rename /n /d/. -> EINVAL
100 rename /n /q/x -> ENOENT
100 rename /f/a /n/x -> ENOTDIR
100 rename /f /n/x -> ENOENT
100 rename /f /f/x -> ENOTDIR
110 rename /f /f -> ok
110 rename /d /d/e/x -> EINVAL
110 rename /d /d/x -> EINVAL
110 rename /d /d/e -> EINVAL
110 rename /d /f -> ENOTDIR
110 rename /f /d -> EISDIR
110 rename /d /g -> ENOTEMPTY
110 rmdir /g/h -> ok
110 open /g r 0 -> fd 1
120 rename /d /g -> EBUSY
120 stat /f -> inode 6 mode 0100644 links 1 uid 0 gid 0 size 0 times 100 100 100
user 5 7
100 rename /n /g/x -> ENOENT
100 rename /f /n/x -> ENOENT
100 rename /f /f -> EACCES
100 rename /d /d/x -> EACCES

volume 1024 64
# Renames that are done.
user 0 0
100 mkdir /d 755 -> ok
100 mkdir /d/e 755 -> ok
100 mkdir /g 755 -> ok
# a directory takes the name of an empty one, and its parent loses a subdirectory
110 rename /d /g -> ok
120 stat / -> inode 1 mode 0040755 links 3 uid 0 gid 0 size 192 times 50 110 110
120 stat /g -> inode 2 mode 0040755 links 3 uid 0 gid 0 size 192 times 100 100 110
# and moves to another, which is its `..` then
120 mkdir /k 700 -> ok
130 rename /g/e /k/m -> ok
140 stat /k/m/.. -> inode 4 mode 0040700 links 3 uid 0 gid 0 size 192 times 120 130 130
140 stat /g -> inode 2 mode 0040755 links 2 uid 0 gid 0 size 128 times 100 130 130
# a file takes the name of an open one, which lives on
140 open /a wc 644 -> fd 0
140 open /b rwc 644 -> fd 1
140 fill 1 2 62 -> wrote 2
150 rename /a /b -> ok
160 fstat 1 -> inode 6 mode 0100644 links 0 uid 0 gid 0 size 2 times 140 140 150
160 stat /b -> inode 5 mode 0100644 links 1 uid 0 gid 0 size 0 times 140 140 150
160 stat /a -> ENOENT
160 seek 1 set 1 -> at 1
160 read 1 9 -> bytes 62
160 close 1 -> ok
# two names of one inode: nothing changes
160 link /b /c -> ok
170 rename /b /c -> ok
180 stat /b -> inode 5 mode 0100644 links 2 uid 0 gid 0 size 0 times 140 140 160
# within one directory the name's place stays
180 rename /b /z -> ok
190 open / r 0 -> fd 1
190 readdir 1 -> names 4 63:5 67:2 6b:4 7a:5
";
