//! Attributes, sizes and the volume's numbers.

/// The plays.
pub(crate) const PLAYS: &str = "volume 1024 64
# Paths that stat refuses, by a user who may search each directory and by one who may not.
user 0 0
100 stat f -> EINVAL
100 stat /f -> ENOENT
100 open /f wc 604 -> fd 0
100 stat /f/. -> ENOTDIR
100 stat /f/x -> ENOTDIR
100 stat /n/.. -> ENOENT
100 mkdir /p 700 -> ok
100 mkdir /p/q 755 -> ok
100 stat /../p/./q/..// -> inode 3 mode 0040700 links 3 uid 0 gid 0 size 192 times 100 100 100
100 fstat 0 -> inode 2 mode 0100604 links 1 uid 0 gid 0 size 0 times 100 100 100
100 fstat 1 -> EBADF
user 5 7
100 stat /p -> inode 3 mode 0040700 links 3 uid 0 gid 0 size 192 times 100 100 100
100 stat /p/q -> EACCES
100 stat /p/n -> EACCES
100 stat /p/.. -> EACCES
100 stat /f/x -> ENOTDIR

volume 1024 64
# chmod, chown and utime: by user 0, by the owner, and by another user of the file's group.
user 0 0
100 chmod /n 1000 -> EINVAL
100 chmod /n 644 -> ENOENT
100 chown /n 5 7 -> ENOENT
100 utime /n 1 2 -> ENOENT
100 open /f wc 644 -> fd 0
110 chmod /f 604 -> ok
120 stat /f -> inode 2 mode 0100604 links 1 uid 0 gid 0 size 0 times 100 100 110
120 chown /f 5 7 -> ok
130 utime /f 1 4294967295 -> ok
140 stat /f -> inode 2 mode 0100604 links 1 uid 5 gid 7 size 0 times 1 4294967295 130
140 chmod / 700 -> ok
140 stat / -> inode 1 mode 0040700 links 2 uid 0 gid 0 size 192 times 50 100 140
140 chmod / 755 -> ok
user 5 0
150 chmod /f 666 -> ok
160 utime /f 3 4 -> ok
160 chown /f 5 0 -> EPERM
160 chmod / 777 -> EPERM
170 stat /f -> inode 2 mode 0100666 links 1 uid 5 gid 7 size 0 times 3 4 160
user 9 7
170 chmod /f 1000 -> EINVAL
170 chmod /f 600 -> EPERM
170 chown /f 9 7 -> EPERM
170 utime /f 0 0 -> EPERM
170 stat /f -> inode 2 mode 0100666 links 1 uid 5 gid 7 size 0 times 3 4 160

volume 1024 64
# Whose permissions are looked at: the owner's, the group's, the others'; user 0 has all.
user 0 0
100 open /f wc 640 -> fd 0
100 chown /f 5 7 -> ok
100 open /g wc 604 -> fd 1
100 chown /g 5 7 -> ok
100 open /h wc 0 -> fd 2
100 open /h rw 0 -> fd 3
user 5 9
100 open /f rw 0 -> fd 0
100 open /g rw 0 -> fd 1
100 open /h r 0 -> EACCES
user 9 7
100 open /f r 0 -> fd 0
100 open /f w 0 -> EACCES
100 open /g r 0 -> EACCES
user 9 8
100 open /f r 0 -> EACCES
100 open /g r 0 -> fd 0
100 open /g rw 0 -> EACCES
user 0 8
100 open /f rw 0 -> fd 0
100 open /g rw 0 -> fd 1

volume 1024 64
# Sizes up and down across the ranges of pages, and what they need of the volume.
user 0 0
100 statfs -> block 1024 zones 58 free 57 inodes 32 free 31
100 truncate /n 2147483648 -> EFBIG
100 truncate /n 0 -> ENOENT
100 truncate / 0 -> EISDIR
100 open /f rwc 644 -> fd 0
100 write 0 616263 -> wrote 3
110 truncate /f 1 -> ok
120 truncate /f 3 -> ok
130 seek 0 set 0 -> at 0
130 read 0 9 -> bytes 610000
130 fstat 0 -> inode 2 mode 0100644 links 1 uid 0 gid 0 size 3 times 100 120 120
130 statfs -> block 1024 zones 58 free 56 inodes 32 free 30
# growth is a hole
130 truncate /f 2147483647 -> ok
130 statfs -> block 1024 zones 58 free 56 inodes 32 free 30
# page 7 takes a block of numbers and itself
130 seek 0 set 7168 -> at 7168
130 write 0 62 -> wrote 1
130 statfs -> block 1024 zones 58 free 54 inodes 32 free 30
# page 263 two blocks more
130 seek 0 set 269312 -> at 269312
130 write 0 63 -> wrote 1
130 statfs -> block 1024 zones 58 free 51 inodes 32 free 30
# page 65799 three more
130 seek 0 set 67378176 -> at 67378176
130 write 0 64 -> wrote 1
130 statfs -> block 1024 zones 58 free 47 inodes 32 free 30
130 truncate /f 67378176 -> ok
130 statfs -> block 1024 zones 58 free 51 inodes 32 free 30
130 truncate /f 269312 -> ok
130 statfs -> block 1024 zones 58 free 54 inodes 32 free 30
130 truncate /f 7168 -> ok
130 statfs -> block 1024 zones 58 free 56 inodes 32 free 30
130 truncate /f 0 -> ok
130 statfs -> block 1024 zones 58 free 57 inodes 32 free 30
130 sync -> ok
user 5 7
100 truncate /f 2147483648 -> EFBIG
100 truncate / 0 -> EISDIR
100 truncate /f 0 -> EACCES
";
