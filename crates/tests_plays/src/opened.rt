//! Opens on a volume with a file `/f` of 5 bytes without a zone, inode 2 with permissions 640, and an empty directory `/d`, inode 3 with
//! permissions 755, both of user 5 and group 7 and made at 50; the root's times are 0.

/// The plays.
pub(crate) const PLAYS: &str = "volume 1024 64
# Who may open it: its owner, its group, others, user 0.
user 0 0
50 open /f wc 640 -> fd 0
50 chown /f 5 7 -> ok
50 truncate /f 5 -> ok
50 mkdir /d 755 -> ok
50 chown /d 5 7 -> ok
0 utime / 0 0 -> ok
user 5 9
60 open /f rw 0 -> fd 0
user 5 7
60 open /f w 0 -> fd 0
user 6 7
60 open /f r 0 -> fd 0
60 open /f w 0 -> EACCES
60 open /f rw 0 -> EACCES
user 6 9
60 open /f r 0 -> EACCES
user 6 5
60 open /f w 0 -> EACCES
user 0 9
60 open /f rw 0 -> fd 0
user 0 7
60 open /f wat 0 -> fd 0

volume 1024 64
# Files that are made, and found then.
user 0 0
50 open /f wc 640 -> fd 0
50 chown /f 5 7 -> ok
50 truncate /f 5 -> ok
50 mkdir /d 755 -> ok
50 chown /d 5 7 -> ok
0 utime / 0 0 -> ok
user 5 9
60 open /d/n wacx 604 -> fd 0
60 seek 0 cur 0 -> at 0
60 fstat 0 -> inode 4 mode 0100604 links 1 uid 5 gid 9 size 0 times 60 60 60
60 stat /d/n -> inode 4 mode 0100604 links 1 uid 5 gid 9 size 0 times 60 60 60
60 stat /d -> inode 3 mode 0040755 links 2 uid 5 gid 7 size 192 times 50 60 60
# now it is there
60 open /d/n rcx 604 -> EEXIST
user 6 8
60 open / r 0 -> fd 0
60 open /d/n rc 777 -> fd 1
60 seek 1 cur 0 -> at 0
60 fstat 1 -> inode 4 mode 0100604 links 1 uid 5 gid 9 size 0 times 60 60 60
60 stat /d/n -> inode 4 mode 0100604 links 1 uid 5 gid 9 size 0 times 60 60 60
user 0 0
60 open / r 0 -> fd 0
60 open / r 0 -> fd 1
# the next inode that is free
60 open /m rc 0 -> fd 2
60 seek 2 cur 0 -> at 0
60 fstat 2 -> inode 5 mode 0100000 links 1 uid 0 gid 0 size 0 times 60 60 60
60 stat /m -> inode 5 mode 0100000 links 1 uid 0 gid 0 size 0 times 60 60 60

volume 1024 64
# A file that is emptied, and isn't without the permission or the flag.
user 0 0
50 open /f wc 640 -> fd 0
50 chown /f 5 7 -> ok
50 truncate /f 5 -> ok
50 mkdir /d 755 -> ok
50 chown /d 5 7 -> ok
0 utime / 0 0 -> ok
user 6 7
60 open /f wt 0 -> EACCES
user 5 7
60 open /f wcxt 0 -> EEXIST
60 open /f wc 0 -> fd 0
60 stat /f -> inode 2 mode 0100640 links 1 uid 5 gid 7 size 5 times 50 50 50
60 open /f wct 0 -> fd 1
60 stat /f -> inode 2 mode 0100640 links 1 uid 5 gid 7 size 0 times 50 60 60
60 fstat 1 -> inode 2 mode 0100640 links 1 uid 5 gid 7 size 0 times 50 60 60
60 seek 1 cur 0 -> at 0

volume 1024 64
# Directories.
user 0 0
50 open /f wc 640 -> fd 0
50 chown /f 5 7 -> ok
50 truncate /f 5 -> ok
50 mkdir /d 755 -> ok
50 chown /d 5 7 -> ok
0 utime / 0 0 -> ok
user 9 9
60 open / r 0 -> fd 0
60 fstat 0 -> inode 1 mode 0040755 links 3 uid 0 gid 0 size 256 times 0 0 0
# create without exclusive takes what is there
60 open /d/ rc 0 -> fd 1
60 fstat 1 -> inode 3 mode 0040755 links 2 uid 5 gid 7 size 128 times 50 50 50
60 open /d/.. r 0 -> fd 2
60 fstat 2 -> inode 1 mode 0040755 links 3 uid 0 gid 0 size 256 times 0 0 0

volume 1024 64
# Refusals, in their order: no byte changes, and no descriptor is given.
user 0 0
50 open /f wc 640 -> fd 0
50 chown /f 5 7 -> ok
50 truncate /f 5 -> ok
50 mkdir /d 755 -> ok
50 chown /d 5 7 -> ok
0 utime / 0 0 -> ok
unchanged
user 0 9
# flags, before the path
60 open /f ra 0 -> EINVAL
60 open /f rt 0 -> EINVAL
60 open /f rx 0 -> EINVAL
# the path, and the look-up
60 open f r 0 -> EINVAL
60 close 0 -> EBADF
user 9 9
60 open /f/x rcx 0 -> ENOTDIR
60 open /x/y rc 0 -> ENOENT
# what is there
60 open /f rcx 0 -> EEXIST
60 close 0 -> EBADF
user 0 9
60 open /d wcx 0 -> EEXIST
60 open / rcx 0 -> EEXIST
60 close 0 -> EBADF
user 9 9
60 open /d wc 0 -> EISDIR
60 open /f r 0 -> EACCES
60 open /f wt 0 -> EACCES
# a missing name
60 open /x r 0 -> ENOENT
60 open /x rc 0 -> EACCES
60 open /d/x rc 0 -> EACCES
60 close 0 -> EBADF
";
