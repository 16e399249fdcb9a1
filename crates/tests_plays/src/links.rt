//! Symbolic links: made, read, followed and taken away.

/// The plays.
pub(crate) const PLAYS: &str = "volume 1024 64
# A link to nothing, and then to a directory.
user 0 0
100 symlink d /l -> ok
100 lstat /l -> inode 2 mode 0120777 links 1 uid 0 gid 0 size 1 times 100 100 100
100 readlink /l -> bytes 64
100 stat /l -> ENOENT
100 mkdir /d 755 -> ok
100 stat /l -> inode 3 mode 0040755 links 2 uid 0 gid 0 size 128 times 100 100 100
100 stat /l/.. -> inode 1 mode 0040755 links 3 uid 0 gid 0 size 256 times 50 100 100
100 statfs -> block 1024 zones 58 free 55 inodes 32 free 29

volume 1024 64
# A walk follows eight links.
user 0 0
100 symlink / /s0 -> ok
100 symlink s0 /s1 -> ok
100 symlink s1 /s2 -> ok
100 symlink s2 /s3 -> ok
100 symlink s3 /s4 -> ok
100 symlink s4 /s5 -> ok
100 symlink s5 /s6 -> ok
100 symlink s6 /s7 -> ok
100 symlink s7 /s8 -> ok
100 stat /s7 -> inode 1 mode 0040755 links 2 uid 0 gid 0 size 704 times 50 100 100
100 stat /s8 -> ELOOP
100 lstat /s8 -> inode 10 mode 0120777 links 1 uid 0 gid 0 size 2 times 100 100 100
100 readlink /s8 -> bytes 7337
# they are counted along the whole path, and for each of two paths anew
100 stat /s3/s3 -> inode 1 mode 0040755 links 2 uid 0 gid 0 size 704 times 50 100 100
100 stat /s3/s4 -> ELOOP
100 stat /s0/../s6 -> inode 1 mode 0040755 links 2 uid 0 gid 0 size 704 times 50 100 100
100 stat /s0/../s7 -> ELOOP
100 lstat /s7/s0 -> inode 2 mode 0120777 links 1 uid 0 gid 0 size 1 times 100 100 100
100 stat /s7/s0 -> ELOOP
100 lstat /s8/s0 -> ELOOP
100 readlink /s8/s0 -> ELOOP
100 rename /s7/s8 /s7/t -> ok
100 link /s7/t /s7/u -> ok
100 rename /s7/t /t/t -> ELOOP
100 unlink /u/u -> ELOOP
100 unlink /s7/u -> ok
100 mkdir /t/d 755 -> ELOOP
100 symlink x /t/x -> ELOOP
100 rmdir /t/d -> ELOOP

volume 1024 64
# A link to itself, and two to each other.
user 0 0
100 symlink x /x -> ok
100 stat /x -> ELOOP
100 open /x rc 644 -> ELOOP
100 open /x rcx 644 -> EEXIST
100 unlink /x -> ok
100 lstat /x -> ENOENT
100 statfs -> block 1024 zones 58 free 57 inodes 32 free 31
100 symlink /b /a -> ok
100 symlink ./a /b -> ok
100 open /a r 0 -> ELOOP
100 chmod /a 644 -> ELOOP
100 chown /b 5 7 -> ELOOP
100 utime /a 1 2 -> ELOOP
100 truncate /b 0 -> ELOOP
100 stat /b/c -> ELOOP
100 readlink /b -> bytes 2e2f61

volume 1024 64
# symlink refuses the target first, then the path, its parent, what is there, and the parent's bits.
user 0 0
100 mkdir /d 755 -> ok
100 mkdir /p 700 -> ok
100 open /f wc 644 -> fd 0
100 symlink x /l -> ok
unchanged
user 0 0
110 symlink a\0b /n/l -> EINVAL
110 symlink x l -> EINVAL
110 symlink x /aaaaaaaaaaaaaaaaaaaaaaaaaaaaaaaaaaaaaaaaaaaaaaaaaaaaaaaaaaaaa -> ENAMETOOLONG
110 symlink x /n/l -> ENOENT
110 symlink x /f/l -> ENOTDIR
110 symlink x /l/l -> ENOENT
110 symlink x /f -> EEXIST
110 symlink x /d -> EEXIST
110 symlink x /l -> EEXIST
110 symlink x /l/ -> EEXIST
110 symlink x / -> EEXIST
110 symlink x /d/. -> EEXIST
110 symlink x /d/.. -> EEXIST
110 symlink x /n/. -> ENOENT
user 5 7
110 symlink a\0b / -> EINVAL
110 symlink x /n/l -> ENOENT
110 symlink x /p/l -> EACCES
110 symlink x /l -> EEXIST
110 symlink x /m -> EACCES
110 readlink /m -> ENOENT
110 readlink /l -> bytes 78
110 readlink /p/l -> EACCES
110 readlink /f/l -> ENOTDIR
110 readlink /f -> EINVAL
110 readlink /d -> EINVAL
110 readlink / -> EINVAL
110 readlink l -> EINVAL
110 lstat l -> EINVAL
110 lstat /m -> ENOENT
110 lstat /p/m -> EACCES

volume 1024 64
# Relative and absolute targets, as the last part and in the middle.
user 0 0
100 mkdir /d 755 -> ok
100 open /d/f rwc 644 -> fd 0
100 write 0 616263 -> wrote 3
110 symlink d/f /r -> ok
110 symlink /d/f /a -> ok
110 symlink ../d /d/e -> ok
110 symlink f /d/g -> ok
110 symlink /d /b -> ok
120 stat /r -> inode 3 mode 0100644 links 1 uid 0 gid 0 size 3 times 100 100 100
120 stat /a -> inode 3 mode 0100644 links 1 uid 0 gid 0 size 3 times 100 100 100
120 stat /d/g -> inode 3 mode 0100644 links 1 uid 0 gid 0 size 3 times 100 100 100
120 stat /d/e -> inode 2 mode 0040755 links 2 uid 0 gid 0 size 320 times 100 110 110
120 stat /d/e/e/f -> inode 3 mode 0100644 links 1 uid 0 gid 0 size 3 times 100 100 100
120 stat /b/g -> inode 3 mode 0100644 links 1 uid 0 gid 0 size 3 times 100 100 100
120 stat /b/e/../r -> inode 3 mode 0100644 links 1 uid 0 gid 0 size 3 times 100 100 100
120 stat /b/../b/. -> inode 2 mode 0040755 links 2 uid 0 gid 0 size 320 times 100 110 110
120 stat /b/.. -> inode 1 mode 0040755 links 3 uid 0 gid 0 size 384 times 50 110 110
# slashes at the end are dropped
120 stat /r// -> inode 3 mode 0100644 links 1 uid 0 gid 0 size 3 times 100 100 100
120 stat /r/. -> ENOTDIR
120 stat /r/x -> ENOTDIR
120 stat /b/n -> ENOENT
120 lstat /r -> inode 4 mode 0120777 links 1 uid 0 gid 0 size 3 times 110 110 110
120 lstat /a -> inode 5 mode 0120777 links 1 uid 0 gid 0 size 4 times 110 110 110
120 lstat /d/e/e -> inode 6 mode 0120777 links 1 uid 0 gid 0 size 4 times 110 110 110
120 lstat /b/g -> inode 7 mode 0120777 links 1 uid 0 gid 0 size 1 times 110 110 110
120 lstat /b/ -> inode 8 mode 0120777 links 1 uid 0 gid 0 size 2 times 110 110 110
120 lstat /b/. -> inode 2 mode 0040755 links 2 uid 0 gid 0 size 320 times 100 110 110
120 lstat /b/.. -> inode 1 mode 0040755 links 3 uid 0 gid 0 size 384 times 50 110 110
120 lstat /d/f -> inode 3 mode 0100644 links 1 uid 0 gid 0 size 3 times 100 100 100
120 lstat /r/x -> ENOTDIR
120 readlink /r -> bytes 642f66
120 readlink /a -> bytes 2f642f66
120 readlink /b/e -> bytes 2e2e2f64
120 readlink /b// -> bytes 2f64
120 readlink /b/. -> EINVAL
120 readlink /b/e/f -> EINVAL
120 readlink /b/n -> ENOENT
120 readlink /r/x -> ENOTDIR

volume 1024 64
# Targets of dots and slashes.
user 0 0
100 mkdir /d 755 -> ok
100 mkdir /d/e 755 -> ok
100 symlink .. /d/e/u -> ok
100 symlink . /d/s -> ok
100 symlink /// /d/r -> ok
100 symlink d//e/ /t -> ok
100 stat /d/e/u -> inode 2 mode 0040755 links 3 uid 0 gid 0 size 320 times 100 100 100
100 stat /d/e/u/.. -> inode 1 mode 0040755 links 3 uid 0 gid 0 size 256 times 50 100 100
100 stat /d/s -> inode 2 mode 0040755 links 3 uid 0 gid 0 size 320 times 100 100 100
100 stat /d/s/s/s/e -> inode 3 mode 0040755 links 2 uid 0 gid 0 size 192 times 100 100 100
100 stat /d/r -> inode 1 mode 0040755 links 3 uid 0 gid 0 size 256 times 50 100 100
100 stat /d/r/d/e -> inode 3 mode 0040755 links 2 uid 0 gid 0 size 192 times 100 100 100
100 stat /t -> inode 3 mode 0040755 links 2 uid 0 gid 0 size 192 times 100 100 100
100 stat /t/u/r/t/.. -> inode 2 mode 0040755 links 3 uid 0 gid 0 size 320 times 100 100 100
100 readlink /t -> bytes 642f2f652f

volume 1024 64
# A part of a target over 60 bytes is refused once the link is followed; past eight links ELOOP comes before it.
user 0 0
100 symlink aaaaaaaaaaaaaaaaaaaaaaaaaaaaaaaaaaaaaaaaaaaaaaaaaaaaaaaaaaaa /k -> ok
100 symlink aaaaaaaaaaaaaaaaaaaaaaaaaaaaaaaaaaaaaaaaaaaaaaaaaaaaaaaaaaaaa /s0 -> ok
100 symlink s0 /s1 -> ok
100 symlink s1 /s2 -> ok
100 symlink s2 /s3 -> ok
100 symlink s3 /s4 -> ok
100 symlink s4 /s5 -> ok
100 symlink s5 /s6 -> ok
100 symlink s6 /s7 -> ok
100 symlink s7 /s8 -> ok
100 stat /k -> ENOENT
100 open /aaaaaaaaaaaaaaaaaaaaaaaaaaaaaaaaaaaaaaaaaaaaaaaaaaaaaaaaaaaa wc 644 -> fd 0
100 stat /k -> inode 12 mode 0100644 links 1 uid 0 gid 0 size 0 times 100 100 100
100 lstat /k -> inode 2 mode 0120777 links 1 uid 0 gid 0 size 60 times 100 100 100
100 lstat /s0 -> inode 3 mode 0120777 links 1 uid 0 gid 0 size 61 times 100 100 100
100 stat /s0 -> ENAMETOOLONG
100 stat /s0/x -> ENAMETOOLONG
100 lstat /s0/x -> ENAMETOOLONG
100 open /s0 rwc 644 -> ENAMETOOLONG
100 open /s0 rwcx 644 -> EEXIST
100 unlink /s0/x -> ENAMETOOLONG
100 stat /s7 -> ENAMETOOLONG
100 stat /s8 -> ELOOP
";
