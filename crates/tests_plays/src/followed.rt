//! Which calls follow a symbolic link that stands last, and what is asked on the way.

/// The plays.
pub(crate) const PLAYS: &str = "volume 1024 64
# Open follows a link that stands last, but for create with exclusive; a link to nothing makes no file.
user 0 0
100 mkdir /d 755 -> ok
100 open /d/f rwc 644 -> fd 0
100 write 0 616263 -> wrote 3
100 symlink d/f /l -> ok
100 symlink n /m -> ok
100 symlink d /e -> ok
100 open /l r 0 -> fd 1
100 fstat 1 -> inode 3 mode 0100644 links 1 uid 0 gid 0 size 3 times 100 100 100
100 read 1 9 -> bytes 616263
110 open /l rwc 600 -> fd 2
110 fstat 2 -> inode 3 mode 0100644 links 1 uid 0 gid 0 size 3 times 100 100 100
120 open /l/ wt 0 -> fd 3
120 fstat 3 -> inode 3 mode 0100644 links 1 uid 0 gid 0 size 0 times 100 120 120
120 open /l rwcx 644 -> EEXIST
120 open /m r 0 -> ENOENT
120 open /m rwc 644 -> ENOENT
120 open /m/ rwc 644 -> ENOENT
120 open /m rwcx 644 -> EEXIST
120 open /m/x rwc 644 -> ENOENT
120 open /l/x rwc 644 -> ENOTDIR
120 lstat /n -> ENOENT
120 open /e r 0 -> fd 4
120 fstat 4 -> inode 2 mode 0040755 links 2 uid 0 gid 0 size 192 times 100 100 100
120 readdir 4 -> names 1 66:3
120 open /e w 0 -> EISDIR
120 open /e rwc 644 -> EISDIR
120 open /e rcx 644 -> EEXIST
120 open /e/. rcx 644 -> EEXIST
120 open /e/g rwc 640 -> fd 5
120 stat /d/g -> inode 7 mode 0100640 links 1 uid 0 gid 0 size 0 times 120 120 120
120 open / r 0 -> fd 6
120 readdir 6 -> names 4 64:2 65:6 6c:4 6d:5
120 chmod /l 600 -> ok
user 5 7
120 open /l r 0 -> EACCES
120 open /l rc 644 -> EACCES
120 open /l rcx 644 -> EEXIST
120 open /m rwc 644 -> ENOENT
120 open /e r 0 -> fd 0

volume 1024 64
# chmod, chown, utime and truncate follow a link that stands last, and leave it as it is.
user 0 0
100 open /f wc 644 -> fd 0
100 symlink f /l -> ok
100 symlink l /k -> ok
100 symlink n /m -> ok
100 symlink . /r -> ok
110 chmod /k 600 -> ok
110 stat /f -> inode 2 mode 0100600 links 1 uid 0 gid 0 size 0 times 100 100 110
120 chown /l 5 7 -> ok
130 utime /k 1 2 -> ok
130 stat /f -> inode 2 mode 0100600 links 1 uid 5 gid 7 size 0 times 1 2 130
140 truncate /r/l 5 -> ok
150 stat /k -> inode 2 mode 0100600 links 1 uid 5 gid 7 size 5 times 1 140 140
150 lstat /l -> inode 3 mode 0120777 links 1 uid 0 gid 0 size 1 times 100 100 100
150 lstat /k -> inode 4 mode 0120777 links 1 uid 0 gid 0 size 1 times 100 100 100
150 chmod /m 644 -> ENOENT
150 chown /m 5 7 -> ENOENT
150 utime /m 1 2 -> ENOENT
150 truncate /m 0 -> ENOENT
150 truncate /r 0 -> EISDIR
150 chmod /l/x 644 -> ENOTDIR
user 5 7
160 chmod /l 640 -> ok
160 stat /f -> inode 2 mode 0100640 links 1 uid 5 gid 7 size 5 times 1 140 160
user 6 8
160 chmod /l 600 -> EPERM
160 chown /k 6 8 -> EPERM
160 utime /l 0 0 -> EPERM
160 truncate /k 0 -> EACCES

volume 1024 64
# unlink, rmdir, mkdir and symlink don't follow a link that stands last; those in the middle they do.
user 0 0
100 mkdir /d 755 -> ok
100 open /d/f wc 644 -> fd 0
100 symlink d /l -> ok
100 symlink d/f /k -> ok
100 statfs -> block 1024 zones 58 free 54 inodes 32 free 27
110 rmdir /l -> ENOTDIR
110 rmdir /k -> ENOTDIR
110 rmdir /l/. -> EINVAL
110 mkdir /l 755 -> EEXIST
110 mkdir /k 755 -> EEXIST
110 symlink x /k -> EEXIST
110 unlink /l/ -> ok
110 lstat /l -> ENOENT
110 stat /d -> inode 2 mode 0040755 links 2 uid 0 gid 0 size 192 times 100 100 100
110 statfs -> block 1024 zones 58 free 55 inodes 32 free 28
110 unlink /k -> ok
110 stat /d/f -> inode 3 mode 0100644 links 1 uid 0 gid 0 size 0 times 100 100 100
110 statfs -> block 1024 zones 58 free 56 inodes 32 free 29
120 symlink /d /l -> ok
120 mkdir /l/e 755 -> ok
120 stat /d -> inode 2 mode 0040755 links 3 uid 0 gid 0 size 256 times 100 120 120
120 symlink ../d /l/s -> ok
120 lstat /d/s -> inode 6 mode 0120777 links 1 uid 0 gid 0 size 4 times 120 120 120
130 rmdir /l/s/e -> ok
130 unlink /l/s/f -> ok
130 unlink /l/s -> ok
130 stat /d -> inode 2 mode 0040755 links 2 uid 0 gid 0 size 128 times 100 130 130
130 fstat 0 -> inode 3 mode 0100644 links 0 uid 0 gid 0 size 0 times 100 100 130
130 rmdir /d -> ok
130 stat /l -> ENOENT
user 5 7
130 unlink /l -> EACCES
130 rmdir /l -> EACCES

volume 1024 64
# Neither path of link follows its last part: a link may have a further name.
user 0 0
100 open /f wc 644 -> fd 0
100 mkdir /d 755 -> ok
100 symlink f /l -> ok
100 symlink d /e -> ok
110 link /l /d/k -> ok
110 lstat /l -> inode 4 mode 0120777 links 2 uid 0 gid 0 size 1 times 100 100 110
110 lstat /e/k -> inode 4 mode 0120777 links 2 uid 0 gid 0 size 1 times 100 100 110
# a relative target counts from where the name stands
110 stat /l -> inode 2 mode 0100644 links 1 uid 0 gid 0 size 0 times 100 100 100
110 stat /d/k -> ENOENT
110 readlink /d/k -> bytes 66
110 link /e/ /x -> ok
110 lstat /x -> inode 5 mode 0120777 links 2 uid 0 gid 0 size 1 times 100 100 110
110 link /e/. /y -> EPERM
110 link /f /l -> EEXIST
110 link /f /e -> EEXIST
110 link /n /y -> ENOENT
110 link /l/n /y -> ENOTDIR
110 link /f /e/g -> ok
110 link /e/g /h -> ok
110 stat /f -> inode 2 mode 0100644 links 3 uid 0 gid 0 size 0 times 100 100 110
110 stat /d/k -> ENOENT
110 link /f /d/f -> ok
110 stat /d/k -> inode 2 mode 0100644 links 4 uid 0 gid 0 size 0 times 100 100 110
120 unlink /l -> ok
120 lstat /d/k -> inode 4 mode 0120777 links 1 uid 0 gid 0 size 1 times 100 100 120
120 statfs -> block 1024 zones 58 free 54 inodes 32 free 27
120 unlink /d/k -> ok
120 statfs -> block 1024 zones 58 free 55 inodes 32 free 28

volume 1024 64
# rename moves a link as it moves a file, and follows neither last part.
user 0 0
100 mkdir /d 755 -> ok
100 open /f wc 644 -> fd 0
100 symlink d /l -> ok
100 symlink f /k -> ok
110 rename /l /m -> ok
110 lstat /m -> inode 4 mode 0120777 links 1 uid 0 gid 0 size 1 times 100 100 110
110 lstat /l -> ENOENT
110 rename /d /m -> ENOTDIR
110 rename /m /d -> EISDIR
110 rename /m /k -> ok
110 readlink /k -> bytes 64
110 statfs -> block 1024 zones 58 free 55 inodes 32 free 28
110 rename /f /k -> ok
110 lstat /k -> inode 3 mode 0100644 links 1 uid 0 gid 0 size 0 times 100 100 110
110 statfs -> block 1024 zones 58 free 56 inodes 32 free 29
120 symlink k /l -> ok
120 lstat /l -> inode 4 mode 0120777 links 1 uid 0 gid 0 size 1 times 120 120 120
130 rename /l /k -> ok
130 lstat /k -> inode 4 mode 0120777 links 1 uid 0 gid 0 size 1 times 120 120 130
130 stat /k -> ELOOP
130 fstat 0 -> inode 3 mode 0100644 links 0 uid 0 gid 0 size 0 times 100 100 130
140 symlink d /e -> ok
140 rename /k /e/k -> ok
140 rename /e/k /e/j -> ok
140 lstat /d/j -> inode 4 mode 0120777 links 1 uid 0 gid 0 size 1 times 120 120 140
140 rename /d /e/x -> EINVAL
140 rename /e/. /x -> EINVAL
140 rename /e /d/e/ -> ok
140 lstat /e -> ENOENT
140 stat /d/e -> ENOENT
140 link /d/e /e -> ok
150 rename /d/e /e -> ok
150 lstat /d/e -> inode 5 mode 0120777 links 2 uid 0 gid 0 size 1 times 140 140 140
150 stat /e/j -> ENOENT

volume 1024 64
# A directory to which links lead is moved.
user 0 0
100 mkdir /d 755 -> ok
100 mkdir /d/e 755 -> ok
100 symlink d/e /l -> ok
100 symlink ../x /d/e/u -> ok
100 stat /l -> inode 3 mode 0040755 links 2 uid 0 gid 0 size 192 times 100 100 100
110 rename /d /g -> ok
110 stat /l -> ENOENT
110 stat /l/u -> ENOENT
110 lstat /l -> inode 4 mode 0120777 links 1 uid 0 gid 0 size 3 times 100 100 100
110 mkdir /d 755 -> ok
110 stat /l -> ENOENT
110 mkdir /g/x 755 -> ok
110 stat /g/e/u -> inode 7 mode 0040755 links 2 uid 0 gid 0 size 128 times 110 110 110
120 rename /g/e /d/e -> ok
120 stat /l -> inode 3 mode 0040755 links 2 uid 0 gid 0 size 192 times 100 100 120
120 stat /l/u -> ENOENT
120 mkdir /d/x 755 -> ok
120 stat /l/u -> inode 8 mode 0040755 links 2 uid 0 gid 0 size 128 times 120 120 120
120 stat /l/.. -> inode 6 mode 0040755 links 4 uid 0 gid 0 size 256 times 110 120 120

volume 1024 64
# A link's directory, and each directory on the way to what it leads to, has to be searched; the link's own bits aren't asked.
user 0 0
100 mkdir /p 700 -> ok
100 open /p/f wc 644 -> fd 0
100 open /g wc 644 -> fd 1
100 symlink p/f /l -> ok
100 symlink ../g /p/k -> ok
100 symlink /p/k /m -> ok
100 mkdir /q 711 -> ok
100 symlink ../g /q/k -> ok
100 mkdir /o 777 -> ok
100 stat /m -> inode 4 mode 0100644 links 1 uid 0 gid 0 size 0 times 100 100 100
user 5 7
100 stat /l -> EACCES
100 stat /p/k -> EACCES
100 stat /m -> EACCES
100 stat /m/x -> EACCES
100 open /l r 0 -> EACCES
100 open /l rcx 644 -> EEXIST
100 truncate /l 0 -> EACCES
100 lstat /l -> inode 5 mode 0120777 links 1 uid 0 gid 0 size 3 times 100 100 100
100 readlink /l -> bytes 702f66
100 lstat /p/k -> EACCES
100 readlink /p/k -> EACCES
100 unlink /l -> EACCES
100 link /l /o/l -> ok
100 readlink /q/k -> bytes 2e2e2f67
100 stat /q/k -> inode 4 mode 0100644 links 1 uid 0 gid 0 size 0 times 100 100 100
110 symlink ../p /o/p -> ok
110 lstat /o/p -> inode 11 mode 0120777 links 1 uid 5 gid 7 size 4 times 110 110 110
110 stat /o/p -> inode 2 mode 0040700 links 2 uid 0 gid 0 size 256 times 100 100 100
110 stat /o/p/f -> EACCES
110 stat /o/p/.. -> EACCES
110 chmod /o/p 777 -> EPERM
110 unlink /o/p -> ok
user 0 0
110 lstat /l -> inode 5 mode 0120777 links 2 uid 0 gid 0 size 3 times 100 100 100
110 stat /o/l -> ENOENT

volume 1024 64
# The bytes of the image: mode 0120777, one link, the size, and the target in zone 7; the maps give both back.
user 0 0
0 symlink abc /l -> ok
left 2048 07
left 3072 07
left 4160 ffa10100000000000300000000000000000000000000000007000000
left 4188 0000000000000000
left 6272 020000006c
left 7168 61626300

volume 1024 64
# The target's zone is free again, and read as zeros where a file takes it.
user 0 0
0 symlink abc /l -> ok
0 unlink /l -> ok
0 open /f rwc 644 -> fd 0
0 seek 0 set 1 -> at 1
0 write 0 78 -> wrote 1
0 seek 0 set 0 -> at 0
0 read 0 9 -> bytes 0078
left 2048 07
left 3072 07
left 4160 a481010000000000020000000000000000000000000000000700
left 7168 00780000

volume 1024 9
# A link takes an inode and a zone, or is refused.
user 0 0
100 statfs -> block 1024 zones 3 free 2 inodes 32 free 31
100 symlink a /1 -> ok
100 symlink b /2 -> ok
100 statfs -> block 1024 zones 3 free 0 inodes 32 free 29
100 symlink c /3 -> ENOSPC
100 symlink c /2 -> EEXIST
100 lstat /3 -> ENOENT
100 open /3 wc 644 -> fd 0
100 stat / -> inode 1 mode 0040755 links 2 uid 0 gid 0 size 320 times 50 100 100
100 unlink /1 -> ok
100 symlink c /4 -> ok
100 lstat /4 -> inode 2 mode 0120777 links 1 uid 0 gid 0 size 1 times 100 100 100
100 readlink /4 -> bytes 63
100 readlink /2 -> bytes 62
user 5 7
100 symlink c /5 -> EACCES

volume 1024 10
# A name may take a zone of its directory besides.
user 0 0
100 open /f wc 644 -> fd 0
100 link /f /1 -> ok
100 link /f /2 -> ok
100 link /f /3 -> ok
100 link /f /4 -> ok
100 link /f /5 -> ok
100 link /f /6 -> ok
100 link /f /7 -> ok
100 link /f /8 -> ok
100 link /f /9 -> ok
100 link /f /10 -> ok
100 link /f /11 -> ok
100 link /f /12 -> ok
100 link /f /13 -> ok
100 fill 0 2048 61 -> wrote 2048
100 statfs -> block 1024 zones 4 free 1 inodes 32 free 30
100 symlink a /l -> ENOSPC
100 truncate /f 1024 -> ok
100 symlink a /l -> ok
100 statfs -> block 1024 zones 4 free 0 inodes 32 free 29
100 unlink /l -> ok
100 statfs -> block 1024 zones 4 free 2 inodes 32 free 30
";
