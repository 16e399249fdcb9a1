//! Renames by the bytes of the image that they leave: directories `/d`, `/d/e`, `/g` and `/g/h`, inodes 2 to 5 in zones 7 to 10, and files
//! `/f` and `/b` of user 5, inodes 6 and 7 without a zone. The maps begin at bytes 2048 and 3072, the inode table at 4096, the root's zone
//! at 6144. All times are 0.

/// The plays.
pub(crate) const PLAYS: &str = "volume 1024 64
# What is made.
user 0 0
0 mkdir /d 755 -> ok
0 mkdir /d/e 755 -> ok
0 mkdir /g 755 -> ok
0 mkdir /g/h 755 -> ok
0 open /f wc 644 -> fd 0
0 chown /f 5 7 -> ok
0 truncate /f 5 -> ok
0 open /b wc 644 -> fd 1
0 chown /b 5 7 -> ok
0 utime / 0 0 -> ok
left 2048 ff
left 3072 3f
left 4096 ed410400000000008001
left 4120 06
left 4160 ed41030000000000c0
left 4184 07
left 4224 ed4102000000000080
left 4248 08
left 4288 ed41030000000000c0
left 4312 09
left 4352 ed4102000000000080
left 4376 0a
left 4416 a48101000500070005
left 4480 a481010005000700
left 6144 010000002e
left 6208 010000002e2e
left 6272 0200000064
left 6336 0400000067
left 6400 0600000066
left 6464 0700000062
left 7168 020000002e
left 7232 010000002e2e
left 7296 0300000065
left 8192 030000002e
left 8256 020000002e2e
left 9216 040000002e
left 9280 010000002e2e
left 9344 0500000068
left 10240 050000002e
left 10304 040000002e2e

volume 1024 64
# Refusals change no byte.
user 0 0
0 mkdir /d 755 -> ok
0 mkdir /d/e 755 -> ok
0 mkdir /g 755 -> ok
0 mkdir /g/h 755 -> ok
0 open /f wc 644 -> fd 0
0 chown /f 5 7 -> ok
0 truncate /f 5 -> ok
0 open /b wc 644 -> fd 1
0 chown /b 5 7 -> ok
0 utime / 0 0 -> ok
unchanged
user 0 0
60 rename f /x -> EINVAL
60 rename /none x -> EINVAL
60 rename / /x -> EINVAL
60 rename /none /g/.. -> EINVAL
60 rename /none /none/x -> ENOENT
60 rename /none /f/x -> ENOENT
60 rename /f/x /x -> ENOTDIR
60 rename /f /none/x -> ENOENT
60 rename /f /b/x -> ENOTDIR
60 rename /d /d/x -> EINVAL
60 rename /d /d/e/x -> EINVAL
60 rename /d /d/e -> EINVAL
60 rename /d /f -> ENOTDIR
60 rename /f /d -> EISDIR
60 rename /d /g -> ENOTEMPTY
60 rename /d/e /d -> ENOTEMPTY
60 rename /g/h/..//../b /g/./h/ -> EISDIR
user 5 7
60 rename /f /x -> EACCES
user 0 0
60 open /g/h r 0 -> fd 0
60 rename /d/e /g/h -> EBUSY

volume 1024 64
# A name keeps its place within a directory. The root has its links and its size, and times 0, 60, 60; the file changed, and its bytes
# didn't.
user 0 0
0 mkdir /d 755 -> ok
0 mkdir /d/e 755 -> ok
0 mkdir /g 755 -> ok
0 mkdir /g/h 755 -> ok
0 open /f wc 644 -> fd 0
0 chown /f 5 7 -> ok
0 truncate /f 5 -> ok
0 open /b wc 644 -> fd 1
0 chown /b 5 7 -> ok
0 utime / 0 0 -> ok
user 0 0
60 rename /f /k -> ok
60 rename /f /x -> ENOENT
left 6400 060000006b00
left 4098 04000000000080010000000000003c0000003c000000
left 4428 00000000000000003c000000

volume 1024 64
# A file takes the name of another: the last entry took the place of the name that went, and leads to the file that moved; the other is
# gone.
user 0 0
0 mkdir /d 755 -> ok
0 mkdir /d/e 755 -> ok
0 mkdir /g 755 -> ok
0 mkdir /g/h 755 -> ok
0 open /f wc 644 -> fd 0
0 chown /f 5 7 -> ok
0 truncate /f 5 -> ok
0 open /b wc 644 -> fd 1
0 chown /b 5 7 -> ok
0 utime / 0 0 -> ok
user 0 0
60 rename /f /b -> ok
left 4104 4001
left 6400 060000006200
left 2048 7f

volume 1024 64
# One that is open stays, without a link: its inode isn't free.
user 0 0
0 mkdir /d 755 -> ok
0 mkdir /d/e 755 -> ok
0 mkdir /g 755 -> ok
0 mkdir /g/h 755 -> ok
0 open /f wc 644 -> fd 0
0 chown /f 5 7 -> ok
0 truncate /f 5 -> ok
0 open /b wc 644 -> fd 1
0 chown /b 5 7 -> ok
0 utime / 0 0 -> ok
user 0 0
60 open /b r 0 -> fd 0
60 rename /f /b -> ok
60 statfs -> block 1024 zones 58 free 53 inodes 32 free 25
60 fstat 0 -> inode 7 mode 0100644 links 0 uid 5 gid 7 size 0 times 0 0 60

volume 1024 64
# A directory moves to another: a link goes from the root to `g`, in which the name stands last, and `..` leads there; what moved changed,
# and its names didn't.
user 0 0
0 mkdir /d 755 -> ok
0 mkdir /d/e 755 -> ok
0 mkdir /g 755 -> ok
0 mkdir /g/h 755 -> ok
0 open /f wc 644 -> fd 0
0 chown /f 5 7 -> ok
0 truncate /f 5 -> ok
0 open /b wc 644 -> fd 1
0 chown /b 5 7 -> ok
0 utime / 0 0 -> ok
user 0 0
60 rename /d /g/d -> ok
left 4098 0300
left 4290 0400
left 4296 0001
left 9408 020000006400
left 7232 040000002e2e
left 4172 00000000000000003c000000

volume 1024 64
# And another one moves out of it.
user 0 0
0 mkdir /d 755 -> ok
0 mkdir /d/e 755 -> ok
0 mkdir /g 755 -> ok
0 mkdir /g/h 755 -> ok
0 open /f wc 644 -> fd 0
0 chown /f 5 7 -> ok
0 truncate /f 5 -> ok
0 open /b wc 644 -> fd 1
0 chown /b 5 7 -> ok
0 utime / 0 0 -> ok
user 0 0
60 rename /d /g/d -> ok
60 rename /g /g/d/e/x -> EINVAL
60 rename /g/d/../d/e /g/d/../../e -> ok
left 8256 010000002e2e

volume 1024 64
# A directory takes the name of an empty one: `d` has a link less, `g` as many as before; inode 5 and zone 10 are free.
user 0 0
0 mkdir /d 755 -> ok
0 mkdir /d/e 755 -> ok
0 mkdir /g 755 -> ok
0 mkdir /g/h 755 -> ok
0 open /f wc 644 -> fd 0
0 chown /f 5 7 -> ok
0 truncate /f 5 -> ok
0 open /b wc 644 -> fd 1
0 chown /b 5 7 -> ok
0 utime / 0 0 -> ok
user 0 0
60 rename /d/e /g/h -> ok
left 4162 0200
left 4290 0300
left 2048 df
left 3072 1f
left 9344 030000006800
left 8256 040000002e2e

volume 1024 9
# Nine blocks whose three zones are taken. The root has `s`, `q` and `a` to `n`, 18 entries in zones 6 and 7, of which the last two stand
# in zone 7; `s`, inode 2, has `a` to `n` too, 16 entries that fill zone 8. All these names are of inode 3, a file with 28 links, and `q`
# is of inode 4, a file with one: neither has a zone.
user 0 0
# a file takes inode 2 while names take their places; `/s` takes it then, and the place of `/p`
0 open /1 wc 644 -> fd 0
0 open /2 wc 644 -> fd 1
0 open /3 wc 644 -> fd 2
0 link /2 /a -> ok
0 link /3 /q -> ok
0 link /2 /p -> ok
0 unlink /1 -> ok
0 unlink /2 -> ok
0 unlink /3 -> ok
0 close 0 -> ok
0 link /a /b -> ok
0 link /a /c -> ok
0 link /a /d -> ok
0 link /a /e -> ok
0 link /a /f -> ok
0 link /a /g -> ok
0 link /a /h -> ok
0 link /a /i -> ok
0 link /a /j -> ok
0 link /a /k -> ok
0 link /a /l -> ok
0 link /a /m -> ok
0 link /a /n -> ok
0 mkdir /s 755 -> ok
0 unlink /p -> ok
0 link /a /s/a -> ok
0 link /a /s/b -> ok
0 link /a /s/c -> ok
0 link /a /s/d -> ok
0 link /a /s/e -> ok
0 link /a /s/f -> ok
0 link /a /s/g -> ok
0 link /a /s/h -> ok
0 link /a /s/i -> ok
0 link /a /s/j -> ok
0 link /a /s/k -> ok
0 link /a /s/l -> ok
0 link /a /s/m -> ok
0 link /a /s/n -> ok
0 utime / 0 0 -> ok
0 statfs -> block 1024 zones 3 free 0 inodes 32 free 28
left 2048 1f
left 4096 ed410300000000008004
left 4120 0600000007
left 4160 ed410200000000000004
left 4184 08
left 4224 a4811c
left 4288 a48101
left 6144 010000002e
left 6208 010000002e2e
left 6272 0200000073
left 6336 0400000071
left 8192 020000002e
left 8256 010000002e2e
left 6400 0300000061
left 6464 0300000062
left 6528 0300000063
left 6592 0300000064
left 6656 0300000065
left 6720 0300000066
left 6784 0300000067
left 6848 0300000068
left 6912 0300000069
left 6976 030000006a
left 7040 030000006b
left 7104 030000006c
left 7168 030000006d
left 7232 030000006e
left 8320 0300000061
left 8384 0300000062
left 8448 0300000063
left 8512 0300000064
left 8576 0300000065
left 8640 0300000066
left 8704 0300000067
left 8768 0300000068
left 8832 0300000069
left 8896 030000006a
left 8960 030000006b
left 9024 030000006c
left 9088 030000006d
left 9152 030000006e

volume 1024 9
# There the root keeps its second zone with 17 entries, and `s` has none for a 17th. Within a directory, over a name, and to another name
# of the same inode no zone is taken.
user 0 0
# a file takes inode 2 while names take their places; `/s` takes it then, and the place of `/p`
0 open /1 wc 644 -> fd 0
0 open /2 wc 644 -> fd 1
0 open /3 wc 644 -> fd 2
0 link /2 /a -> ok
0 link /3 /q -> ok
0 link /2 /p -> ok
0 unlink /1 -> ok
0 unlink /2 -> ok
0 unlink /3 -> ok
0 close 0 -> ok
0 link /a /b -> ok
0 link /a /c -> ok
0 link /a /d -> ok
0 link /a /e -> ok
0 link /a /f -> ok
0 link /a /g -> ok
0 link /a /h -> ok
0 link /a /i -> ok
0 link /a /j -> ok
0 link /a /k -> ok
0 link /a /l -> ok
0 link /a /m -> ok
0 link /a /n -> ok
0 mkdir /s 755 -> ok
0 unlink /p -> ok
0 link /a /s/a -> ok
0 link /a /s/b -> ok
0 link /a /s/c -> ok
0 link /a /s/d -> ok
0 link /a /s/e -> ok
0 link /a /s/f -> ok
0 link /a /s/g -> ok
0 link /a /s/h -> ok
0 link /a /s/i -> ok
0 link /a /s/j -> ok
0 link /a /s/k -> ok
0 link /a /s/l -> ok
0 link /a /s/m -> ok
0 link /a /s/n -> ok
0 utime / 0 0 -> ok
user 0 0
60 rename /n /s/z -> ENOSPC
60 rename /n /z -> ok
60 rename /z /s/a -> ok
60 rename /z /q -> ok
left 2048 0f
left 4104 4004

volume 1024 9
# With 16 entries the root gives back zone 7, which `s` takes.
user 0 0
# a file takes inode 2 while names take their places; `/s` takes it then, and the place of `/p`
0 open /1 wc 644 -> fd 0
0 open /2 wc 644 -> fd 1
0 open /3 wc 644 -> fd 2
0 link /2 /a -> ok
0 link /3 /q -> ok
0 link /2 /p -> ok
0 unlink /1 -> ok
0 unlink /2 -> ok
0 unlink /3 -> ok
0 close 0 -> ok
0 link /a /b -> ok
0 link /a /c -> ok
0 link /a /d -> ok
0 link /a /e -> ok
0 link /a /f -> ok
0 link /a /g -> ok
0 link /a /h -> ok
0 link /a /i -> ok
0 link /a /j -> ok
0 link /a /k -> ok
0 link /a /l -> ok
0 link /a /m -> ok
0 link /a /n -> ok
0 mkdir /s 755 -> ok
0 unlink /p -> ok
0 link /a /s/a -> ok
0 link /a /s/b -> ok
0 link /a /s/c -> ok
0 link /a /s/d -> ok
0 link /a /s/e -> ok
0 link /a /s/f -> ok
0 link /a /s/g -> ok
0 link /a /s/h -> ok
0 link /a /s/i -> ok
0 link /a /s/j -> ok
0 link /a /s/k -> ok
0 link /a /s/l -> ok
0 link /a /s/m -> ok
0 link /a /s/n -> ok
0 utime / 0 0 -> ok
user 0 0
60 rename /n /s/z -> ENOSPC
60 rename /n /z -> ok
60 rename /z /s/a -> ok
60 rename /z /q -> ok
60 rename /m /s/z -> ok
60 statfs -> block 1024 zones 3 free 0 inodes 32 free 29
left 4104 0004
left 4120 0600000000000000
left 4168 4004
left 4184 0800000007000000
left 7168 030000007a00
";
