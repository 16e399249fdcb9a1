//! Opens, and what descriptors are used for.

/// The plays.
pub(crate) const PLAYS: &str = "volume 1024 64
# Opens, refused in their order, by the owner and by another user.
user 0 0
100 open /f - 644 -> EINVAL
100 open /f c 644 -> EINVAL
100 open /f rac 644 -> EINVAL
100 open /f rtc 644 -> EINVAL
100 open /f rwx 644 -> EINVAL
100 open /f rwc 1000 -> EINVAL
100 open f r 0 -> EINVAL
100 open /f r 0 -> ENOENT
100 open /d/f rwc 644 -> ENOENT
100 open /f rwc 600 -> fd 0
100 open /f/g rwc 644 -> ENOTDIR
100 open //f/ r 0 -> fd 1
100 open /./../f w 0 -> fd 2
100 open /f rwcx 600 -> EEXIST
100 open / rwcx 755 -> EEXIST
100 open /. rwcx 755 -> EEXIST
100 open / w 0 -> EISDIR
100 open / rwc 0 -> EISDIR
100 open / r 0 -> fd 3
100 write 0 616263 -> wrote 3
110 open /f wt 0 -> fd 4
120 stat /f -> inode 2 mode 0100600 links 1 uid 0 gid 0 size 0 times 100 110 110
user 5 7
100 open /f - 0 -> EINVAL
100 open /f rwcx 0 -> EEXIST
100 open / w 0 -> EISDIR
100 open /f r 0 -> EACCES
100 open /f rwt 0 -> EACCES
100 open /n r 0 -> ENOENT
100 open /n rwc 644 -> EACCES

volume 1024 64
# A session has 32 descriptors.
user 0 0
100 open / r 0 -> fd 0
100 dup 0 -> fd 1
100 dup 0 -> fd 2
100 dup 0 -> fd 3
100 dup 0 -> fd 4
100 dup 0 -> fd 5
100 dup 0 -> fd 6
100 dup 0 -> fd 7
100 dup 0 -> fd 8
100 dup 0 -> fd 9
100 dup 0 -> fd 10
100 dup 0 -> fd 11
100 dup 0 -> fd 12
100 dup 0 -> fd 13
100 dup 0 -> fd 14
100 dup 0 -> fd 15
100 dup 0 -> fd 16
100 dup 0 -> fd 17
100 dup 0 -> fd 18
100 dup 0 -> fd 19
100 dup 0 -> fd 20
100 dup 0 -> fd 21
100 dup 0 -> fd 22
100 dup 0 -> fd 23
100 dup 0 -> fd 24
100 dup 0 -> fd 25
100 dup 0 -> fd 26
100 dup 0 -> fd 27
100 dup 0 -> fd 28
100 dup 0 -> fd 29
100 dup 0 -> fd 30
100 dup 0 -> fd 31
100 dup 0 -> EMFILE
100 dup 32 -> EBADF
100 open /n r 0 -> EMFILE
100 open /n - 0 -> EINVAL
100 close 5 -> ok
100 open / r 0 -> fd 5
user 0 0
# what was left open is closed with its session
100 open / r 0 -> fd 0
100 close 0 -> ok

volume 1024 64
# No descriptor is open.
user 0 0
100 close 0 -> EBADF
100 dup 0 -> EBADF
100 read 0 65537 -> EBADF
100 fill 0 65537 61 -> EBADF
100 seek 0 set -1 -> EBADF
100 fstat 0 -> EBADF
100 readdir 0 -> EBADF
100 close 4294967295 -> EBADF

volume 1024 64
# Reads, writes and seeks.
user 0 0
100 open /f rwc 644 -> fd 0
110 write 0 616263 -> wrote 3
120 seek 0 cur 0 -> at 3
120 read 0 5 -> bytes -
120 seek 0 set 1 -> at 1
120 read 0 1 -> bytes 62
120 read 0 65536 -> bytes 63
120 read 0 65537 -> EINVAL
120 seek 0 end -3 -> at 0
120 read 0 0 -> bytes -
120 seek 0 cur -1 -> EINVAL
120 seek 0 set 2147483648 -> EINVAL
120 seek 0 set 9223372036854775807 -> EINVAL
120 seek 0 set 2147483647 -> at 2147483647
120 fill 0 65537 61 -> EINVAL
120 write 0 61 -> EFBIG
120 write 0 - -> wrote 0
# neither reads nor what wrote nothing changed a time
120 fstat 0 -> inode 2 mode 0100644 links 1 uid 0 gid 0 size 3 times 100 110 110
120 open /f r 0 -> fd 1
120 write 1 61 -> EBADF
120 fill 1 65537 61 -> EBADF
120 readdir 1 -> ENOTDIR
120 open /f w 0 -> fd 2
120 read 2 1 -> EBADF
120 readdir 2 -> EBADF
120 open / r 0 -> fd 3
120 read 3 65537 -> EISDIR
120 seek 3 set -1 -> EISDIR
120 write 3 61 -> EBADF
120 readdir 3 -> names 1 66:2

volume 1024 64
# A copy of a descriptor shares its position; another open file has its own.
user 0 0
100 open /f rwc 644 -> fd 0
100 write 0 616263 -> wrote 3
100 dup 0 -> fd 1
100 open /f r 0 -> fd 2
100 seek 0 set 2 -> at 2
100 read 1 1 -> bytes 63
100 seek 0 cur 0 -> at 3
100 seek 2 cur 0 -> at 0
100 close 0 -> ok
100 close 0 -> EBADF
100 seek 1 end -1 -> at 2
100 dup 1 -> fd 0
100 read 0 9 -> bytes 63
100 read 2 9 -> bytes 616263

volume 1024 64
# Two descriptors append to one file.
user 0 0
100 open /g rwac 644 -> fd 0
100 open /g wa 0 -> fd 1
100 write 0 61 -> wrote 1
100 write 1 62 -> wrote 1
100 seek 0 set 0 -> at 0
100 write 0 63 -> wrote 1
100 seek 0 cur 0 -> at 3
100 seek 1 cur 0 -> at 2
100 seek 0 set 0 -> at 0
100 read 0 9 -> bytes 616263
";
