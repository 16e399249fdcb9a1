//! Names that were walked before they changed: a server that keeps what it found of them answers as one that doesn't. All times are 100.

/// The plays.
pub(crate) const PLAYS: &str = "volume 1024 64
# A directory has another name, and another directory its name.
user 0 0
100 mkdir /a 755 -> ok
100 stat /a -> inode 2 mode 0040755 links 2 uid 0 gid 0 size 128 times 100 100 100
100 rename /a /b -> ok
100 stat /a -> ENOENT
100 mkdir /a 755 -> ok
100 stat /a -> inode 3 mode 0040755 links 2 uid 0 gid 0 size 128 times 100 100 100
100 stat /b -> inode 2 mode 0040755 links 2 uid 0 gid 0 size 128 times 100 100 100
# a directory takes the place of an empty one
100 rename /b /a -> ok
100 stat /a -> inode 2 mode 0040755 links 2 uid 0 gid 0 size 128 times 100 100 100
100 stat /b -> ENOENT

volume 1024 64
# Directories move, with the names below them.
user 0 0
100 mkdir /d 755 -> ok
100 mkdir /d/e 755 -> ok
100 open /d/e/f wc 644 -> fd 0
100 stat /d/e/f -> inode 4 mode 0100644 links 1 uid 0 gid 0 size 0 times 100 100 100
100 rename /d /g -> ok
100 stat /d/e/f -> ENOENT
100 stat /g/e/f -> inode 4 mode 0100644 links 1 uid 0 gid 0 size 0 times 100 100 100
100 rename /g/e /h -> ok
100 stat /g/e/f -> ENOENT
100 stat /h/f -> inode 4 mode 0100644 links 1 uid 0 gid 0 size 0 times 100 100 100
100 stat /h/.. -> inode 1 mode 0040755 links 4 uid 0 gid 0 size 256 times 50 100 100

volume 1024 64
# A file's name goes while the file is open, and comes back as another file's.
user 0 0
100 open /f wc 644 -> fd 0
100 stat /f -> inode 2 mode 0100644 links 1 uid 0 gid 0 size 0 times 100 100 100
100 unlink /f -> ok
100 stat /f -> ENOENT
100 open /f wc 600 -> fd 1
100 stat /f -> inode 3 mode 0100600 links 1 uid 0 gid 0 size 0 times 100 100 100
100 fstat 0 -> inode 2 mode 0100644 links 0 uid 0 gid 0 size 0 times 100 100 100
100 close 0 -> ok
100 stat /f -> inode 3 mode 0100600 links 1 uid 0 gid 0 size 0 times 100 100 100
# the number of the file that is gone comes back under another name
100 open /g wc 644 -> fd 0
100 stat /g -> inode 2 mode 0100644 links 1 uid 0 gid 0 size 0 times 100 100 100
100 stat /f -> inode 3 mode 0100600 links 1 uid 0 gid 0 size 0 times 100 100 100

volume 1024 64
# A directory goes, and another comes under its name and its number.
user 0 0
100 mkdir /d 755 -> ok
100 mkdir /d/e 755 -> ok
100 stat /d/e -> inode 3 mode 0040755 links 2 uid 0 gid 0 size 128 times 100 100 100
100 rmdir /d/e -> ok
100 stat /d/e -> ENOENT
100 rmdir /d -> ok
100 stat /d/e -> ENOENT
100 mkdir /d 755 -> ok
100 stat /d -> inode 2 mode 0040755 links 2 uid 0 gid 0 size 128 times 100 100 100
100 stat /d/e -> ENOENT
100 mkdir /x 755 -> ok
100 mkdir /d/e 700 -> ok
100 stat /d/e -> inode 4 mode 0040700 links 2 uid 0 gid 0 size 128 times 100 100 100
# the number of the directory that is gone is a file's
100 rmdir /d/e -> ok
100 rmdir /d -> ok
100 open /f wc 644 -> fd 0
100 stat /f -> inode 2 mode 0100644 links 1 uid 0 gid 0 size 0 times 100 100 100
100 stat /f/e -> ENOTDIR
100 stat /d/e -> ENOENT

volume 1024 64
# A name goes, and the last name takes the place of its entry; links, symbolic links and moves onto a name.
user 0 0
100 open /a wc 644 -> fd 0
100 open /b wc 600 -> fd 1
100 open /c wc 400 -> fd 2
100 stat /a -> inode 2 mode 0100644 links 1 uid 0 gid 0 size 0 times 100 100 100
100 stat /b -> inode 3 mode 0100600 links 1 uid 0 gid 0 size 0 times 100 100 100
100 stat /c -> inode 4 mode 0100400 links 1 uid 0 gid 0 size 0 times 100 100 100
100 unlink /a -> ok
100 stat /c -> inode 4 mode 0100400 links 1 uid 0 gid 0 size 0 times 100 100 100
100 stat /b -> inode 3 mode 0100600 links 1 uid 0 gid 0 size 0 times 100 100 100
100 stat /a -> ENOENT
100 link /b /a -> ok
100 stat /a -> inode 3 mode 0100600 links 2 uid 0 gid 0 size 0 times 100 100 100
100 rename /c /a -> ok
100 stat /a -> inode 4 mode 0100400 links 1 uid 0 gid 0 size 0 times 100 100 100
100 stat /c -> ENOENT
100 unlink /a -> ok
100 symlink b /a -> ok
100 stat /a -> inode 3 mode 0100600 links 1 uid 0 gid 0 size 0 times 100 100 100
100 unlink /b -> ok
100 stat /a -> ENOENT
100 readlink /a -> bytes 62

volume 1024 64
# Another user's walk found the name.
user 0 0
100 mkdir /d 700 -> ok
100 mkdir /d/e 755 -> ok
100 stat /d/e -> inode 3 mode 0040755 links 2 uid 0 gid 0 size 128 times 100 100 100
user 5 7
100 stat /d -> inode 2 mode 0040700 links 3 uid 0 gid 0 size 192 times 100 100 100
100 stat /d/e -> EACCES
100 stat /d/n -> EACCES
user 0 0
100 stat /d/e -> inode 3 mode 0040755 links 2 uid 0 gid 0 size 128 times 100 100 100
100 chmod /d 711 -> ok
user 5 7
100 stat /d/e -> inode 3 mode 0040755 links 2 uid 0 gid 0 size 128 times 100 100 100
";
