//! Names that come and go, and names that lead elsewhere.

use crate::images::{ROOT_ALONE, volume};
use crate::volumes::{Call, DONE, Seen, Step, UNSOUND};
use std::test::Fail;

/// The empty volume's root gets 14 names, which lead to the inodes 2 to 15.
static FOURTEEN: [Step; 14] = [
    (Call::Insert(b"n01", 2), DONE),
    (Call::Insert(b"n02", 3), DONE),
    (Call::Insert(b"n03", 4), DONE),
    (Call::Insert(b"n04", 5), DONE),
    (Call::Insert(b"n05", 6), DONE),
    (Call::Insert(b"n06", 7), DONE),
    (Call::Insert(b"n07", 8), DONE),
    (Call::Insert(b"n08", 9), DONE),
    (Call::Insert(b"n09", 10), DONE),
    (Call::Insert(b"n10", 11), DONE),
    (Call::Insert(b"n11", 12), DONE),
    (Call::Insert(b"n12", 13), DONE),
    (Call::Insert(b"n13", 14), DONE),
    (Call::Insert(b"n14", 15), DONE),
];

/// What follows on these.
static BEHIND: [(&str, &[Step]); 3] = [
    (
        "fourteen names fill a zone",
        &[
            // the root's size is 1024 and its times 50, 70, 70; entries 2 and 15; zone 6 alone is marked
            (
                Call::Bytes(4104, &[0, 4, 0, 0, 50, 0, 0, 0, 70, 0, 0, 0, 70, 0, 0, 0]),
                DONE,
            ),
            (Call::Bytes(6272, b"\x02\0\0\0n01\0"), DONE),
            (Call::Bytes(7104, b"\x0f\0\0\0n14\0"), DONE),
            (Call::Bytes(3072, &[3]), DONE),
        ],
    ),
    (
        "the fifteenth takes a zone",
        &[
            (Call::Insert(b"n15", 16), DONE),
            // the root's size is 1088; zone 7 is marked, the second of the root's, and has the entry alone
            (Call::Bytes(4104, &[0x40, 4, 0, 0]), DONE),
            (Call::Bytes(4120, &[6, 0, 0, 0, 7, 0, 0, 0]), DONE),
            (Call::Bytes(3072, &[7]), DONE),
            (Call::Bytes(7168, b"\x10\0\0\0n15\0"), DONE),
            (Call::Bytes(7175, &[0; 1017]), DONE),
            (Call::Find(b"n15"), Ok(Seen::There(16))),
            (Call::Find(b"n16"), Ok(Seen::MissingIn(1))),
        ],
    ),
    (
        "the first of fifteen goes",
        &[
            (Call::Insert(b"n15", 16), DONE),
            (Call::Remove(b"n01"), DONE),
            // the last entry takes the place of the first name, and its zone is free again; the root's times are 50, 90, 90
            (
                Call::Bytes(4104, &[0, 4, 0, 0, 50, 0, 0, 0, 90, 0, 0, 0, 90, 0, 0, 0]),
                DONE,
            ),
            (Call::Bytes(4120, &[6, 0, 0, 0, 0, 0, 0, 0]), DONE),
            (Call::Bytes(3072, &[3]), DONE),
            (Call::Bytes(6272, b"\x10\0\0\0n15\0"), DONE),
            (Call::Find(b"n01"), Ok(Seen::MissingIn(1))),
            (Call::Find(b"n15"), Ok(Seen::There(16))),
        ],
    ),
];

/// What follows on the root's two entries.
static ROWS: [(&str, &[Step]); 4] = [
    (
        "the last name goes alone",
        &[
            (Call::Insert(b"a", 2), DONE),
            (Call::Insert(b"b", 3), DONE),
            (Call::Remove(b"b"), DONE),
            (Call::Bytes(4104, &[192, 0, 0, 0]), DONE),
            (Call::Find(b"a"), Ok(Seen::There(2))),
            (Call::Find(b"b"), Ok(Seen::MissingIn(1))),
            (Call::Remove(b"b"), UNSOUND),
            (Call::Remove(b"a"), DONE),
            (Call::Bytes(4104, &[128, 0, 0, 0]), DONE),
            (Call::Remove(b".."), UNSOUND),
        ],
    ),
    (
        "a name of 60 bytes fills its entry",
        &[
            (Call::Insert(&[b'a'; 60], 2), DONE),
            (Call::Bytes(6276, &[b'a'; 60]), DONE),
            (Call::Find(&[b'a'; 60]), Ok(Seen::There(2))),
            (Call::Find(&[b'a'; 59]), Ok(Seen::MissingIn(1))),
        ],
    ),
    (
        "names that lead elsewhere",
        &[
            (Call::Insert(b"a", 2), DONE),
            (Call::Insert(b"b", 3), DONE),
            (Call::Replace(b"a", 259), DONE),
            // size 256 and times 50, 80, 80; both entries
            (
                Call::Bytes(4104, &[0, 1, 0, 0, 50, 0, 0, 0, 80, 0, 0, 0, 80, 0, 0, 0]),
                DONE,
            ),
            (Call::Bytes(6272, b"\x03\x01\0\0a\0"), DONE),
            (Call::Bytes(6336, b"\x03\0\0\0b\0"), DONE),
            (Call::Find(b"a"), Ok(Seen::There(259))),
            // a name that isn't there, and . and .., which are none
            (Call::Replace(b"c", 4), UNSOUND),
            (Call::Replace(b".", 4), UNSOUND),
            (Call::Replace(b"..", 4), UNSOUND),
        ],
    ),
    (
        "another parent",
        &[
            (Call::SetParent(513), Ok(Seen::There(513))),
            // the times stay, and so does entry 0
            (
                Call::Bytes(4108, &[50, 0, 0, 0, 50, 0, 0, 0, 50, 0, 0, 0]),
                DONE,
            ),
            (Call::Bytes(6144, b"\x01\0\0\0.\0"), DONE),
            (Call::Bytes(6208, b"\x01\x02\0\0..\0"), DONE),
        ],
    ),
];

#[test]
fn names_come_and_go(rt: HostRuntime) -> Result<(), Fail> {
    for (name, steps) in &BEHIND {
        let mut volume = volume(rt.alloc(), &ROOT_ALONE, &[])?;
        volume.gives(name, &FOURTEEN)?;
        volume.gives(name, steps)?;
    }
    for (name, steps) in &ROWS {
        volume(rt.alloc(), &ROOT_ALONE, &[])?.gives(name, steps)?;
    }
    Ok(())
}
