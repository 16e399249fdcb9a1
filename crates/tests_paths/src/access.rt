//! Who may do what with a file of user 5 and group 7 with mode 604.

use path::{Wish, is_owner, may};
use std::test::Fail;
use tree::User;

/// A user and a group, a wish, and whether it is granted.
static MAY: [(u16, u16, Wish, bool); 8] = [
    // the first that fits speaks
    (5, 7, Wish::Read, true),
    (5, 8, Wish::Write, true),
    (5, 7, Wish::Search, false),
    (9, 7, Wish::Read, false),
    (9, 8, Wish::Read, true),
    (9, 8, Wish::Write, false),
    // user 0 may all
    (0, 9, Wish::Read, true),
    (0, 9, Wish::Search, true),
];

/// A user and a group, and whether it is the owner, or user 0.
static OWNS: [(u16, u16, bool); 3] = [(0, 9, true), (5, 9, true), (6, 7, false)];

#[test]
fn who_may_do_what() -> Result<(), Fail> {
    for (number, (uid, gid, wish, wanted)) in MAY.iter().enumerate() {
        let user = User {
            uid: *uid,
            gid: *gid,
        };
        if may(user, 0o604, 5, 7, *wish) != *wanted {
            return Err(Fail::new(format_args!("wish {number}")));
        }
    }
    for (uid, gid, wanted) in &OWNS {
        let user = User {
            uid: *uid,
            gid: *gid,
        };
        if is_owner(user, 5) != *wanted {
            return Err(Fail::new(format_args!("owner {uid}")));
        }
    }
    Ok(())
}
