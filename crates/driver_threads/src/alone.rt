//! What threads shared, once they have let it go.

ghost use Rattle.std.specs.Prelude.{◌≡◌};
ghost use Rattle.std.specs.Arc.{arc_value};

use std::sync::{Arc, Wait};
use std::thread::yield_now;

/// What lies in a handle, once it is the only one: it waits until the others were let go, and lets other threads run meanwhile.
pub fn once_alone<T: Drop, R: Wait>(rt: &R, shared: Arc<T>) -> T
    ensures { result ≡ arc_value shared }
{
    let mut left = shared;
    for _ in rt.forever() {
        match Arc::try_unwrap(left) {
            Ok(value) => return value,
            Err(again) => left = again,
        }
        yield_now();
    }
    unreachable!()
}
