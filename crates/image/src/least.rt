//! Looking for the least number that passes a test.

ghost use Rattle.image.specs.Least.{IsFirst};

/// The least number below `end` that passes the test.
pub fn least_passing<F: Fn(u32) -> bool>(end: u32, test: F) -> Option<u32>
    requires { F.IsAlwaysCallable test }
    ensures { IsFirst (F.post test) end result }
{
    for n in 0..end {
        if test(n) {
            return Some(n);
        }
    }
    None
}
