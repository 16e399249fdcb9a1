//! Why a check isn't made, as text.
use fsck::OutOfMemory;
use std::test::Fail;
use tests_texts::are_told;

static CHECKS: [(OutOfMemory, &str); 1] = [(OutOfMemory, "OutOfMemory")];

#[test]
fn refusals_are_named(rt: HostRuntime) -> Result<(), Fail> {
    are_told(rt.alloc(), &CHECKS)
}
