//! Refusals of output as text: each is told by its name.
use output::OutputRefusal;
use std::test::Fail;
use tests_texts::are_told;

/// Why not all of a text was written.
static OUTPUTS: [(OutputRefusal, &str); 2] = [
    (OutputRefusal::OutOfMemory, "OutOfMemory"),
    (OutputRefusal::NotWritten, "NotWritten"),
];

#[test]
fn refusals_are_named(rt: HostRuntime) -> Result<(), Fail> {
    are_told(rt.alloc(), &OUTPUTS)
}
