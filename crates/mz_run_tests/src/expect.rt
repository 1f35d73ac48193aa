// What fails a test.
use std::process::Abort;

/// Fails, naming the case, unless this holds.
pub fn expect_that(rt: &impl Abort, holds: bool, what: &str) {
    assert!(rt; holds, "{what}");
}

/// Fails, naming the part of the case, unless this holds.
pub fn expect_of(rt: &impl Abort, holds: bool, part: &str, what: &str) {
    assert!(rt; holds, "{part} for {what}");
}
