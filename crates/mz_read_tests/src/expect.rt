// What fails a test.
use std::process::Abort;

/// Fails, naming the case, unless this holds.
pub fn expect(rt: &impl Abort, holds: bool, what: &str) {
    assert!(rt; holds, "{what}");
}

/// Fails, naming the part of the case, unless this holds.
pub fn expect_part(rt: &impl Abort, holds: bool, part: &str, what: &str) {
    assert!(rt; holds, "{part}: {what}");
}

/// Fails, showing both, unless the bytes are those that are wanted.
pub fn expect_bytes(rt: &impl Abort, found: &[u8], wanted: &[u8], what: &str) {
    assert_eq!(rt; found, wanted, "{what}");
}
