//! The atom that is no name.

/// The atom of a parameter that has no name.
pub const HIDDEN: &[u8] = b"_";
