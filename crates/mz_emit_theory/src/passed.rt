use crate::rule::L;

/// A limit that a text passes, and by which count.
#[derive(Clone, Copy)]
pub struct Passed {
    pub rule: L,
    pub count: u128,
}
