// What compiling a text answers.
use crate::rule::L;
use mz_sexpr::TextRefusal;

/// What compiling a text answers.
#[derive(Debug, Drop)]
pub enum Compiled {
    /// The text is well typed and within the limits: the binary.
    Bytes(Vec<u8>),
    /// The first rule that the text breaks.
    Refused(TextRefusal),
    /// The first limit that the well-typed text passes, and by which count.
    Limit { rule: L, count: u128 },
    /// No memory was left.
    Mem,
}
