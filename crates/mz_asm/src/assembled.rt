// What assembling a text answers.
use crate::rule::A;

/// What assembling a text answers.
#[derive(Debug, Drop)]
pub enum Assembled {
    /// The text is a listing: the binary of which it is the listing.
    Bytes(Vec<u8>),
    /// The first line, from 1, that breaks a rule, and the first rule that it breaks.
    Refused { line: u32, rule: A },
    /// The text is a listing, and its binary would have so many bytes, more than 4,294,967,295.
    Limit { count: u128 },
    /// No memory was left.
    Mem,
}
