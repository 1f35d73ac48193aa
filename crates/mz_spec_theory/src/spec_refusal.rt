// Why a text is no specification.
use mz_lex::S;

/// The statement at fault, counted from 1, the byte at which it is reported, and the rule.
#[derive(Clone, Copy, Debug, PartialEq, Eq)]
pub struct SpecRefusal {
    pub statement: u32,
    pub at: u32,
    pub rule: S,
}
