//! Math strings read: the tree that notations make of tokens, and the expression for which it stands by coercions.
//!
//! `parse_formula` gives exactly the expression that a string means, or exactly the first rule that it breaks. The
//! definitions, and why there is one tree at most, stand in `mz_math_theory`. The laws of whole strings stand here, in
//! `src/laws.rt`.
//!
//! The parser is one loop with a list of what is open, so that no string is too deep for the stack (`src/parser.rt`).
//! What calls itself goes over the tree, of at most 4,096 levels (`src/elaborate.rt`). Not claimed: how long a call
//! takes, and that thousands of coercions in a row fit the stack.
//!
//! Start with `src/formula.rt`, then `specs/Steps.antt`, which says what the parser knows at each step.
#![tactic(auto)]

mod elaborate;
mod form;
mod formula;
mod height;
mod laws;
mod parser;
mod permute;
mod vocabulary;

pub use formula::parse_formula;
pub use laws::{
    each_string_has_one_meaning, each_string_is_read_or_refused, each_token_list_has_one_tree,
    statements_are_judged, statements_keep_tables,
};
pub use mz_lex::{Bytes, Delimiters, MathToken};
pub use mz_math_notation::{Notations, Scope};
pub use mz_math_theory::{
    Coercion, Element, ElementRef, Elements, Literal, Notation, NoteFault, Parsed, Tail, Wanted,
};
