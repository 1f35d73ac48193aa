//! A declaration beside a row of the binary: its parts compared with the row's words and unify stream, read in place.
//!
//! `match_params` and `match_signature` compare binders with words. `same_body`, `same_first` and `same_hyps` compare
//! an expression of the specification with what a stream says at its place. Each answers yes exactly where the two
//! are the same (`specs/Comparison.antt`). None needs memory for its answer: a mark that couldn't be kept is looked
//! for.
//!
//! The recursion is on the specification's tree, and a reference goes on at its mark. So a stream of exponential size
//! is compared without being written out. Hypotheses of one formula are compared once with a place, then by number. A
//! row has 55 dummies at most, so their pairs stand in an array.
//!
//! Start with `specs/Streams.antt`, then `src/expression.rt`.
#![tactic(auto)]

mod by_number;
mod count;
mod expression;
mod formulas;
mod heap;
mod pieces;
mod publics;
mod signature;
mod stream;

pub use count::count_all;
pub use expression::{Sides, same_body, same_first, same_hyps};
pub use heap::kept_marks;
pub use publics::Publics;
pub use signature::{match_params, match_signature};
