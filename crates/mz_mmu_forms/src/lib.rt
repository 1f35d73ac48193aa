//! Forms and names of a proof text read: the expression, binders, conversion or proof that a node is.
//!
//! A [`Reader`] answers exactly what the node is, with names resolved to numbers. Or it answers the first of U3, U15,
//! U4, U5 that it breaks, at its place. Else memory ran out. [`NameTable`] has the names so far and the mode. In a
//! draft `(:sorry ..)` is a gap, otherwise it is refused (U15). The definitions are those of `mz_mmu_theory`.
//!
//! Expressions, conversions and proofs are read by a loop each, with a list of the forms that are open, so no depth
//! uses up the stack. What does call itself is letting go of a proof, at most 4,096 levels deep. (`rt try --test`
//! builds otherwise and overflows there; `rt test` doesn't.)
//!
//! Start with `src/reader.rt`, then `specs/Steps.antt`, which says how far an expression was read.
#![tactic(auto)]

mod binders;
mod convs;
mod exprs;
mod name;
mod proofs;
mod reader;
mod scope;
mod space;

pub use mz_base::Hashing;
pub use reader::Reader;
pub use scope::{NameTable, Scope};
pub use space::Space;
