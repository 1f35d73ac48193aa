//! The type rules of one statement of a proof text: each at its node, in one order, over the statements before it.
//!
//! `check_statement` says that all rules hold, or exactly the first that doesn't and its place; else memory ran out.
//! The rules are those of `mz_mmu_theory` (`Rules.antt`).
//!
//! No instance is written out. What a proof proves is an expression with the arguments that are put in
//! (`src/claim.rt`), and claims are compared by a loop over a list, since a deep claim may stand at the bottom of a
//! deep proof. The walks over expressions, conversions and proofs call themselves, at most 4,096 deep. What they ask
//! beside their parts stands in functions that aren't inlined, so that a level takes little stack.
//!
//! Start with `src/statements.rt`, then `src/proofs.rt`.
#![tactic(auto)]

mod binders;
mod claim;
mod convs;
mod cursor;
mod exprs;
mod lets;
mod proofs;
mod resolving;
mod statements;

pub use cursor::Cursor;
pub use statements::{check_statement, proof_in};
