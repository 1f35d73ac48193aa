//! Shared expressions: each expression of a context is kept once, so that comparing two is comparing two numbers.
//!
//! `begin` takes the context from a row's words, `dummy` adds a variable, and `app` gives the id of a term over ids.
//! Two ids are equal exactly where their trees are. Each id has its sort, and a word that says which bound variables
//! it has, or has free. After out of memory `dummy` and `app` have changed nothing. No tree is written out, so an
//! expression of any size takes memory for its different parts alone.
//!
//! A node has 32 bytes, arguments stand in one list, and buckets are found by a seeded hash. A new term is put in
//! only where it isn't met along its bucket's chain, so none is there twice.
//!
//! A body can build expressions of exponential size: only shared they can be compared at all. Start with
//! `specs/Sharing.antt`, which is all that callers see; then `specs/Chains.antt` and `src/store.rt`.
#![tactic(auto)]

mod buckets;
mod deps;
mod expressions;
mod item;
mod laws;
mod node;
mod seed;
mod store;
mod table;

pub use item::{DepsMode, Id, Item};
pub use laws::{old_ids_keep_their_trees, words_meet};
pub use seed::Seed;
pub use store::Store;
