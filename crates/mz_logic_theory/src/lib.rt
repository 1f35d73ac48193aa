//! The logic of Metamath Zero as definitions: expressions, declarations, what makes one legal, and derivations.
//!
//! The promise of a yes is made in these words. So nothing here checks anything: `mz_logic` does, and the laws are
//! those of `mz_logic`. The code has the data types alone: declarations and expressions as all other crates keep
//! them. A chain of coercions is one node. Whoever walks over an expression asks for its shape, so no walk knows of
//! chains.
//!
//! Read in this order: `specs/Tree.antt`, `specs/Sorts.antt`, `specs/Variables.antt`, `specs/Legality.antt`,
//! `specs/Derivations.antt`, `specs/LegalLists.antt`, `specs/Closed.antt`. DEFINITIONS goes through them. The largest
//! proof inlines all lemmas of a derivation (`proofs/Graft.antt`); PROOFS tells how.
#![tactic(auto)]

mod binder;
mod bound_place;
mod context;
mod decl;
mod env;
mod expr;
mod hyps;
mod room;
mod word;

pub use binder::{Binder, Binders, Deps, ResultType, SortMods};
pub use bound_place::is_bound_at;
pub use context::Context;
pub use decl::{Decl, DeclFault, TermDecl, TermForm, ThmDecl, ThmForm};
pub use env::Env;
pub use expr::{Expr, ExprKind, ExprRef, Exprs, Operands, Shape, TermPath};
pub use hyps::Hyps;
pub use room::push_tightly;
pub use word::{Terms, Word};
