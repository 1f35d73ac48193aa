//! The body of one statement as a compiler writes it: each expression built once; and what streams and bodies share.
//!
//! `definition_body`, `axiom_body` and `theorem_body` write exactly the commands that `BodyWriting.antt` of
//! `mz_emit_theory` says. So the body builds no application twice, uses an assertion or a gap exactly where the proof
//! does, and is short (`src/laws.rt`). [`BinderWords`] are the words of binders, [`Shared`] the statement's
//! expressions, each kept once, [`Heap`] where they stand.
//!
//! There is no recursion over a proof: what is to do is a list of tasks (`src/work_list.rt`, `src/body.rt`). Lets are
//! cells, each with the next one outward (`src/let_scopes.rt`). A large conclusion that is cited again with the same
//! arguments is found again (`src/instances.rt`).
//!
//! Start with `specs/TaskInvariant.antt` and `specs/Going.antt`, then `src/body.rt`. PROOFS tells why it ends.
#![tactic(auto)]

mod body;
mod env_prefix;
mod heap;
mod instances;
mod laws;
mod let_scopes;
mod shared;
mod statement;
mod table;
mod words;
mod work_list;

pub use body::Before;
pub use env_prefix::EnvPrefix;
pub use heap::Heap;
pub use laws::{
    bodies_are_short, bodies_are_written, bodies_use_what_proofs_use, operands_take_four_bytes,
    sorries_stand_for_gaps,
};
pub use shared::Shared;
pub use statement::{axiom_body, definition_body, theorem_body};
pub use table::{TermEntry, TermTable};
pub use words::BinderWords;
