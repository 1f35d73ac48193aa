//! The rows before a statement, and its own: read in place, for both proof machines.
//!
//! An [`Environment`] is the file with counts of rows: so many sorts, terms and assertions have had their statement. It
//! lends their words and streams exactly as the file has them. For the store it is a table of terms. `own_arity`,
//! `read_words` and `own_stream` do the same for the statement's own row.
//!
//! Both machines stand on it, the one over a store and the one by identity. What they say alike stands here once:
//! items of the stack, the [`Heap`], disjoint arguments by their words, and how a body goes on from command to
//! command.
//!
//! Start with `specs/Before.antt` and `specs/OwnRow.antt`.
#![tactic(auto)]

mod command;
mod heap;
mod items;
mod own;
mod places;
mod rows_before;
mod scratch;

pub use command::{Converting, Making};
pub use heap::{FirstIds, Heap};
pub use items::{is_obligation, kept_at, put_back, top};
pub use own::{
    BodyKind, deps_mode, first_ids, first_items, kind_by, own_arity, own_proofs, own_stream,
    own_words_at, read_words,
};
pub use places::{dependencies, may_meet};
pub use rows_before::Environment;
pub use scratch::CommandBuffers;
