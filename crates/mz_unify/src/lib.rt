//! The unify machine as it runs over a store: whether a stream of unify commands matches.
//!
//! `unify` says that a stream runs, exactly where the machine of `mz_machine_theory` does, and leaves its heap and
//! items; or it gives the first command that fails and its rule; else memory ran out. So it runs exactly where target
//! and hypotheses are an instance of what the stream spells (`exact`). Steps are counted, one a byte at the most.
//!
//! Expressions are ids, so a reference is one comparison of numbers. What a dummy must be disjoint from is one word of
//! bits. `unify_in` is for many streams: its lists are borrowed and keep their memory. Nothing is claimed of heap and
//! items after a refusal.
//!
//! Start with `specs/Stored.antt`, which says what ids stand for, then `src/rows.rt`, one function a command.
#![tactic(auto)]

mod command;
mod rows;
mod running;
mod stop;
mod unified;

pub use command::{Command, decoded};
pub use rows::{heap_at, kept_disjoint};
pub use running::{unify, unify_in};
pub use stop::{Stop, push, push_operands};
pub use unified::{Unified, UnifyMode};
