//! Coercions and their paths: of two sorts the one path between them (mm0.md, section on coercions).
//!
//! `Coercions::add` adds a coercion exactly where at most one path leads between two sorts with it too. `distance`
//! gives a path's length, `wrap` an expression wrapped in it, `reached_from` all sorts to which paths lead. Each is
//! exact; a call that fails for memory changes nothing.
//!
//! Sorts stand in groups, so that a coercion between two groups is added at once. Below 128 sorts a square has the
//! first coercion for each pair, beyond that a walk finds it. The terms of a path are kept and shared: an expression
//! in a long path is one node. How long a call takes isn't proved: a new coercion within a group goes over all that
//! it could reach.
//!
//! Start with `specs/Firsts.antt`, then `src/coercions.rt`.
#![tactic(auto)]

mod clash;
mod coercions;
mod graph;
mod groups;
mod hops;
mod next_hop;
mod path_back;
mod paths;
mod reached;

pub use coercions::{Coercions, distance, reached_from, reaches, wrap};
pub use paths::Paths;
pub use reached::Reached;
