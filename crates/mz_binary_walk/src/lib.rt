//! The list of an accepted binary, read once more: one statement after another, with no rule tested again.
//!
//! [`Passed`] says how far the list was gone over. `next` gives the next statement's head, or the end. No rule is
//! tested again: that nothing fails is asked of the caller, who knows that the file is good.
//!
//! `axioms` reads citations so, and `decompile` names and proofs. What stays true along the way is said once, in
//! `proofs/OnWay.antt`. Start with `specs/Walk.antt`.
#![tactic(auto)]

mod local;
mod passed;

pub use local::is_local;
pub use passed::Passed;
