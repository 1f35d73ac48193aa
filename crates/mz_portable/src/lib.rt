//! The verdict by identity: what verifiers that compare by identity say of a specification and a binary.
//!
//! `portable_bytes` is the verdict of `mz_match` with one thing changed: bodies run by identity ([`PortableBodies`]).
//! Its answers are exact (`specs/Portable.antt`). What it accepts the standard machine accepts too, with the same
//! numbers, so all that is promised of a yes holds.
//!
//! It stands apart so that `verify` has no code of the second machine below it. Start with `src/portable.rt`.
#![tactic(auto)]

mod bodies;
mod laws;
mod portable;

pub use bodies::PortableBodies;
pub use laws::{each_pair_has_one_verdict_by_identity, portable_pairs_are_accepted};
pub use portable::portable_bytes;
