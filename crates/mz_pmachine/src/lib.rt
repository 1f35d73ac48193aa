//! The proof machine by identity, as it runs: over the nodes of a body, for verifiers that compare so.
//!
//! `check_portable` says exactly whether a body runs by the profile `portable`, or the first rule that fails and its
//! place, and counts exactly the commands executed. It lets no gap through. What it accepts `check_body` of
//! `mz_machine` accepts too: that is a law of `mz_pmachine_theory`.
//!
//! It has the modules of `mz_machine` and shares its lemmas, which hold for any profile. Where that compares two ids
//! of a store, this compares two places in the body. One fact more is kept from command to command: what was made so
//! far has lower numbers than what comes.
//!
//! Start with `specs/OverNodes.antt`, which says what nodes stand for, then `src/body.rt`.
#![tactic(auto)]

mod arguments;
mod body;
mod command;
mod commands;
mod disjoint;
mod end;
mod equations;
mod lack;
mod machine;
mod scratch;
mod stack;

pub use body::{check_portable, check_portable_in};
pub use scratch::PortableScratch;
