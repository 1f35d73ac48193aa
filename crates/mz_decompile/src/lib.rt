//! From a binary to a proof text: what it proves of a specification is stated, proofs and all.
//!
//! `decompile_bytes` gives exactly the text of an accepted pair, the pair's first refusal, or what stands first
//! against the text: lists more than 4,096 deep, or more than 4,294,967,295 bytes, of it or of the bound on its
//! compiled file. Else memory ran out. The text is well typed, and what it compiles to is accepted against the
//! specification.
//!
//! It goes over the file twice. The first pass makes each statement's phrase and weighs it, without writing anything;
//! the second writes. A text can be exponentially longer than a binary that shares: then the limit is reported.
//!
//! `specs/Restated.antt` says what the text states, and what stands against it. Start there, then `src/decompiled.rt`.
#![tactic(auto)]

mod axiom;
mod decompiled;
mod dummies;
mod hypotheses;
mod laws;
mod measure;
mod params;
mod parts;
mod printed;
mod proof;
mod size;
mod sort;
mod statement;
mod term;
mod text_laws;
mod text_or_obstacle;
mod theorem;
mod weight;
mod write;

pub use decompiled::{Decompiled, decompile_bytes};
pub use laws::{decompilation_is_decided, good_theorems_are_traced};
pub use printed::{decompiled_line, deep_line};
pub use text_laws::{accepted_are_restated, plain_texts_are_texts};
