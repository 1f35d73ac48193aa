//! From a listing to its binary: read line by line, written in the normal layout.
//!
//! `assemble_bytes` gives exactly the binary of a listing, in the normal layout and with shortest commands; or the
//! number of the first line that breaks a rule, and the rule (A1, A2, A3); or that the binary would be too long. Else
//! memory ran out. It asks nothing else: whether the binary is good is the verifier's to say.
//!
//! The laws (`specs/Laws.antt`): exactly one answer fits a text, the listing of a binary in the normal layout
//! assembles to it, and compiled files are in this layout. `specs/NormalBytes.antt` says so by what stands where, for
//! a reader with the file at hand.
//!
//! With it files are made by hand, good and bad, for tests. Start with `specs/Assembling.antt`, then
//! `src/assemble.rt`.
#![tactic(auto)]

mod assemble;
mod assembled;
mod builder;
mod bytes;
mod expected;
mod kind;
mod laws;
mod line;
mod number;
mod printed;
mod rows;
mod rule;
mod stop;

pub use assemble::assemble_bytes;
pub use assembled::Assembled;
pub use laws::{
    assembly_is_one, compiled_files_are_normal, lines_are_one, listings_are_assembled,
    normal_files_are_binaries,
};
pub use printed::assembled_line;
pub use rule::A;
