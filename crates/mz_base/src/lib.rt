//! What every part of the project uses: ordered checks, names, lemmas on lists, and how maps hash names.
//!
//! Ordered checks are facts asked in order. The first that fails gives the refusal. The whole project refuses by this
//! one notion, so each input has at most one first refusal. A name is an identifier, and its number is its index among
//! the names of its space. Specifications and proof texts both rest on this, so they speak of the same names and
//! numbers.
//!
//! A `Mode` says whether proofs may have gaps. A `Hashing` begins with a seed, and no contract says more of it: no
//! answer but out of memory depends on the seed.
//!
//! The lemmas on lists are those that the kit's library doesn't have. Start with `specs/Checks.antt` and
//! `specs/Names.antt`. What other crates cite is listed in `proofs/Offered.antt`.
#![tactic(auto)]

mod hashing;
mod identifier;
mod mode;

pub use hashing::Hashing;
pub use identifier::{is_digit, is_identifier, is_name_byte, is_name_start};
pub use mode::Mode;
