//! A specification for a proof text: its public statements in prefix form, without notations; or why there is none.
//!
//! `spec_of` gives exactly `prefix_text` of the public statements, or the first thing that stands against it. That is
//! a fault of the text, a claim that mentions a local definition, or one that is too long, as the whole may be. What
//! is printed declares what agrees with the public statements. So what is compiled of them is accepted against it.
//!
//! A body that mentions a local definition, or that is too long for a math string, is left out. Variables get names
//! with one underscore more than any name of the text begins with, so none clashes.
//!
//! The laws have three steps. Printed lines are read again (`src/print_laws.rt`). Printed declarations are declared
//! (`src/read_laws.rt`). The public part of a legal list is legal (`src/public_laws.rt`). Start with
//! `specs/Wording.antt`.
#![tactic(auto)]

mod agree_laws;
mod gather;
mod line;
mod measure;
mod names;
mod obstacle;
mod omitted;
mod print_laws;
mod printed;
mod public_laws;
mod read_laws;
mod spec_text;
mod tokens;
mod words;

pub use agree_laws::specifications_of_texts_declare;
pub use print_laws::{
    lines_spell_statements, prefix_forms_are_read, tokens_are_math_tokens, words_are_lexemes,
};
pub use printed::{local_line, long_line, specified_line};
pub use public_laws::public_parts_are_legal;
pub use read_laws::printed_specifications_declare;
pub use spec_text::{SpecText, spec_of, specification_is_decided};
