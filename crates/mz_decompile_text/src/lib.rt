//! The text that states what a binary proves: its names, and statements and proofs as phrases.
//!
//! A phrase is an s-expression without places, kept as a node over lower ones. Its length, depth and number of tokens
//! are exact, also where it is far too long to be written; `write` appends exactly the phrase (`src/phrases.rt`).
//! `assertion` and `definition` read a row's stream as phrases, `retell` a traced proof. `PairNames::of` has the
//! names: those of the specification for public statements, new ones for all else.
//!
//! The law `stated_texts_are_read`: the text of statements that can be phrased reads as just these statements.
//!
//! It knows no binary as a whole: `mz_decompile` puts the parts together. Start with `specs/Phrases.antt`,
//! `specs/Phrasing.antt` and `specs/Names.antt`.
#![tactic(auto)]

mod command;
mod gather;
mod gathered;
mod laws;
mod list;
mod measures;
mod names;
mod node;
mod parts;
mod phrases;
mod proof;
mod reading;
mod row;
mod source;
mod tell;
mod text_laws;
mod weigh;
mod writing;

pub use laws::named_statements_name;
pub use names::PairNames;
pub use phrases::{Phrases, Shape};
pub use proof::{Retold, retell};
pub use row::{Defined, Said, assertion, definition};
pub use text_laws::{lines_spell_phrases, stated_texts_are_read};
