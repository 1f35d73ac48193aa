//! Whole proof texts read: their statements, each over the names of those before it, or the first thing that is
//! wrong.
//!
//! `read_text` gives exactly the statements that a text is read as, or exactly the first rule that it breaks: U1, U2,
//! U16 for the whole text, then U3, U15, U4, U5 statement by statement. Else memory ran out. [`Text`] gives each
//! statement's name, visibility, declaration, dummies and proof. It keeps the nodes too: by these the type rules find
//! their places.
//!
//! The laws stand in `src/laws.rt`: a text is read in one way or refused in one way. Dependencies ascend. Only
//! theorems have proofs. Gaps stand in drafts alone. Start with `src/text.rt`, then `src/statements.rt`.
#![tactic(auto)]

mod laws;
mod statements;
mod text;
mod underscores;

pub use laws::{
    one_reading, only_drafts_have_gaps, read_or_refused, read_or_refused_once, statements_are_whole,
};
pub use mz_mmu_theory::{Conv, ConvBox, Convs, Proof, ProofBox, Proofs, Vars};
pub use statements::statement;
pub use text::{Entry, Text, TextRead, TextStop, in_statement, read_text};
pub use underscores::{leading_underscores, one_underscore_more};
