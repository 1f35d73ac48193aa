//! The list of statements of a binary, checked: each in order, or the first rule that fails.
//!
//! A [`Checker`] goes over the list: `check_next` gives the next statement, the end, or the first rule that fails
//! there, and `check_all` says of a whole file that it is good or gives its first fault. Answers and counted commands
//! are exact. Of a finished file out of memory comes only where a body is to run.
//!
//! Who runs bodies is a parameter, the trait [`Bodies`], which names the standard it holds them to. Here are
//! [`StrictBodies`] and [`DraftBodies`]; `mz_tool` brings the one by identity. So all is proved once, and
//! `verify` stands on no other machine. Words of rows that were right last aren't gone through again
//! (`src/words.rt`).
//!
//! What a good file is says `mz_binary_theory`. Start with `specs/Judging.antt`, then `src/checker.rt`.
#![tactic(auto)]

mod bodies;
mod check_file;
mod checker;
mod gaps;
mod line;
mod statement;
mod words;

pub use bodies::{Bodies, DraftBodies, StrictBodies};
pub use check_file::{Checked, check_all};
pub use checker::{Checker, Next};
pub use line::refusal_line;
pub use mz_binary_theory::Statement;
pub use mz_layout_tables::Rows;
