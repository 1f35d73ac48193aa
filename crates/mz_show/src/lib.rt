//! The listing of a binary: its statements with their rows, unify streams and bodies, one line a command.
//!
//! `listing` writes exactly the listing of a file, or exactly the lines before the first statement that can't be
//! listed, and says which rule fails. It asks less than verifying: header and tables, heads of statements, and that
//! streams and bodies can be read to their END. Bodies aren't run. Each file has one listing or one refusal.
//!
//! Each statement's lines are made in memory and written as one piece. Many rows may name one long stream, so a
//! hostile file's listing can be as long as the square of the file.
//!
//! It shows what is in a file that is refused. Start with `specs/Statements.antt` and `specs/Listing.antt`, then
//! `src/statement.rt`.
#![tactic(auto)]

mod laws;
mod place;
mod row;
mod statement;
mod stop;
mod stream;
mod words;
mod writing;

pub use laws::each_file_has_one_listing;
pub use writing::{Shown, listing};
