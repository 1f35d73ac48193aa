//! The layout of a binary, read in place: its header, its tables, the heads of its statements, the words of a row.
//!
//! `Mmb::read` answers a binary exactly where header and tables are in order, or the first rule that fails (K1, K2).
//! Each accessor gives what the file's bytes say, as a slice: nothing is copied. `head_at` says what stands at a
//! place of the list of statements, or which of K3 to K7 fails first. `check_term_words` and `check_thm_words` do so
//! of a row's words (K8, K9). No call takes memory. Not looked at, as the format says: reserved fields, the high four
//! bits of a sort's byte, the name index, and alignment; parts may overlap.
//!
//! `specs/Normal.antt` has the normal layout that `mz_layout` writes, with its laws, so that nobody else calculates
//! with places. Start with `specs/Tables.antt`, `specs/Layout.antt` and `specs/Heads.antt`.
#![tactic(auto)]

mod bytes;
mod checks;
mod head;
mod header;
mod laws;
mod mmb;
mod records;
mod row;
mod row_words;
mod rows_so_far;
mod word;
mod word_laws;

pub use checks::Fault;
pub use head::{Head, HeadOrEnd, head_at};
pub use header::Header;
pub use laws::{each_file_has_one_layout, normal_layout_is_read_back, normal_layout_is_short};
pub use mmb::Mmb;
pub use row::Row;
pub use row_words::{check_term_words, check_thm_words};
pub use rows_so_far::Rows;
