//! The writer of a binary: it takes the parts and writes them in the one normal layout.
//!
//! A [`LayoutWriter`] takes sorts, entries of tables and statements one by one; `finish` gives exactly the bytes that
//! `Normal.antt` of `mz_layout_tables` says: header, sorts, tables, each entry's words and stream, the list, with
//! gaps of zeros. `length` is exact. What fails for memory changes nothing. That such a file is read back as it was
//! written is a law there.
//!
//! The compiler and the assembler both write through it. What reads a layout is `mz_layout_tables`, whose types are
//! shown here too. Start with `src/writer.rt`.
#![tactic(auto)]

mod file;
mod front;
mod pending;
mod sections;
mod sequences;
mod words;
mod writer;

pub use mz_layout_tables::{
    Fault, Head, HeadOrEnd, Mmb, Row, Rows, each_file_has_one_layout, head_at,
    normal_layout_is_read_back, normal_layout_is_short,
};
pub use writer::LayoutWriter;
