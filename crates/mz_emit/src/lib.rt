//! The compiler: from a proof text to a binary that is accepted against each specification that the text agrees with.
//!
//! `compile_bytes` answers exactly one of four: the binary, the first rule that the text breaks, the first limit that
//! it passes, or out of memory. The binary is one function of the text's statements, whatever the seed and the mode.
//! It is a good file, at most 64 + 32 * weight bytes long; of a finished text it is accepted by identity too. What
//! all this means is said in `mz_emit_theory`, whose laws carry it.
//!
//! Statement by statement it gathers words, stream and body, and the writer of `mz_layout` puts the file together.
//! Streams are written over ids with a list of what is left, without recursion (`src/stream.rt`).
//!
//! Start with `src/compile.rt` and `src/emitter.rt`, then `specs/Emitting.antt`, what holds between two statements.
#![tactic(auto)]

mod compile;
mod emitter;
mod limit;
mod line;
mod statement;
mod stream;

pub use compile::{
    compilable_texts_have_files, compilation_is_decided, compile_bytes, files_use_what_proofs_use,
    modes_compile_alike, texts_have_one_file,
};
pub use line::compiled_line;
