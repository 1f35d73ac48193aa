//! What a compiler may write of a text: bodies, streams and files, and why these are accepted.
//!
//! A body is given by what its commands make, in the logic's words and the text's numbering (`specs/Steps.antt`); a
//! stream by a function of the text (`specs/StreamWriting.antt`); a file statement by statement
//! (`specs/FileWriting.antt`). None of these speaks of a machine, of places in a file or of a specification.
//!
//! The laws: right steps run, each legal statement has steps, streams spell what they were written from. So a written
//! file is good, and accepted against each specification with which the public statements agree. What shares all it
//! builds is accepted by identity too. What a stated proof proves is said in `specs/Claims.antt`, what it uses in
//! `specs/Uses.antt`.
//!
//! `specs/Compiling.antt` says what compiling a text answers, `specs/CompiledFile.antt` which file it is. The laws
//! hold for any writer that shares; here it is `mz_emit_bodies` and `mz_emit`. PROOFS goes through it. Start with
//! `specs/Compiling.antt`.
#![tactic(auto)]

mod accepted_laws;
mod body_laws;
mod claims_laws;
mod compiled;
mod file_laws;
mod laws_by_identity;
mod passed;
mod portable_laws;
mod rule;
mod stream_laws;

pub use accepted_laws::{same_lists_agree, written_files_are_accepted};
pub use body_laws::{
    legal_statements_have_steps, right_bodies_run, right_ends_end, right_steps_run,
    statements_grow, steps_join,
};
pub use claims_laws::{
    stated_proofs_are_sound, stated_proofs_use_what_they_mean, weights_are_the_texts,
};
pub use compiled::Compiled;
pub use file_laws::{
    bodies_are_written, bodies_say_their_gaps, example_is_written, finished_is_draft,
    words_say_what_is_written, writing_grows, written_files_are_good,
};
pub use laws_by_identity::{
    written_files_are_accepted_by_identity, written_files_are_good_by_identity,
};
pub use passed::Passed;
pub use portable_laws::{
    shared_rows_grow, shared_runs_are_portable_runs, shared_statements_run_by_identity,
};
pub use rule::L;
pub use stream_laws::{
    spelled_lists_are_same, streams_are_short, streams_build, streams_share, streams_spell,
    written_rows_spell,
};
