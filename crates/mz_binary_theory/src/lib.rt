//! What a good binary is, as a definition: what is asked of each statement of its list; and what follows.
//!
//! `specs/Checking.antt` says what is asked of each statement of the list, in order; `specs/Chains.antt` has the chain
//! of statements in which each is good after those before; `specs/Good.antt` says when a file is good and else what
//! its first fault is. All of it takes a standard: the standard machine, with gaps or without, and what else is
//! asked of a body first (`specs/Standards.antt`). `specs/FileRun.antt` computes the same, and counts commands.
//!
//! The laws (`specs/WholeLaws.antt`): the statements of a good file are a legal list, and each theorem of a finished
//! one has a derivation from axioms alone. A file is good or has one first fault. A file of n bytes executes at most n
//! * n + n commands. A theorem that isn't gapped has a derivation without gaps.
//!
//! Nothing here reads a file: `mz_binary` does. Who writes files or walks accepted ones rests on this and on no
//! checker. Some seventy computed files stand in `specs/Files.antt` and `specs/WholeExamples.antt`.
#![tactic(auto)]

mod draft_laws;
mod examples;
mod laws;
mod statement;
mod whole_laws;

pub use draft_laws::{drafts_are_legally_declared, finished_drafts_are_good};
pub use examples::worked_files;
pub use laws::good_statements_have_rows;
pub use statement::Statement;
pub use whole_laws::{
    steps_of_files_are_bounded, ungapped_theorems_are_free, whole_files_are_legal,
    whole_files_have_one_outcome, whole_files_spell_one_list,
};
