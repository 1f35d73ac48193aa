//! The verdict: whether a binary proves what a specification declares, or the first refusal of the two.
//!
//! `verify_bytes` answers `Accepted` exactly where `mz_match_theory` accepts the two files, and a refusal exactly
//! where it is the first; else memory ran out. Where it accepts, each theorem of the specification is proved
//! (`headline`), and so is each theorem of the binary (`sound`). Commands are counted exactly, and n * n + n of n
//! bytes are the most. `draft_bytes` answers the same of proofs with gaps, and lists exactly the theorems that rest
//! on one (`specs/Drafts.antt`). `verify_by` is the same for any machine.
//!
//! The specification comes first, then header and tables, then statement by statement the binary's rules and the
//! comparison with the next declaration: kind, modifiers, parameters, result, body, hypotheses, conclusion.
//!
//! An accepted pair is a value (`specs/Judged.antt`): what was read of both files is handed on to other commands.
//! Start with `src/verify.rt`, then `src/statement.rt`.
#![tactic(auto)]

mod accepted;
mod draft;
mod laws;
mod line;
mod progress;
mod statement;
mod verify;

pub use accepted::Accepted;
pub use draft::{Draft, Gaps, draft_bytes};
pub use laws::{accepted_drafts_are_sound, each_pair_has_one_draft};
pub use line::verdict_line;
pub use mz_match_rows::Publics;
pub use statement::match_statement;
pub use verify::{judge, verify_by, verify_bytes};
