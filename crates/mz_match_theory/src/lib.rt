//! The verdict as a definition: what is accepted of a specification and a binary, and else the first refusal of the
//! two.
//!
//! `specs/Verdict.antt` says it: accepted, the first refusal, and the commands executed. `specs/Lines.antt` has the
//! printed lines. `accepted_pairs_prove`: where a pair is accepted the specification is proved, in the words of
//! `mz_spec_proved_theory`, which speak of no binary. `each_pair_has_one_verdict`: each two files are accepted or
//! have just one first refusal, never both. Drafts have the same laws.
//!
//! Nothing here reads a file: `mz_match` does. What is proved of a compiled file, of a printed specification and of a
//! decompiled text rests on these definitions and on no checker. Start with `specs/Verdict.antt`.
#![tactic(auto)]

mod laws;
mod verdict;

pub use laws::{
    accepted_pairs_are_sound, accepted_pairs_prove, each_pair_has_one_draft_verdict,
    each_pair_has_one_verdict, finished_drafts_are_accepted,
};
pub use verdict::{Counts, Verdict};
