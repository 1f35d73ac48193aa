//! The proof machine by identity as a definition: what verifiers accept that compare expressions by identity alone.
//!
//! Such a verifier keeps each expression where a command made it, and two are equal only where one command made both.
//! It accepts less than the standard machine: a dummy meets no saved term, Unfold has all three items, ConvRef is no
//! command. `specs/NodeIdentity.antt` has these expressions and the profile `portable` for the machine of
//! `mz_machine_theory`, `specs/FilesByIdentity.antt` the standard for whole files.
//!
//! The laws: what runs so runs by the standard machine too (`portable_runs_are_strict_runs`). A body that runs by
//! `portable_trees` and makes no application twice runs so (`shared_bodies_run_by_identity`). Both are one simulation
//! (`proofs/Embeds.antt`): forgetting the numbers of expressions, and giving them.
//!
//! It says what compiled files need so that other verifiers take them. Nothing here runs. Start with
//! `specs/NodeIdentity.antt`, then `specs/Laws.antt`.
#![tactic(auto)]

mod examples;
mod laws;

pub use examples::{kept_disjoint, over_trees, shared_bodies, whole_files};
pub use laws::{
    asked_of_unfoldings_alone, bodies_are_checked, bound_never_ends, equal_is_same, one_outcome,
    portable_runs_are_strict_runs, shared_bodies_run_by_identity, standard_is_by_identity,
    steps_bounded,
};
