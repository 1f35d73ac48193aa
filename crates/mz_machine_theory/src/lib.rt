//! The unify machine and the proof machine as definitions: one clause a command, and why what they accept is proved.
//!
//! A stream of unify commands spells expressions in preorder (`specs/Streams.antt`, `specs/Spells.antt`).
//! `specs/UnifyMachine.antt` has three modes: a citation, an assertion's own END, a definition. What varies between
//! machines is a profile (`specs/Profile.antt`). The law `matches_are_exact`: a stream runs on a target exactly where the
//! target is an instance of what it spells, with fresh variables for dummies.
//!
//! `specs/ProofMachine.antt` has one clause a proof command: its premises in order, each with its rule, and the next
//! state; `specs/Bodies.antt` whole bodies. `specs/Invariant.antt` is the fact that each command keeps, and the heart of
//! the soundness of `mz`: PROOFS tells how it goes. The laws (`specs/Sound.antt`): where a body runs, its row spells a
//! legal declaration, and a theorem has a derivation that cites only what the body cites. Steps are bounded
//! (`steps_bounded`).
//!
//! Nothing here runs and nothing knows a store: `mz_unify` and `mz_machine` do, and the machine by identity is another
//! value of the profile.
#![tactic(auto)]

mod examples;
mod laws;
mod soundness;
mod unify_laws;

pub use examples::{changed_bodies, counted_steps, worked_bodies};
pub use laws::{
    bodies_are_checked, bound_never_ends, one_outcome, steps_bounded, strict_runs_with_gaps,
    tables_grow,
};
pub use soundness::{
    axioms_are_legal, definitions_are_legal, good_entries_are_legal, rows_keep_the_fact,
    theorems_are_proved, ungapped_are_proved,
};
pub use unify_laws::{
    gaps_dont_matter, longer_spell_the_same, matches_are_exact, one_spelling, one_step_a_byte,
    only_what_was_met, own_streams_are_spelled, stream_bound_never_ends, streams_that_run_spell,
};
