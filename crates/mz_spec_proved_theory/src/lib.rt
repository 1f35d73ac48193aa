//! The promise of a yes: when a specification is proved, as a definition. Nothing here speaks of binaries.
//!
//! `specs/Headline.antt` has `Proves`, the promise of a yes: a legal list of statements, in which each theorem has a
//! derivation, has the specification's declarations for its public ones. `specs/Match.antt` says when declarations agree with the public statements of a legal list,
//! `specs/Proved.antt` what follows for each theorem, `specs/ByItself.antt` what it is to need no such list. Terms are
//! compared by their public numbers, and bodies up to a one-to-one map of dummies (`specs/AlphaTrees.antt`).
//!
//! It stands by itself because a user who reads the promise should need nothing of the file format. Start with
//! `specs/Headline.antt`.
#![tactic(auto)]

mod kind;
mod laws;
mod rule;

pub use kind::{Kind, kind_of};
pub use laws::promises_what_is_checked;
pub use rule::M;
