//! What each theorem of a specification rests on: its axioms, where a binary proves it, and its gaps.
//!
//! `axioms_of` verifies, and lists for each theorem exactly the axioms of its support: those that its proof cites,
//! and those on which the theorems rest that it cites (`specs/Supports.antt`). Each theorem has a derivation whose
//! only citations are of these. That no fewer axioms would do isn't promised. `write_axioms` writes a line for each
//! theorem; `gaps_text` has the text of `draft`.
//!
//! The list is gone over once more and no body runs. A set of axioms is shared and kept in halves, so a chain of
//! theorems that rest on ever more axioms stays cheap (`src/sets.rt`). Once a byte is written, no call needs memory.
//!
//! Start with `specs/Supports.antt` and `specs/Lists.antt`, then `src/walk.rt`.
#![tactic(auto)]

mod axioms;
mod citations;
mod counts;
mod gaps;
mod held;
mod lists;
mod names;
mod places;
mod rows;
mod sets;
mod text;
mod walk;

pub use axioms::{AxiomsRead, axioms_in, axioms_of};
pub use citations::cited_at;
pub use gaps::gaps_text;
pub use lists::Lists;
pub use text::write_axioms;
