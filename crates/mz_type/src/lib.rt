//! Well-typed proof texts: the type rules of all statements, the weight of a text, and the limits of a compiled file.
//!
//! `check_text` answers [`Typed`] exactly where the statements are legal by the proofs that they state, and else
//! exactly the first rule that fails, with its statement and place; only out of memory is free. `weight` is exact,
//! takes no memory and never overflows.
//!
//! It goes over the statements with an environment of those before, into which each is moved once it is right. The
//! nodes are given back after the last rule, since no later fault has a place in the text.
//!
//! What it means is said in `mz_mmu_theory` (`Meaning.antt`, `Weight.antt`). Start with `specs/Typing.antt`, then
//! `src/typed.rt`.
#![tactic(auto)]

mod consume;
mod instance_sizes;
mod laws;
mod sizes;
mod typed;
mod weights;

pub use consume::take_last;
pub use laws::{
    limits_are_decided, modes_agree, rules_are_the_meaning, statements_can_be_words,
    typed_or_faulty, typed_or_refused,
};
pub use typed::{Beside, Typed, TypedRead, check_text};
pub use weights::weight;
