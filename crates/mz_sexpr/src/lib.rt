//! S-expressions of a proof text: its nodes, each with its place, or the first byte that may not stand where it does.
//!
//! `read_sexprs` gives exactly the nodes of a text, or exactly the first of U1, U2 and U16 that it breaks, at its
//! byte and in its statement; else memory ran out. A text has nodes or one refusal, never both. Nodes are numbered by
//! their first bytes, and `roots`, `first` and `next` find them without memory. Lists stand at most 4,096 deep.
//!
//! Reading is one loop without recursion, a step a byte. A node is twelve bytes; its kind and its bytes are read off
//! the text. `specs/Grammar.antt` says which nodes a text has, `specs/Number.antt` what the numbers stand for. Start
//! there.
#![tactic(auto)]

mod access;
mod ends;
mod laws;
mod rule;
mod scan;
mod sexprs;

pub use laws::{one_reading, reading_or_refusal};
pub use rule::{TextRefusal, U};
pub use sexprs::{SexprRead, Sexprs, read_sexprs};
