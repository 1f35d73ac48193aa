//! The proof that a theorem's body makes: as a text states it, and as numbered nodes.
//!
//! `specs/Traces.antt` has one clause a command, beside the state of the proof machine. The laws: a body that runs
//! makes one proof, and it proves what the row spells. Under an unpaid obligation stands what its tree will go into, a
//! tree with a hole (`specs/OneHoleContexts.antt`), so no hole is filled twice.
//!
//! `trace` gives this proof as nodes over lower nodes, beside those of the parameters at most two for each command.
//! What a body shares the nodes share, so no exponential tree is written out. It tests no premise again: its caller
//! knows that the body runs.
//!
//! The machine keeps no proof, and `decompile` needs one. Start with `specs/Traces.antt` and `specs/Nodes.antt`, then
//! `src/run.rt`. Worked bodies with their proofs stand in `specs/Examples.antt`.
#![tactic(auto)]

mod entry;
mod examples;
mod laws;
mod node;
mod run;
mod stack;
mod state;
mod streams;

pub use examples::worked_proofs;
pub use laws::{bodies_make_proofs, made_proofs_prove};
pub use node::RunNode;
pub use run::{Run, Traced, trace, trace_body};
