//! What is still to be emitted of a body.
use crate::let_scopes::Chain;
use mz_cmd::ProofCode;
use mz_logic_theory::Exprs;
use mz_mmu_theory::{Conv, Proof};
use mz_store::Id;

/// What is still to be emitted of a body. Each task takes one stack to the next.
#[derive(Clone, Copy)]
pub enum Task<'t> {
    /// Pushes what the proof proves, over these lets.
    Prove(&'t Proof, Chain),
    /// Pushes what each of the proofs proves, the first of them first.
    ProveAll(&'t [Proof], Chain),
    /// Cites the axiom or theorem: the proofs of its hypotheses, on top, become its conclusion's.
    Cite(u32, &'t Exprs),
    /// Pushes the expression.
    Push(Id),
    /// The operands of the expression, on top, become it; it isn't in the heap.
    Make(Id),
    /// Pays the obligation between the sides of the conversion, which is on top.
    Pay(&'t Conv),
    /// Pays those of each of the conversions, the first of them on top.
    PayAll(&'t [Conv]),
    /// This command, which leaves the heap as it is.
    Do(ProofCode, u32),
    /// Saves the proof on top as the part of this cell.
    Save(u32),
}
