//! The nodes of a proof.
ghost use Rattle.std.specs.Prelude.{◌≡◌, ◌<◌, ◌^◌, ◌++◌, ◌∷◌, [], IfOk, IsOk, OnOk, length, slice_get};
ghost use Rattle.mz_trace.specs.Nodes.{IsApplication, Applies, IsVariable, IsVariableAt};

use std::alloc::AllocError;

/// An expression, a conversion or a proof. Its parts are earlier nodes, by their numbers.
#[derive(Drop)]
pub enum RunNode {
    /// The variable at a place of the context.
    Var(u32),
    /// A term over expressions.
    App(u32, Vec<u32>),
    /// A hypothesis.
    Hyp(u32),
    /// The proof with a name, by the number of the name.
    Let(u32),
    /// An axiom or theorem: its row, the expression that it proves, the expressions for its parameters, and the
    /// proofs of its hypotheses.
    Use(u32, u32, Vec<u32>, Vec<u32>),
    /// A proof of an expression, by a conversion from it to what is proved.
    Conv(u32, u32, u32),
    /// An expression converted to itself.
    Refl(u32),
    /// A conversion turned.
    Sym(u32),
    /// Conversions under a term.
    Cong(u32, Vec<u32>),
    /// A definition's unfolding: the term, the body that it unfolds to, the expressions for its parameters, the
    /// variables for its dummies, by their places in the context, and the conversion of the body.
    Unfold(u32, u32, Vec<u32>, Vec<u32>, u32),
}

/// The number of what comes behind so many.
pub(crate) fn number(len: usize) -> Result<u32, AllocError>
    ensures number { IfOk result (λ n. n ≡ len) }
    ensures few { len < 2 ^ 32 → IsOk result }
{
    if len > u32::MAX as usize {
        return Err(AllocError);
    }
    Ok(len as u32)
}

/// Adds a node, whose parts are there.
pub(crate) fn add(nodes: &mut Vec<RunNode>, node: RunNode) -> Result<u32, AllocError>
    ensures number { IfOk result (λ n. n ≡ length nodes.old.items) }
    ensures added { OnOk result (nodes.new.items ≡ nodes.old.items ++ node ∷ []) }
{
    let n = number(nodes.len())?;
    nodes.push(node)?;
    Ok(n)
}

/// The term and the operands of an application.
pub(crate) fn application(nodes: &[RunNode], n: u32) -> (u32, &[u32])
    requires { IsApplication (slice_get nodes.now n) }
    ensures { Applies (slice_get nodes.now n) result.0 result.1.now }
{
    match &nodes[n as usize] {
        RunNode::App(term, operands) => (*term, operands),
        _ => unreachable!(),
    }
}

/// The place of a variable.
pub(crate) fn variable(nodes: &[RunNode], n: u32) -> u32
    requires { IsVariable (slice_get nodes.now n) }
    ensures { IsVariableAt (slice_get nodes.now n) result }
{
    match &nodes[n as usize] {
        RunNode::Var(place) => *place,
        _ => unreachable!(),
    }
}
