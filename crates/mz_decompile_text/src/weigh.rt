//! The weight of a node, from those of its parts.
ghost use Rattle.std.specs.Prelude.{◌≡◌, ◌<◌, ◌+◌, All, length};
ghost use Rattle.mz_decompile_text.specs.Measures.{capped};
ghost use Rattle.mz_decompile_text.specs.Telling.{IsLower, weighed, weights_at};

use mz_trace::RunNode;

/// The weight of a node, where the nodes before it weigh so much.
pub(crate) fn weigh(node: &RunNode, weights: &[u128]) -> u128
    requires { IsLower (length weights.now) node.now }
    ensures { result ≡ capped (weighed weights.now node.now) }
{
    match node {
        RunNode::Var(_) | RunNode::Hyp(_) | RunNode::Let(_) | RunNode::Refl(_) => 1,
        RunNode::App(_, parts) | RunNode::Cong(_, parts) => with_parts(1, parts, weights),
        RunNode::Use(_, claim, operands, proofs) => {
            let own = with_parts(with_parts(1, operands, weights), &[*claim], weights);
            with_parts(own, proofs, weights)
        }
        RunNode::Conv(claim, conversion, proof) => {
            with_parts(1, &[*claim, *conversion, *proof], weights)
        }
        RunNode::Sym(conversion) => with_parts(1, &[*conversion], weights),
        RunNode::Unfold(_, unfolded, operands, _, conversion) => {
            let own = with_parts(1, operands, weights);
            with_parts(own, &[*unfolded, *conversion], weights)
        }
    }
}

/// This weight and those of nodes.
fn with_parts(own: u128, nodes: &[u32], weights: &[u128]) -> u128
    requires { All (λ n. n < length weights.now) nodes.now }
    ensures { result ≡ capped (own + weights_at weights.now nodes.now) }
{
    let mut weight = own;
    'nodes: for node in nodes {
        weight = weight.saturating_add(weights[*node as usize]);
    }
    weight
}
