//! The phrase of a node, over those of its parts.
ghost use Rattle.std.specs.Prelude.{◌<◌, ◌∷◌, [], All, IfOk, length, codes};
ghost use Rattle.mz_decompile_text.specs.Phrases.{a_word, a_list, one_more};
ghost use Rattle.mz_decompile_text.specs.Phrasing.{list_of, variable_names};
ghost use Rattle.mz_decompile_text.specs.Naming.{vocabulary_by};
ghost use Rattle.mz_decompile_text.specs.ByNumber.{phrase_at, phrases_at};
ghost use Rattle.mz_decompile_text.specs.Growing.{AreThere, Tells, those_at};
ghost use Rattle.mz_decompile_text.specs.Telling.{IsLower, applied, told as telling};

use crate::parts::{
    hypothesis, let_name, list, put_list, put_told, put_variable_list, put_word, variable, word,
};
use crate::{PairNames, Phrases};
use mz_cmd::Mem;
use mz_trace::RunNode;
use std::alloc::Global;

/// Adds the phrase of a node, where the nodes before it have these phrases.
pub(crate) fn tell(
    alloc: Global,
    node: &RunNode,
    told: &[usize],
    names: &PairNames,
    phrases: &mut Phrases,
) -> Result<usize, Mem>
    requires node { IsLower (length told.now) node.now }
    requires told { AreThere phrases.old told.now }
    ensures { IfOk result (λ n. Tells phrases.old phrases.new (telling (vocabulary_by names.now) (those_at phrases.old told.now) node.now) n) }
{
    match node {
        RunNode::Var(x) => variable(alloc, *x, names, phrases),
        RunNode::App(term, operands) => {
            application(alloc, names.term(*term), operands, told, phrases)
        }
        RunNode::Hyp(i) => hypothesis(alloc, *i, names, phrases),
        RunNode::Let(k) => let_name(alloc, *k as usize, names, phrases),
        RunNode::Use(assertion, _, operands, proofs) => {
            let name = names.assertion(*assertion);
            citation(alloc, name, operands, proofs, told, phrases)
        }
        RunNode::Conv(claim, conversion, proof) => {
            let parts = [*claim, *conversion, *proof];
            headed(alloc, b":conv", &parts, told, phrases)
        }
        RunNode::Refl(expression) => headed(alloc, b":refl", &[*expression], told, phrases),
        RunNode::Sym(conversion) => headed(alloc, b":sym", &[*conversion], told, phrases),
        RunNode::Cong(term, parts) => headed(alloc, names.term(*term), parts, told, phrases),
        RunNode::Unfold(term, _, operands, variables, conversion) => unfolding(
            alloc,
            *term,
            operands,
            variables,
            *conversion,
            told,
            names,
            phrases,
        ),
    }
}

/// A list of a token and the phrases of nodes.
fn headed(
    alloc: Global,
    head: &[u8],
    nodes: &[u32],
    told: &[usize],
    phrases: &mut Phrases,
) -> Result<usize, Mem>
    requires nodes { All (λ n. n < length told.now) nodes.now }
    requires told { AreThere phrases.old told.now }
    ensures { IfOk result (λ n. Tells phrases.old phrases.new (a_list (one_more (a_word head.now) (phrases_at (those_at phrases.old told.now) nodes.now))) n) }
{
    let mut parts = Vec::new(alloc);
    put_word(head, &mut parts, phrases)?;
    put_told(nodes, told, &mut parts)?;
    list(&parts, phrases)
}

/// A term over operands, or alone where there are none.
fn application(
    alloc: Global,
    term: &[u8],
    operands: &[u32],
    told: &[usize],
    phrases: &mut Phrases,
) -> Result<usize, Mem>
    requires nodes { All (λ n. n < length told.now) operands.now }
    requires told { AreThere phrases.old told.now }
    ensures { IfOk result (λ n. Tells phrases.old phrases.new (applied term.now (phrases_at (those_at phrases.old told.now) operands.now)) n) }
{
    if operands.is_empty() {
        word(term, phrases)
    } else {
        headed(alloc, term, operands, told, phrases)
    }
}

/// A citation: its operands are a list of their own.
fn citation(
    alloc: Global,
    assertion: &[u8],
    operands: &[u32],
    proofs: &[u32],
    told: &[usize],
    phrases: &mut Phrases,
) -> Result<usize, Mem>
    requires operands { All (λ n. n < length told.now) operands.now }
    requires proofs { All (λ n. n < length told.now) proofs.now }
    requires told { AreThere phrases.old told.now }
    ensures { IfOk result (λ n. Tells phrases.old phrases.new
        (a_list (one_more (a_word assertion.now) (one_more (a_list (phrases_at (those_at phrases.old told.now) operands.now)) (phrases_at (those_at phrases.old told.now) proofs.now)))) n) }
{
    let mut parts = Vec::new(alloc);
    put_word(assertion, &mut parts, phrases)?;
    put_list(alloc, operands, told, &mut parts, phrases)?;
    put_told(proofs, told, &mut parts)?;
    list(&parts, phrases)
}

/// An unfolding: its operands and its variables are lists of their own.
fn unfolding(
    alloc: Global,
    term: u32,
    operands: &[u32],
    variables: &[u32],
    conversion: u32,
    told: &[usize],
    names: &PairNames,
    phrases: &mut Phrases,
) -> Result<usize, Mem>
    requires operands { All (λ n. n < length told.now) operands.now }
    requires conversion { conversion < length told.now }
    requires told { AreThere phrases.old told.now }
    ensures { IfOk result (λ n. Tells phrases.old phrases.new
        (list_of (a_word (codes ":unfold") ∷ a_word ((vocabulary_by names.now).term term) ∷ a_list (phrases_at (those_at phrases.old told.now) operands.now)
        ∷ variable_names (vocabulary_by names.now) variables.now ∷ phrase_at (those_at phrases.old told.now) conversion ∷ [])) n) }
{
    let mut parts = Vec::new(alloc);
    put_word(b":unfold", &mut parts, phrases)?;
    put_word(names.term(term), &mut parts, phrases)?;
    put_list(alloc, operands, told, &mut parts, phrases)?;
    put_variable_list(alloc, variables, names, &mut parts, phrases)?;
    parts.push(told[conversion as usize])?;
    list(&parts, phrases)
}
