//! The phrases and the weights of all nodes, and then of the proof.
ghost use Rattle.std.specs.Prelude.{◌≡◌, ◌<◌, ◌∷◌, [], All, IfOk, OnOk, length, codes};
ghost use Rattle.mz_decompile_text.specs.Phrases.{a_word};
ghost use Rattle.mz_decompile_text.specs.Phrasing.{list_of};
ghost use Rattle.mz_decompile_text.specs.Naming.{vocabulary_by};
ghost use Rattle.mz_decompile_text.specs.ByNumber.{phrase_at, Grows};
ghost use Rattle.mz_decompile_text.specs.Measures.{capped};
ghost use Rattle.mz_decompile_text.specs.Growing.{Tells};
ghost use Rattle.mz_decompile_text.specs.Telling.{AreLowerAfter, IsLower};
ghost use Rattle.mz_decompile_text.specs.Gathering.{AreGathered, AreTold, IsOneMore, IsBehind};
ghost use Rattle.mz_decompile_text.specs.Retelling.{IsRetold, IsWeighed};

use crate::parts::{let_name, list, word};
use crate::tell::tell;
use crate::weigh::weigh;
use crate::{PairNames, Phrases};
use mz_cmd::Mem;
use mz_trace::{Run, RunNode};
use std::alloc::Global;

/// A proof as a phrase, by its number, and its weight, or the largest number where it weighs more.
#[derive(Drop)]
pub struct Retold {
    pub phrase: usize,
    pub weight: u128,
}

/// Of each node its phrase, by its number, and its weight.
#[derive(Drop)]
pub(crate) struct SizedNodes {
    pub phrases: Vec<usize>,
    pub weights: Vec<u128>,
}

/// The proof of a run as a phrase, whose parts are added to the phrases.
///
/// # Errors
///
/// Where there is no memory.
pub fn retell(
    alloc: Global,
    run: &Run,
    names: &PairNames,
    phrases: &mut Phrases,
) -> Result<Retold, Mem>
    ensures grows { OnOk result (Grows phrases.old phrases.new) }
    ensures phrase { IfOk result (λ r. IsRetold (vocabulary_by names.now) run.now phrases.new r.phrase) }
    ensures weight { IfOk result (λ r. IsWeighed run.now r.weight) }
{
    let told = tell_all(alloc, run.nodes(), names, phrases)?;
    behind_lets(alloc, run.lets(), run.root(), &told, names, phrases)
}

/// The phrase and the weight of each node.
fn tell_all(
    alloc: Global,
    nodes: &[RunNode],
    names: &PairNames,
    phrases: &mut Phrases,
) -> Result<SizedNodes, Mem>
    requires { AreLowerAfter 0 nodes.now }
    ensures grows { OnOk result (Grows phrases.old phrases.new) }
    ensures told { IfOk result (λ t. AreGathered (vocabulary_by names.now) phrases.new nodes.now t) }
{
    let mut told = SizedNodes {
        phrases: Vec::new(alloc),
        weights: Vec::new(alloc),
    };
    'nodes: for node in nodes {
        tell_next(alloc, node, &mut told, names, phrases)?;
    }
    Ok(told)
}

/// Adds those of one node more.
fn tell_next(
    alloc: Global,
    node: &RunNode,
    told: &mut SizedNodes,
    names: &PairNames,
    phrases: &mut Phrases,
) -> Result<(), Mem>
    requires told { AreTold phrases.old told.old }
    requires node { IsLower (length told.old.phrases.items) node.now }
    ensures { OnOk result (IsOneMore (vocabulary_by names.now) phrases.old phrases.new told.old told.new node.now) }
{
    let phrase = tell(alloc, node, &told.phrases, names, phrases)?;
    let weight = weigh(node, &told.weights);
    told.phrases.push(phrase)?;
    told.weights.push(weight)?;
    Ok(())
}

/// The last proof, behind those with names.
fn behind_lets(
    alloc: Global,
    lets: &[u32],
    root: u32,
    told: &SizedNodes,
    names: &PairNames,
    phrases: &mut Phrases,
) -> Result<Retold, Mem>
    requires told { AreTold phrases.old told.now }
    requires lets { All (λ n. n < length told.now.phrases.items) lets.now }
    requires root { root < length told.now.phrases.items }
    ensures { IfOk result (λ r. IsBehind (vocabulary_by names.now) phrases.old phrases.new told.now lets.now root 0 r.phrase r.weight) }
{
    let mut phrase = told.phrases[root as usize];
    let mut weight = told.weights[root as usize];
    'lets: for k in (0..lets.len()).rev() {
        let first = lets[k] as usize;
        phrase = in_let(alloc, k, told.phrases[first], phrase, names, phrases)?;
        weight = weight.saturating_add(1).saturating_add(told.weights[first]);
    }
    Ok(Retold { phrase, weight })
}

/// A proof behind the k-th let.
fn in_let(
    alloc: Global,
    k: usize,
    first: usize,
    rest: usize,
    names: &PairNames,
    phrases: &mut Phrases,
) -> Result<usize, Mem>
    requires first { first < length phrases.old }
    requires rest { rest < length phrases.old }
    ensures { IfOk result (λ n. Tells phrases.old phrases.new
        (list_of (a_word (codes ":let") ∷ a_word ((vocabulary_by names.now).let_name k) ∷ phrase_at phrases.old first ∷ phrase_at phrases.old rest ∷ [])) n) }
{
    let head = word(b":let", phrases)?;
    let name = let_name(alloc, k, names, phrases)?;
    list(&[head, name, first, rest], phrases)
}
