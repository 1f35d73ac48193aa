//! The parts of a phrase, put together one after another.
ghost use Rattle.std.specs.Prelude.{◌≡◌, ◌<◌, ◌++◌, ◌∷◌, [], All, IfOk, OnOk, length, map};
ghost use Rattle.mz_decompile_text.specs.Phrases.{a_word, a_list};
ghost use Rattle.mz_decompile_text.specs.Phrasing.{variable_names};
ghost use Rattle.mz_decompile_text.specs.Naming.{vocabulary_by};
ghost use Rattle.mz_decompile_text.specs.ByNumber.{phrases_at};
ghost use Rattle.mz_decompile_text.specs.Growing.{AreThere, Tells, Adds, those_at, chosen};

use crate::{PairNames, Phrases};
use mz_cmd::Mem;
use std::alloc::Global;

/// A token.
pub(crate) fn word(bytes: &[u8], phrases: &mut Phrases) -> Result<usize, Mem>
    ensures { IfOk result (λ n. Tells phrases.old phrases.new (a_word bytes.now) n) }
{
    phrases.word(bytes)
}

/// A list of phrases that are there.
pub(crate) fn list(parts: &[usize], phrases: &mut Phrases) -> Result<usize, Mem>
    requires { AreThere phrases.old parts.now }
    ensures { IfOk result (λ n. Tells phrases.old phrases.new (a_list (phrases_at phrases.old parts.now)) n) }
{
    phrases.list(parts)
}

/// A variable by its name.
pub(crate) fn variable(
    alloc: Global,
    x: u32,
    names: &PairNames,
    phrases: &mut Phrases,
) -> Result<usize, Mem>
    ensures { IfOk result (λ n. Tells phrases.old phrases.new (a_word ((vocabulary_by names.now).variable x)) n) }
{
    let mut name = Vec::new(alloc);
    names.put_variable(x as usize, &mut name)?;
    word(&name, phrases)
}

/// A hypothesis by its name.
pub(crate) fn hypothesis(
    alloc: Global,
    i: u32,
    names: &PairNames,
    phrases: &mut Phrases,
) -> Result<usize, Mem>
    ensures { IfOk result (λ n. Tells phrases.old phrases.new (a_word ((vocabulary_by names.now).hypothesis i)) n) }
{
    let mut name = Vec::new(alloc);
    names.put_hypothesis(i as usize, &mut name)?;
    word(&name, phrases)
}

/// A let by its name.
pub(crate) fn let_name(
    alloc: Global,
    k: usize,
    names: &PairNames,
    phrases: &mut Phrases,
) -> Result<usize, Mem>
    ensures { IfOk result (λ n. Tells phrases.old phrases.new (a_word ((vocabulary_by names.now).let_name k)) n) }
{
    let mut name = Vec::new(alloc);
    names.put_let(k, &mut name)?;
    word(&name, phrases)
}

/// Appends a token.
pub(crate) fn put_word(
    bytes: &[u8],
    parts: &mut Vec<usize>,
    phrases: &mut Phrases,
) -> Result<(), Mem>
    requires { AreThere phrases.old parts.old.items }
    ensures { OnOk result (Adds phrases.old phrases.new parts.old.items parts.new.items (a_word bytes.now ∷ [])) }
{
    let n = word(bytes, phrases)?;
    parts.push(n)?;
    Ok(())
}

/// Appends the phrases of nodes.
pub(crate) fn put_told(nodes: &[u32], told: &[usize], parts: &mut Vec<usize>) -> Result<(), Mem>
    requires { All (λ n. n < length told.now) nodes.now }
    ensures { OnOk result (parts.new.items ≡ parts.old.items ++ chosen told.now nodes.now) }
{
    'nodes: for node in nodes {
        parts.push(told[*node as usize])?;
    }
    Ok(())
}

/// Appends a list of the phrases of nodes.
pub(crate) fn put_list(
    alloc: Global,
    nodes: &[u32],
    told: &[usize],
    parts: &mut Vec<usize>,
    phrases: &mut Phrases,
) -> Result<(), Mem>
    requires nodes { All (λ n. n < length told.now) nodes.now }
    requires told { AreThere phrases.old told.now }
    requires parts { AreThere phrases.old parts.old.items }
    ensures { OnOk result (Adds phrases.old phrases.new parts.old.items parts.new.items (a_list (phrases_at (those_at phrases.old told.now) nodes.now) ∷ [])) }
{
    let mut items = Vec::new(alloc);
    put_told(nodes, told, &mut items)?;
    let n = list(&items, phrases)?;
    parts.push(n)?;
    Ok(())
}

/// Appends the names of variables.
fn put_variables(
    alloc: Global,
    variables: &[u32],
    names: &PairNames,
    parts: &mut Vec<usize>,
    phrases: &mut Phrases,
) -> Result<(), Mem>
    requires { AreThere phrases.old parts.old.items }
    ensures { OnOk result (Adds phrases.old phrases.new parts.old.items parts.new.items (map (λ x. a_word ((vocabulary_by names.now).variable x)) variables.now)) }
{
    'variables: for x in variables {
        let n = variable(alloc, *x, names, phrases)?;
        parts.push(n)?;
    }
    Ok(())
}

/// Appends a list of variables by their names.
pub(crate) fn put_variable_list(
    alloc: Global,
    variables: &[u32],
    names: &PairNames,
    parts: &mut Vec<usize>,
    phrases: &mut Phrases,
) -> Result<(), Mem>
    requires { AreThere phrases.old parts.old.items }
    ensures { OnOk result (Adds phrases.old phrases.new parts.old.items parts.new.items (variable_names (vocabulary_by names.now) variables.now ∷ [])) }
{
    let mut items = Vec::new(alloc);
    put_variables(alloc, variables, names, &mut items, phrases)?;
    let n = list(&items, phrases)?;
    parts.push(n)?;
    Ok(())
}
