//! The parameters and the result that a row's words say.
ghost use Rattle.std.specs.Prelude.{◌≡◌, ◌<◌, ◌++◌, ◌∷◌, [], IfOk, OnOk, if◌then◌else◌, length};
ghost use Rattle.mz_logic_theory.specs.Words.{binder_of, binders_of, bound_places, places_set, word_bound, word_deps, word_sort};
ghost use Rattle.mz_layout_tables.specs.Rows.{IsRow, params_of};
ghost use Rattle.mz_decompile_text.specs.Phrases.{a_word, a_list};
ghost use Rattle.mz_decompile_text.specs.Phrasing.{binder, binders, result as the_result, variable_names};
ghost use Rattle.mz_decompile_text.specs.Naming.{vocabulary_by};
ghost use Rattle.mz_decompile.specs.Adding.{Adds};

use crate::parts::{put_list, put_variable, put_word};
use mz_cmd::Mem;
use mz_decompile_text::{PairNames, Phrases};
use mz_layout_tables::{Mmb, Row};
use mz_logic_theory::Word;
use std::alloc::Global;

/// Adds a list of the row's parameters. The result is the places of the bound ones.
pub(crate) fn put_params(
    alloc: Global,
    mmb: &Mmb,
    names: &PairNames,
    row: Row,
    phrases: &mut Phrases,
    parts: &mut Vec<usize>,
) -> Result<Vec<u32>, Mem>
    requires { IsRow mmb.now row }
    ensures adds { OnOk result (Adds phrases.old phrases.new parts.old.items parts.new.items
        (a_list (binders (vocabulary_by names.now) 0 (binders_of (params_of mmb.now row))) ∷ [])) }
    ensures places { IfOk result (λ places. places.items ≡ bound_places 0 (params_of mmb.now row)) }
{
    let mut inner = Vec::new(alloc);
    let mut places = Vec::new(alloc);
    let arity = row.arity(mmb);
    'params: for i in 0..arity {
        let word = row.param(mmb, i);
        put_binder(alloc, names, i as usize, word, &places, phrases, &mut inner)?;
        push_bound(word, i, &mut places)?;
    }
    put_list(&inner, phrases, parts)?;
    Ok(places)
}

/// One place more, where the word says a bound variable.
fn push_bound(word: Word, place: u32, places: &mut Vec<u32>) -> Result<(), Mem>
    ensures { OnOk result (places.new.items ≡ (if word_bound word then places.old.items ++ place ∷ [] else places.old.items)) }
{
    if !word.bound() {
        return Ok(());
    }
    places.push(place)?;
    Ok(())
}

/// Adds the parameter that a word says, after bound ones at these places.
fn put_binder(
    alloc: Global,
    names: &PairNames,
    variable: usize,
    word: Word,
    places: &[u32],
    phrases: &mut Phrases,
    parts: &mut Vec<usize>,
) -> Result<(), Mem>
    ensures { OnOk result (Adds phrases.old phrases.new parts.old.items parts.new.items (binder (vocabulary_by names.now) variable (binder_of places.now word) ∷ [])) }
{
    let mut inner = Vec::new(alloc);
    put_variable(alloc, names, variable, phrases, &mut inner)?;
    put_word(names.sort(word.sort()), phrases, &mut inner)?;
    put_deps_of(alloc, names, word, places, phrases, &mut inner)?;
    put_list(&inner, phrases, parts)
}

/// Adds a list of what a parameter depends on, unless it is bound.
fn put_deps_of(
    alloc: Global,
    names: &PairNames,
    word: Word,
    places: &[u32],
    phrases: &mut Phrases,
    parts: &mut Vec<usize>,
) -> Result<(), Mem>
    ensures { OnOk result (Adds phrases.old phrases.new parts.old.items parts.new.items
        (if word_bound word then [] else variable_names (vocabulary_by names.now) (places_set (word_deps word) places.now) ∷ [])) }
{
    if word.bound() {
        return Ok(());
    }
    put_deps(alloc, names, word.deps(), places, phrases, parts)
}

/// Adds a list of the variables at those of the places whose bit is set.
fn put_deps(
    alloc: Global,
    names: &PairNames,
    deps: u64,
    places: &[u32],
    phrases: &mut Phrases,
    parts: &mut Vec<usize>,
) -> Result<(), Mem>
    ensures { OnOk result (Adds phrases.old phrases.new parts.old.items parts.new.items (variable_names (vocabulary_by names.now) (places_set deps places.now) ∷ [])) }
{
    let mut inner = Vec::new(alloc);
    let mut bits = deps;
    'places: for place in places {
        put_variable_if(bits % 2 == 1, alloc, names, *place, phrases, &mut inner)?;
        bits /= 2;
    }
    put_list(&inner, phrases, parts)
}

/// Adds the name of a variable, where it is set.
fn put_variable_if(
    set: bool,
    alloc: Global,
    names: &PairNames,
    variable: u32,
    phrases: &mut Phrases,
    parts: &mut Vec<usize>,
) -> Result<(), Mem>
    ensures { OnOk result (Adds phrases.old phrases.new parts.old.items parts.new.items
        (if set then a_word ((vocabulary_by names.now).variable variable) ∷ [] else [])) }
{
    if !set {
        return Ok(());
    }
    put_variable(alloc, names, variable as usize, phrases, parts)
}

/// Adds the result that a word says, where the bound parameters have these places.
pub(crate) fn put_result(
    alloc: Global,
    names: &PairNames,
    word: Word,
    places: &[u32],
    phrases: &mut Phrases,
    parts: &mut Vec<usize>,
) -> Result<(), Mem>
    ensures { OnOk result (Adds phrases.old phrases.new parts.old.items parts.new.items
        (the_result (vocabulary_by names.now) (record { sort = word_sort word; deps = places_set (word_deps word) places.now }) ∷ [])) }
{
    let mut inner = Vec::new(alloc);
    put_word(names.sort(word.sort()), phrases, &mut inner)?;
    put_deps(alloc, names, word.deps(), places, phrases, &mut inner)?;
    put_list(&inner, phrases, parts)
}
