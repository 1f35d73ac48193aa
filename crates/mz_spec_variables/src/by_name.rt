// Variables by their names.
ghost use Rattle.std.specs.Prelude.{◌≡◌, ◌↔◌, ◌+◌, ◌<◌, ◌≤◌, ◌^◌, ◌++◌, ⊤, List, Some, true, IsTrue, IfOk, OnOk, MatchOption, length, map, slice_get, take};
ghost use Rattle.mz_spec_theory.specs.StatementCode.{lexeme};
ghost use Rattle.mz_spec_variables.specs.Code.{variable as variable_lem};
ghost use Rattle.mz_spec_variables.specs.Index.{IsIndexOf, IsIndexUpTo, all_found, found_in};
ghost use Rattle.mz_spec_theory.specs.Dependencies.{Every, IsBoundAmong, dep_places as dep_places_lem};
ghost use Rattle.mz_spec_theory.specs.View.{Variable as VariableLem};
ghost use Rattle.mz_spec_variables.specs.declared.variables.Variable.{Variable as VariableRead};

use crate::index::NameIndex;
use crate::variables::{Variable, dep_places, is_bound};
use mz_base::Hashing;
use mz_logic_theory::Deps;
use mz_spec_theory::Lexeme;
use std::alloc::{AllocError, Global};

/// Fewer variables than this are gone through faster than an index of them is made.
const FEW: usize = 16;

/// The places of variables by their names. There is none where none is asked for, the variables are few,
/// or two share a name: then they are gone through.
///
/// # Errors
///
/// Where there is no memory.
pub fn places_of<'a>(
    alloc: Global,
    hashing: Hashing,
    variables: &[Variable<'_, 'a>],
    are_asked: bool,
) -> Result<Option<NameIndex<'a>>, AllocError>
    ensures { IfOk result (λ index. MatchOption index ⊤ (IsIndexOf (map variable_lem variables.now))) }
{
    if !are_asked || variables.len() < FEW {
        return Ok(None);
    }
    let mut places = NameIndex::new(alloc, hashing);
    for (i, variable) in variables.iter().enumerate() {
        let is_new = add_place(&mut places, i, variable)?;
        if !is_new {
            return Ok(None);
        }
    }
    Ok(Some(places))
}

/// Adds the place of a variable, if it has a name; whether no other before it has the same.
fn add_place<'a>(
    places: &mut NameIndex<'a>,
    place: usize,
    variable: &Variable<'_, 'a>,
) -> Result<bool, AllocError>
    ensures { IfOk result (λ is_new. is_new ≡ true → (vs : List VariableLem) → slice_get vs place ≡ Some (variable_lem variable.now) → IsIndexUpTo place vs places.old → IsIndexUpTo (place + 1) vs places.new) }
{
    match variable.name {
        None => Ok(true),
        Some(name) => add_name(places, place, name),
    }
}

/// Adds the place of a name; whether it had none.
fn add_name<'a>(
    places: &mut NameIndex<'a>,
    place: usize,
    name: Lexeme<'a>,
) -> Result<bool, AllocError>
    ensures { IfOk result (λ is_new. is_new ≡ true → (vs : List VariableLem) (v : VariableLem) → slice_get vs place ≡ Some v → v.name ≡ Some (lexeme name.entry) → IsIndexUpTo place vs places.old → IsIndexUpTo (place + 1) vs places.new) }
{
    let Ok(number) = u32::try_from(place) else {
        return Ok(false);
    };
    places.insert(name.bytes, number)
}

/// Whether all of these are names of bound variables among the first ones.
pub fn are_bound_before<'a>(
    index: &Option<NameIndex<'a>>,
    variables: &[Variable<'_, 'a>],
    end: usize,
    deps: &[Lexeme<'a>],
) -> bool
    requires index { MatchOption index.now ⊤ (IsIndexOf (map variable_lem variables.now)) }
    requires end { end ≤ length variables.now }
    ensures { IsTrue result ↔ Every (IsBoundAmong (map variable_lem (take end variables.now))) (map lexeme deps.now) }
{
    for dep in deps {
        if !is_bound_before(index, variables, end, *dep) {
            return false;
        }
    }
    true
}

fn is_bound_before<'a>(
    index: &Option<NameIndex<'a>>,
    variables: &[Variable<'_, 'a>],
    end: usize,
    dep: Lexeme<'a>,
) -> bool
    requires index { MatchOption index.now ⊤ (IsIndexOf (map variable_lem variables.now)) }
    requires end { end ≤ length variables.now }
    ensures { IsTrue result ↔ IsBoundAmong (map variable_lem (take end variables.now)) (lexeme dep.entry) }
{
    match index {
        None => is_bound(&variables[..end], dep),
        Some(places) => is_found_bound(places, variables, end, dep),
    }
}

fn is_found_bound<'a>(
    places: &NameIndex<'a>,
    variables: &[Variable<'_, 'a>],
    end: usize,
    dep: Lexeme<'a>,
) -> bool
    requires index { IsIndexOf (map variable_lem variables.now) places.now }
    requires end { end ≤ length variables.now }
    ensures { IsTrue result ↔ IsBoundAmong (map variable_lem (take end variables.now)) (lexeme dep.entry) }
{
    match places.get(dep.bytes) {
        None => false,
        Some(place) => is_bound_within(variables, end, place as usize),
    }
}

/// Whether a bound variable stands at the place, before the end.
fn is_bound_within(variables: &[Variable<'_, '_>], end: usize, place: usize) -> bool
    requires { end ≤ length variables.now }
    ensures { IsTrue result ↔ ((place < end) × (v : VariableRead) × (slice_get variables.now place ≡ Some v) × (v.is_bound ≡ true)) }
{
    if place >= end {
        return false;
    }
    variables[place].is_bound
}

/// The places of the variables that are among the dependencies.
///
/// # Errors
///
/// Where there is no memory.
pub fn places_among<'a>(
    alloc: Global,
    index: &Option<NameIndex<'a>>,
    variables: &[Variable<'_, 'a>],
    deps: &[Lexeme<'a>],
) -> Result<Deps, AllocError>
    requires index { MatchOption index.now ⊤ (IsIndexOf (map variable_lem variables.now)) }
    requires small { length variables.now < 2 ^ 32 }
    ensures { IfOk result (λ places. places ≡ dep_places_lem 0 (map variable_lem variables.now) (map lexeme deps.now)) }
{
    if deps.is_empty() {
        return Ok(Deps::new());
    }
    match index {
        None => dep_places(alloc, variables, deps),
        Some(places) => sorted_places(alloc, places, deps),
    }
}

/// The places of these names in order, each once.
fn sorted_places<'a>(
    alloc: Global,
    places: &NameIndex<'a>,
    deps: &[Lexeme<'a>],
) -> Result<Deps, AllocError>
    ensures { IfOk result (λ found. (vs : List VariableLem) → IsIndexOf vs places.now → found ≡ dep_places_lem 0 vs (map lexeme deps.now)) }
{
    let mut found = places_found(alloc, places, deps)?;
    found.sort()?;
    found.dedup();
    Deps::from_vec(found)
}

/// The place of each of these names that is there.
fn places_found<'a>(
    alloc: Global,
    places: &NameIndex<'a>,
    deps: &[Lexeme<'a>],
) -> Result<Vec<u32>, AllocError>
    ensures { IfOk result (λ found. found.items ≡ found_in places.now (map lexeme deps.now)) }
{
    let mut found = Vec::new(alloc);
    for dep in deps {
        push_found(&mut found, places.get(dep.bytes))?;
    }
    Ok(found)
}

fn push_found(found: &mut Vec<u32>, place: Option<u32>) -> Result<(), AllocError>
    ensures { OnOk result (found.new.items ≡ found.old.items ++ all_found place) }
{
    if let Some(place) = place {
        found.push(place)?;
    }
    Ok(())
}
