//! Dummies.
ghost use Rattle.std.specs.Prelude.{◌≡◌, ◌<◌, ◌≤◌, ◌+◌, ◌∷◌, [], OnOk, length, map};
ghost use Rattle.mz_machine_theory.specs.Spells.{dummy_of};
ghost use Rattle.mz_decompile_text.specs.Phrases.{a_list};
ghost use Rattle.mz_decompile_text.specs.Phrasing.{binder, binders};
ghost use Rattle.mz_decompile_text.specs.Naming.{vocabulary_by};
ghost use Rattle.mz_decompile.specs.Adding.{Adds};

use crate::parts::{put_list, put_variable, put_word};
use mz_cmd::Mem;
use mz_decompile_text::{PairNames, Phrases};
use std::alloc::Global;

/// Adds a list of dummies of these sorts, behind so many parameters.
pub(crate) fn put_dummies(
    alloc: Global,
    names: &PairNames,
    params: u32,
    sorts: &[u32],
    phrases: &mut Phrases,
    parts: &mut Vec<usize>,
) -> Result<(), Mem>
    ensures { OnOk result (Adds phrases.old phrases.new parts.old.items parts.new.items
        (a_list (binders (vocabulary_by names.now) params (map dummy_of sorts.now)) ∷ [])) }
{
    let mut inner = Vec::new(alloc);
    'sorts: for (i, sort) in sorts.iter().enumerate() {
        put_dummy(
            alloc,
            names,
            params as usize + i,
            *sort,
            phrases,
            &mut inner,
        )?;
    }
    put_list(&inner, phrases, parts)
}

/// Adds a dummy of a sort.
fn put_dummy(
    alloc: Global,
    names: &PairNames,
    variable: usize,
    sort: u32,
    phrases: &mut Phrases,
    parts: &mut Vec<usize>,
) -> Result<(), Mem>
    ensures { OnOk result (Adds phrases.old phrases.new parts.old.items parts.new.items (binder (vocabulary_by names.now) variable (dummy_of sort) ∷ [])) }
{
    let mut inner = Vec::new(alloc);
    put_variable(alloc, names, variable, phrases, &mut inner)?;
    put_word(names.sort(sort), phrases, &mut inner)?;
    put_list(&inner, phrases, parts)
}
