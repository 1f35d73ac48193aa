//! Sorts.
ghost use Rattle.std.specs.Prelude.{◌≡◌, ◌<◌, ◌∷◌, [], None, OnOk, Some, length, map, slice_get};
ghost use Rattle.mz_logic_theory.specs.Declaration.{sort_decl};
ghost use Rattle.mz_logic_theory.specs.declared.binder.SortMods.{SortMods as TheMods};
ghost use Rattle.mz_layout_tables.specs.Tables.{tables_of};
ghost use Rattle.mz_decompile_text.specs.Phrases.{a_word};
ghost use Rattle.mz_decompile_text.specs.Phrasing.{declared_parts, modifiers};
ghost use Rattle.mz_decompile_text.specs.Naming.{vocabulary_by};
ghost use Rattle.mz_decompile.specs.Adding.{Adds};

use crate::parts::{put_word, put_word_if};
use mz_cmd::Mem;
use mz_decompile_text::{PairNames, Phrases};
use mz_layout_tables::Mmb;
use mz_logic_theory::{SortMods, Terms};

/// Adds the parts of a sort.
pub(crate) fn put_sort(
    mmb: &Mmb,
    names: &PairNames,
    row: u32,
    phrases: &mut Phrases,
    parts: &mut Vec<usize>,
) -> Result<(), Mem>
    requires { row < length (tables_of mmb.now).sorts }
    ensures { OnOk result ((mods : TheMods) → slice_get (tables_of mmb.now).sorts row ≡ Some mods
        → Adds phrases.old phrases.new parts.old.items parts.new.items (declared_parts (vocabulary_by names.now) ((vocabulary_by names.now).sort row) (sort_decl mods) [] None)) }
{
    put_word(b"sort", phrases, parts)?;
    put_word(names.sort(row), phrases, parts)?;
    put_modifiers(mmb.mods(row), phrases, parts)
}

/// Adds the tokens of a sort's modifiers.
fn put_modifiers(mods: SortMods, phrases: &mut Phrases, parts: &mut Vec<usize>) -> Result<(), Mem>
    ensures { OnOk result (Adds phrases.old phrases.new parts.old.items parts.new.items (map a_word (modifiers mods))) }
{
    put_word_if(mods.0 % 2 == 1, b"pure", phrases, parts)?;
    put_word_if(mods.0 / 2 % 2 == 1, b"strict", phrases, parts)?;
    put_word_if(mods.0 / 4 % 2 == 1, b"provable", phrases, parts)?;
    put_word_if(mods.0 / 8 % 2 == 1, b"free", phrases, parts)
}
