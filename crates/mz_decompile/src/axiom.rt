//! Axioms.
ghost use Rattle.std.specs.Prelude.{◌≡◌, ◌<◌, ◌∷◌, [], IfOk, List, OnOk};
ghost use Rattle.mz_logic_theory.specs.Declaration.{Assertion};
ghost use Rattle.mz_logic_theory.specs.Signature.{Signature};
ghost use Rattle.mz_logic_theory.specs.Words.{binders_of};
ghost use Rattle.mz_layout_tables.specs.Tables.{thm_count, thm_row};
ghost use Rattle.mz_machine_theory.specs.Spells.{SpellsThm};
ghost use Rattle.mz_machine_theory.specs.FileRows.{thm_of_file};
ghost use Rattle.mz_decompile_text.specs.Phrases.{a_word, a_list};
ghost use Rattle.mz_decompile_text.specs.Phrasing.{binders};
ghost use Rattle.mz_decompile_text.specs.Naming.{vocabulary_by};
ghost use Rattle.mz_decompile_text.specs.Rows.{AreArities};
ghost use Rattle.mz_decompile.specs.Adding.{Adds};
ghost use Rattle.mz_decompile.specs.Telling.{IsAxiom, SpellsSomeThm};

use crate::params::put_params;
use crate::parts::{put_list, put_word};
use crate::weight::weight_said;
use mz_cmd::Mem;
use mz_decompile_text::{PairNames, Phrases, assertion};
use mz_layout_tables::{Mmb, Row};
use std::alloc::Global;

/// Adds the parts of an axiom. The result is its weight.
pub(crate) fn put_axiom(
    alloc: Global,
    mmb: &Mmb,
    names: &PairNames,
    row: u32,
    phrases: &mut Phrases,
    parts: &mut Vec<usize>,
) -> Result<u128, Mem>
    requires row { row < thm_count mmb.now }
    requires spells { SpellsSomeThm mmb.now row }
    ensures { IfOk result (λ weight. (sigs : List Signature) (a : Assertion) → AreArities mmb.now sigs → SpellsThm sigs (thm_of_file mmb.now row) a
        → IsAxiom (vocabulary_by names.now) phrases.old phrases.new parts.old.items parts.new.items weight ((vocabulary_by names.now).assertion row) a) }
{
    put_heading(alloc, mmb, names, row, b"axiom", phrases, parts)?;
    let said = assertion(alloc, mmb, names, row, phrases)?;
    let weight = weight_said(mmb.thm_arity(row), &said, phrases);
    put_list(&said.hypotheses, phrases, parts)?;
    parts.push(said.conclusion)?;
    Ok(weight)
}

/// Adds a token, the name of the axiom or theorem, and its parameters.
pub(crate) fn put_heading(
    alloc: Global,
    mmb: &Mmb,
    names: &PairNames,
    row: u32,
    word: &[u8],
    phrases: &mut Phrases,
    parts: &mut Vec<usize>,
) -> Result<(), Mem>
    requires { row < thm_count mmb.now }
    ensures { OnOk result (Adds phrases.old phrases.new parts.old.items parts.new.items
        (a_word word.now ∷ a_word ((vocabulary_by names.now).assertion row)
        ∷ a_list (binders (vocabulary_by names.now) 0 (binders_of (thm_row mmb.now row).params)) ∷ [])) }
{
    put_word(word, phrases, parts)?;
    put_word(names.assertion(row), phrases, parts)?;
    let _places = put_params(alloc, mmb, names, Row::Thm(row), phrases, parts)?;
    Ok(())
}
