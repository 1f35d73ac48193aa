//! Terms and definitions.
ghost use Rattle.std.specs.Prelude.{◌≡◌, ◌<◌, ◌∷◌, [], IfOk, List, OnOk, true};
ghost use Rattle.mz_logic_theory.specs.Declaration.{Term};
ghost use Rattle.mz_logic_theory.specs.Signature.{Signature};
ghost use Rattle.mz_logic_theory.specs.Words.{binders_of, result_of};
ghost use Rattle.mz_layout_tables.specs.Tables.{term_count, term_row};
ghost use Rattle.mz_machine_theory.specs.Spells.{SpellsTerm};
ghost use Rattle.mz_machine_theory.specs.FileRows.{term_of_file};
ghost use Rattle.mz_decompile_text.specs.Phrases.{a_word, a_list};
ghost use Rattle.mz_decompile_text.specs.Phrasing.{binders, result as the_result};
ghost use Rattle.mz_decompile_text.specs.Naming.{vocabulary_by};
ghost use Rattle.mz_decompile_text.specs.Rows.{AreArities};
ghost use Rattle.mz_decompile.specs.Adding.{Adds};
ghost use Rattle.mz_decompile.specs.Telling.{IsTerm, SpellsSomeTerm};

use crate::dummies::put_dummies;
use crate::params::{put_params, put_result};
use crate::parts::put_word;
use mz_cmd::Mem;
use mz_decompile_text::{PairNames, Phrases, definition};
use mz_layout_tables::{Mmb, Row};
use mz_logic_theory::Terms;
use std::alloc::Global;

/// Adds the parts of a term or a definition. The result is its weight.
pub(crate) fn put_term(
    alloc: Global,
    mmb: &Mmb,
    names: &PairNames,
    row: u32,
    phrases: &mut Phrases,
    parts: &mut Vec<usize>,
) -> Result<u128, Mem>
    requires row { row < term_count mmb.now }
    requires spells { SpellsSomeTerm mmb.now row }
    ensures { IfOk result (λ weight. (sigs : List Signature) (d : Term) → AreArities mmb.now sigs → SpellsTerm sigs (term_of_file mmb.now row) d
        → IsTerm (vocabulary_by names.now) phrases.old phrases.new parts.old.items parts.new.items weight ((vocabulary_by names.now).term row) d) }
{
    if mmb.has_body(row) {
        return put_definition(alloc, mmb, names, row, phrases, parts);
    }
    put_signature(alloc, mmb, names, row, b"term", phrases, parts)?;
    Ok(1 + u128::from(mmb.arity(row)))
}

/// Adds the parts of a definition.
fn put_definition(
    alloc: Global,
    mmb: &Mmb,
    names: &PairNames,
    row: u32,
    phrases: &mut Phrases,
    parts: &mut Vec<usize>,
) -> Result<u128, Mem>
    requires row { row < term_count mmb.now }
    requires body { (term_row mmb.now row).words.has_body ≡ true }
    requires spells { SpellsSomeTerm mmb.now row }
    ensures { IfOk result (λ weight. (sigs : List Signature) (d : Term) → AreArities mmb.now sigs → SpellsTerm sigs (term_of_file mmb.now row) d
        → IsTerm (vocabulary_by names.now) phrases.old phrases.new parts.old.items parts.new.items weight ((vocabulary_by names.now).term row) d) }
{
    put_signature(alloc, mmb, names, row, b"def", phrases, parts)?;
    let defined = definition(alloc, mmb, names, row, phrases)?;
    let params = mmb.arity(row);
    put_dummies(alloc, names, params, &defined.dummies, phrases, parts)?;
    parts.push(defined.body)?;
    let binders = 1 + u128::from(params) + defined.dummies.len() as u128;
    Ok(phrases.words(defined.body).saturating_add(binders))
}

/// Adds a token, the term's name, its parameters and its result.
fn put_signature(
    alloc: Global,
    mmb: &Mmb,
    names: &PairNames,
    row: u32,
    word: &[u8],
    phrases: &mut Phrases,
    parts: &mut Vec<usize>,
) -> Result<(), Mem>
    requires { row < term_count mmb.now }
    ensures { OnOk result (Adds phrases.old phrases.new parts.old.items parts.new.items
        (a_word word.now ∷ a_word ((vocabulary_by names.now).term row)
        ∷ a_list (binders (vocabulary_by names.now) 0 (binders_of (term_row mmb.now row).words.params))
        ∷ the_result (vocabulary_by names.now) (result_of (term_row mmb.now row).words) ∷ [])) }
{
    put_word(word, phrases, parts)?;
    put_word(names.term(row), phrases, parts)?;
    let places = put_params(alloc, mmb, names, Row::Term(row), phrases, parts)?;
    put_result(alloc, names, mmb.result(row), &places, phrases, parts)
}
