//! Theorems.
ghost use Rattle.std.specs.Prelude.{◌≡◌, ◌<◌, IfOk, List, Option};
ghost use Rattle.mz_logic_theory.specs.Declaration.{Assertion, Declaration};
ghost use Rattle.mz_logic_theory.specs.Signature.{Signature};
ghost use Rattle.mz_logic_theory.specs.declared.binder.Binder.{Binder};
ghost use Rattle.mz_layout_tables.specs.Tables.{thm_count};
ghost use Rattle.mz_machine_theory.specs.Spells.{SpellsThm};
ghost use Rattle.mz_machine_theory.specs.FileRows.{thm_of_file};
ghost use Rattle.mz_mmu_theory.specs.Proof.{Proof};
ghost use Rattle.mz_decompile_text.specs.Naming.{vocabulary_by};
ghost use Rattle.mz_decompile_text.specs.Rows.{AreArities};
ghost use Rattle.mz_decompile.specs.Telling.{IsTheorem, MakesProof, MakesSome, SpellsSomeThm};

use crate::axiom::put_heading;
use crate::dummies::put_dummies;
use crate::hypotheses::put_hypotheses;
use crate::proof::prove;
use crate::weight::weight_said;
use mz_cmd::Mem;
use mz_decompile_text::{PairNames, Phrases, assertion};
use mz_layout_tables::{Head, Mmb, Rows};
use std::alloc::Global;

/// Adds the parts of a theorem. The result is its weight.
pub(crate) fn put_theorem(
    alloc: Global,
    mmb: &Mmb,
    names: &PairNames,
    head: Head,
    before: Rows,
    phrases: &mut Phrases,
    parts: &mut Vec<usize>,
) -> Result<u128, Mem>
    requires row { before.thms < thm_count mmb.now }
    requires spells { SpellsSomeThm mmb.now before.thms }
    requires makes { MakesSome mmb.now before head.body head.next }
    ensures { IfOk result (λ weight. (env : List Declaration) (sigs : List Signature) (a : Assertion) (dummies : List Binder) (p : Option Proof)
        → AreArities mmb.now sigs → SpellsThm sigs (thm_of_file mmb.now before.thms) a → MakesProof mmb.now before env head.body head.next dummies p
        → IsTheorem (vocabulary_by names.now) env phrases.old phrases.new parts.old.items parts.new.items weight
        ((vocabulary_by names.now).assertion before.thms) a dummies p) }
{
    let row = before.thms;
    let params = mmb.thm_arity(row);
    put_heading(alloc, mmb, names, row, b"theorem", phrases, parts)?;
    let said = assertion(alloc, mmb, names, row, phrases)?;
    let weight = weight_said(params, &said, phrases);
    put_hypotheses(alloc, names, &said.hypotheses, phrases, parts)?;
    parts.push(said.conclusion)?;
    let proved = prove(alloc, mmb, names, head, before, phrases)?;
    put_dummies(alloc, names, params, &proved.dummies, phrases, parts)?;
    parts.push(proved.phrase)?;
    let dummies = proved.dummies.len() as u128;
    Ok(weight.saturating_add(dummies).saturating_add(proved.weight))
}
