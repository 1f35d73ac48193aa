//! The rows of a file.
ghost use Rattle.std.specs.Prelude.{◌≡◌, ◌<◌, IfOk, List, true};
ghost use Rattle.mz_logic_theory.specs.Tree.{Tree};
ghost use Rattle.mz_logic_theory.specs.Signature.{Signature};
ghost use Rattle.mz_logic_theory.specs.Declaration.{Assertion, Term, defined};
ghost use Rattle.mz_logic_theory.specs.declared.binder.Binder.{Binder};
ghost use Rattle.mz_layout_tables.specs.Tables.{term_count, term_row, thm_count};
ghost use Rattle.mz_machine_theory.specs.Spells.{SpellsTerm, SpellsThm};
ghost use Rattle.mz_machine_theory.specs.FileRows.{term_of_file, thm_of_file};
ghost use Rattle.mz_decompile_text.specs.Naming.{vocabulary_by};
ghost use Rattle.mz_decompile_text.specs.ByNumber.{Grows};
ghost use Rattle.mz_decompile_text.specs.Rows.{AreArities, IsDefined, IsSaid};

use crate::reading::Reading;
use crate::{PairNames, Phrases};
use mz_cmd::Mem;
use mz_layout_tables::Mmb;
use mz_logic_theory::Terms;
use std::alloc::Global;

/// What an axiom or theorem says: its hypotheses, in order, and its conclusion, as phrases.
#[derive(Drop)]
pub struct Said {
    pub hypotheses: Vec<usize>,
    pub conclusion: usize,
}

/// A definition's body, as a phrase. Its dummies, of these sorts, are the variables behind the parameters.
#[derive(Drop)]
pub struct Defined {
    pub dummies: Vec<u32>,
    pub body: usize,
}

/// Pushes the phrases of what the row of an axiom or theorem spells.
///
/// # Errors
///
/// Where there is no memory. The phrases that were there stay, and others may stand behind them.
pub fn assertion(
    alloc: Global,
    mmb: &Mmb,
    names: &PairNames,
    row: u32,
    phrases: &mut Phrases,
) -> Result<Said, Mem>
    requires row { row < thm_count mmb.now }
    requires spells { (sigs : List Signature) × AreArities mmb.now sigs × ((a : Assertion) × SpellsThm sigs (thm_of_file mmb.now row) a) }
    ensures grows { Grows phrases.old phrases.new }
    ensures said { IfOk result (λ s. (sigs : List Signature) (a : Assertion) → AreArities mmb.now sigs → SpellsThm sigs (thm_of_file mmb.now row) a
        → IsSaid (vocabulary_by names.now) phrases.new s a) }
{
    let (_, stream) = mmb.unify_of_thm(row);
    let params = mmb.thm_arity(row);
    let mut reading = Reading::new(alloc, names, stream, params, phrases)?;
    let conclusion = reading.expression(mmb, names, phrases)?;
    let hypotheses = reading.hypotheses(mmb, names, phrases)?;
    Ok(Said {
        hypotheses,
        conclusion,
    })
}

/// Pushes the phrase of the body that a definition's row spells.
///
/// # Errors
///
/// Where there is no memory. The phrases that were there stay, and others may stand behind them.
pub fn definition(
    alloc: Global,
    mmb: &Mmb,
    names: &PairNames,
    row: u32,
    phrases: &mut Phrases,
) -> Result<Defined, Mem>
    requires row { row < term_count mmb.now }
    requires body { (term_row mmb.now row).words.has_body ≡ true }
    requires spells { (sigs : List Signature) × AreArities mmb.now sigs × ((d : Term) × SpellsTerm sigs (term_of_file mmb.now row) d) }
    ensures grows { Grows phrases.old phrases.new }
    ensures defined { IfOk result (λ s. (sigs : List Signature) (d : Term) (dummies : List Binder) (body : Tree) → AreArities mmb.now sigs → SpellsTerm sigs (term_of_file mmb.now row) d
        → d.form ≡ defined dummies body → IsDefined (vocabulary_by names.now) phrases.new s dummies body) }
{
    let (_, stream) = mmb.unify_of_term(row);
    let params = mmb.arity(row);
    let mut reading = Reading::new(alloc, names, stream, params, phrases)?;
    let body = reading.expression(mmb, names, phrases)?;
    Ok(Defined {
        dummies: reading.dummies,
        body,
    })
}
