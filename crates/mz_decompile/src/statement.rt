//! A statement, whatever its kind.
ghost use Rattle.std.specs.Prelude.{IfOk, List};
ghost use Rattle.mz_logic_theory.specs.Declaration.{Declaration};
ghost use Rattle.mz_mmu_theory.specs.Statements.{Statement};
ghost use Rattle.mz_decompile_text.specs.Naming.{vocabulary_by};
ghost use Rattle.mz_decompile.specs.Telling.{AreParts, IsSized, SomeStands, Stands};

use crate::axiom::put_axiom;
use crate::parts::put_word_if;
use crate::size::Sized;
use crate::sort::put_sort;
use crate::term::put_term;
use crate::theorem::put_theorem;
use mz_binary_walk::is_local;
use mz_cmd::{Mem, StatementCode};
use mz_decompile_text::{PairNames, Phrases};
use mz_layout_tables::{Head, Mmb, Rows};
use std::alloc::Global;

/// The phrase and the weight of the statement with this head, before which so many rows were taken. The phrase, and
/// those of its parts, are added to the phrases.
///
/// # Errors
///
/// Where there is no memory.
pub fn statement(
    alloc: Global,
    mmb: &Mmb,
    names: &PairNames,
    head: Head,
    before: Rows,
    phrases: &mut Phrases,
) -> Result<Sized, Mem>
    requires { SomeStands mmb.now names.now before head }
    ensures { IfOk result (λ told. (env : List Declaration) (t : Statement) → Stands mmb.now names.now before env head t
        → IsSized (vocabulary_by names.now) env phrases.new told t) }
{
    let mut parts = Vec::new(alloc);
    put_word_if(is_local(head.code), b"local", phrases, &mut parts)?;
    let weight = put_parts(alloc, mmb, names, head, before, phrases, &mut parts)?;
    let phrase = phrases.list(&parts)?;
    Ok(Sized { phrase, weight })
}

/// Adds the parts of a statement but for its visibility. The result is its weight.
fn put_parts(
    alloc: Global,
    mmb: &Mmb,
    names: &PairNames,
    head: Head,
    before: Rows,
    phrases: &mut Phrases,
    parts: &mut Vec<usize>,
) -> Result<u128, Mem>
    requires { SomeStands mmb.now names.now before head }
    ensures { IfOk result (λ weight. (env : List Declaration) (t : Statement) → Stands mmb.now names.now before env head t
        → AreParts (vocabulary_by names.now) env phrases.old phrases.new parts.old.items parts.new.items weight t) }
{
    match head.code {
        StatementCode::Sort => {
            put_sort(mmb, names, before.sorts, phrases, parts)?;
            Ok(1)
        }
        StatementCode::Term | StatementCode::LocalDefinition => {
            put_term(alloc, mmb, names, before.terms, phrases, parts)
        }
        StatementCode::Axiom => put_axiom(alloc, mmb, names, before.thms, phrases, parts),
        StatementCode::Theorem | StatementCode::LocalTheorem => {
            put_theorem(alloc, mmb, names, head, before, phrases, parts)
        }
    }
}
