// The second pass: the text itself.
ghost use Rattle.std.specs.Prelude.{◌≡◌, ◌++◌, IfOk, List, OnOk, codes};
ghost use Rattle.mz_logic_theory.specs.Declaration.{Declaration};
ghost use Rattle.mz_mmu_theory.specs.Statements.{Statement};
ghost use Rattle.mz_decompile_text.specs.Naming.{vocabulary_by};
ghost use Rattle.mz_decompile_text.specs.Phrases.{written};
ghost use Rattle.mz_decompile_text.specs.Phrasing.{statement as the_statement, text_of};
ghost use Rattle.mz_decompile.specs.Telling.{SomeStands, Stands};
ghost use Rattle.mz_decompile.specs.Standing.{AreAll, SomeAreAll};

use crate::statement::statement;
use mz_binary_walk::Passed;
use mz_cmd::Mem;
use mz_decompile_text::{PairNames, Phrases};
use mz_layout_tables::{Head, Mmb, Rows};
use std::alloc::Global;

/// The text of a binary's statements, a line each.
pub(crate) fn text(alloc: Global, mmb: &Mmb, names: &PairNames) -> Result<Vec<u8>, Mem>
    requires { SomeAreAll mmb.now names.now }
    ensures { IfOk result (λ out. (ts : List Statement) → AreAll mmb.now names.now ts → out.items ≡ text_of (vocabulary_by names.now) ts) }
{
    let mut phrases = Phrases::new(alloc);
    let mut out = Vec::new(alloc);
    let mut passed = Passed::nothing(mmb);
    'statements: while let Some((head, after)) = passed.next(mmb) {
        put_line(alloc, mmb, names, head, passed.rows, &mut phrases, &mut out)?;
        passed = after;
    }
    Ok(out)
}

/// Appends a statement's line.
fn put_line(
    alloc: Global,
    mmb: &Mmb,
    names: &PairNames,
    head: Head,
    before: Rows,
    phrases: &mut Phrases,
    out: &mut Vec<u8>,
) -> Result<(), Mem>
    requires { SomeStands mmb.now names.now before head }
    ensures { OnOk result ((env : List Declaration) (t : Statement) → Stands mmb.now names.now before env head t
        → out.new.items ≡ out.old.items ++ (written (the_statement (vocabulary_by names.now) t) ++ codes "\n")) }
{
    phrases.clear();
    let told = statement(alloc, mmb, names, head, before, phrases)?;
    phrases.write(told.phrase, out)?;
    out.push(b'\n')?;
    Ok(())
}
