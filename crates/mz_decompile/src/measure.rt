// The first pass: how long and how heavy the text is, and whether a statement is too deep.
ghost use Rattle.std.specs.Prelude.{◌≡◌, ◌+◌, ℕ, IfOk, List};
ghost use Rattle.mz_logic_theory.specs.Declaration.{Declaration};
ghost use Rattle.mz_mmu_theory.specs.Statements.{Statement};
ghost use Rattle.mz_decompile_text.specs.Naming.{vocabulary_by};
ghost use Rattle.mz_decompile_text.specs.Measures.{capped};
ghost use Rattle.mz_decompile.specs.Telling.{SomeStands, Stands};
ghost use Rattle.mz_decompile.specs.Standing.{AreAll, SomeAreAll};
ghost use Rattle.mz_decompile.specs.Passes.{IsLine, IsMeasured};

use crate::statement::statement;
use mz_binary_walk::Passed;
use mz_cmd::Mem;
use mz_decompile_text::{PairNames, Phrases};
use mz_layout_tables::{Head, Mmb, Rows};
use std::alloc::Global;

/// A length and a weight, or the largest number in place of one that is larger.
#[derive(Clone, Copy)]
pub struct Sizes {
    pub len: u128,
    pub weight: u128,
}

impl Sizes {
    /// Nothing.
    const NONE: Sizes = Sizes { len: 0, weight: 0 };

    /// The sums of both.
    fn plus(self, other: Sizes) -> Sizes
        ensures len { (a b : ℕ) → self.len ≡ capped a → other.len ≡ capped b → result.len ≡ capped (a + b) }
        ensures weight { (a b : ℕ) → self.weight ≡ capped a → other.weight ≡ capped b → result.weight ≡ capped (a + b) }
    {
        Sizes {
            len: self.len.saturating_add(other.len),
            weight: self.weight.saturating_add(other.weight),
        }
    }
}

/// What is measured of a statement's line: its sizes, and whether the statement is too deep.
#[derive(Clone, Copy)]
pub struct Line {
    pub sizes: Sizes,
    pub deep: bool,
}

/// What the first pass gives.
#[derive(Clone, Copy)]
pub enum Measured {
    /// The length of the text and its weight.
    Whole(Sizes),
    /// The number of the first statement that is too deep.
    Deep(u32),
}

/// How deep lists may stand in one another.
const DEPTH_LIMIT: usize = 4096;

/// Measures the text of a binary's statements.
pub(crate) fn measure(alloc: Global, mmb: &Mmb, names: &PairNames) -> Result<Measured, Mem>
    requires { SomeAreAll mmb.now names.now }
    ensures { IfOk result (λ m. (ts : List Statement) → AreAll mmb.now names.now ts → IsMeasured (vocabulary_by names.now) ts m) }
{
    let mut phrases = Phrases::new(alloc);
    let mut passed = Passed::nothing(mmb);
    let mut so_far = Sizes::NONE;
    'statements: while let Some((head, after)) = passed.next(mmb) {
        let line = line_of(alloc, mmb, names, head, passed.rows, &mut phrases)?;
        if line.deep {
            return Ok(Measured::Deep(after.statements));
        }
        so_far = so_far.plus(line.sizes);
        passed = after;
    }
    Ok(Measured::Whole(so_far))
}

/// How long and how heavy the line of a statement is, and whether it is too deep.
fn line_of(
    alloc: Global,
    mmb: &Mmb,
    names: &PairNames,
    head: Head,
    before: Rows,
    phrases: &mut Phrases,
) -> Result<Line, Mem>
    requires { SomeStands mmb.now names.now before head }
    ensures { IfOk result (λ line. (env : List Declaration) (t : Statement) → Stands mmb.now names.now before env head t
        → IsLine (vocabulary_by names.now) env t line) }
{
    phrases.clear();
    let told = statement(alloc, mmb, names, head, before, phrases)?;
    let sizes = Sizes {
        len: phrases.length(told.phrase).saturating_add(1),
        weight: told.weight,
    };
    let deep = phrases.depth(told.phrase) > DEPTH_LIMIT;
    Ok(Line { sizes, deep })
}
