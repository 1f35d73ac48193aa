// The text, or what stands against it.
ghost use Rattle.std.specs.Prelude.{◌≡◌, ◌+◌, ◌*◌, ℕ, IfOk, List, max};
ghost use Rattle.mz_mmu_theory.specs.Statements.{Statement};
ghost use Rattle.mz_decompile_text.specs.Naming.{vocabulary_by};
ghost use Rattle.mz_decompile_text.specs.Measures.{capped};
ghost use Rattle.mz_decompile.specs.Standing.{AreAll, SomeAreAll};
ghost use Rattle.mz_decompile.specs.Passes.{IsAnswer};

use crate::decompiled::Decompiled;
use crate::measure::{Measured, Sizes, measure};
use crate::write::text;
use mz_cmd::Mem;
use mz_decompile_text::PairNames;
use mz_layout_tables::Mmb;
use std::alloc::Global;

/// The most bytes of a text, and of what it compiles to.
const LONGEST: u128 = 4_294_967_295;

/// The text of a binary's statements, or what stands first against it. The passes share nothing, so that no more than
/// one statement's phrases are kept at a time.
pub(crate) fn answer(alloc: Global, mmb: &Mmb, names: &PairNames) -> Result<Decompiled, Mem>
    requires { SomeAreAll mmb.now names.now }
    ensures { IfOk result (λ d. (ts : List Statement) → AreAll mmb.now names.now ts → IsAnswer (vocabulary_by names.now) ts d) }
{
    match measure(alloc, mmb, names)? {
        Measured::Deep(number) => Ok(Decompiled::Deep(number)),
        Measured::Whole(sizes) => {
            let count = greater(sizes);
            if count > LONGEST {
                return Ok(Decompiled::Limit { count });
            }
            Ok(Decompiled::Text(text(alloc, mmb, names)?))
        }
    }
}

/// The length, or the bound on that of what a text of this weight compiles to, if it is greater.
fn greater(sizes: Sizes) -> u128
    ensures { (len weight : ℕ) → sizes.len ≡ capped len → sizes.weight ≡ capped weight → result ≡ capped (max len (64 + 32 * weight)) }
{
    sizes
        .weight
        .saturating_mul(32)
        .saturating_add(64)
        .max(sizes.len)
}
