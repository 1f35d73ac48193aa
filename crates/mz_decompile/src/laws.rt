// Laws on the definitions.
ghost use Rattle.std.specs.Prelude.{ℕ, List};
ghost use Rattle.mz_decompile.specs.Decompiling.{IsDecided};
ghost use Rattle.mz_decompile.specs.Tracing.{GoodTheoremsStand};

use crate::accepted_are_restated;
use mz_match_theory::each_pair_has_one_verdict;
use mz_trace::bodies_make_proofs;

/// Each pair that is accepted has one text, or one thing that stands first against it, and never both; and no other
/// pair has either.
pub fn decompilation_is_decided()
    ensures { (spec bin : List ℕ) → IsDecided spec bin }
{
    each_pair_has_one_verdict();
    accepted_are_restated();
}

/// Each theorem that a checker reports without gaps has what `mz_trace::trace` asks for, so that it answers with the
/// proof's nodes or runs out of memory.
pub fn good_theorems_are_traced()
    ensures { GoodTheoremsStand }
{
    bodies_make_proofs();
}
