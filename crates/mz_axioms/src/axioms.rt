// A specification and a binary together: what each theorem rests on.
ghost use Rattle.std.specs.Prelude.{◌≡◌, ◌≤◌, ◌<◌, ◌⊎◌, ◌+◌, ◌*◌, ◌^◌, ℕ, List, length, IfOk};
ghost use Rattle.mz_match_theory.specs.declared.verdict.Verdict.{Verdict as TheVerdict};
ghost use Rattle.mz_match_theory.specs.Verdict.{Accepts, FirstRefusal};
ghost use Rattle.mz_axioms.specs.Reading.{IsAxiomsRead, IsLists, TicksAs};
ghost use Rattle.mz_match.specs.Judged.{IsAccepted};
ghost use Rattle.mz_binary_theory.specs.Standards.{strict_standard};
ghost use Rattle.mz_axioms.specs.Lists.{AreSupports};

use crate::lists::{Lists, lists_of};
use crate::walk::rows_of;
use mz_binary::StrictBodies;
use mz_cmd::Steps;
use mz_match::{Accepted, judge};
use mz_match_theory::Verdict;
use mz_spec::Hashing;
use mz_store::Seed;
use std::alloc::{AllocError, Global};
use std::sync::ledger::Ledger;

/// What is said of a specification and a binary.
#[derive(Drop)]
pub enum AxiomsRead {
    /// The pair is accepted, and its theorems rest on these axioms.
    Lists(Lists),
    /// Its first refusal.
    Refused(Verdict),
    /// Out of memory.
    Mem,
}

/// Verifies a binary against a specification, and says what its theorems rest on.
///
/// The steps counted are those of the verification. The bodies are read once more, for their
/// citations, and no command of them is executed then.
pub fn axioms_of<L: Ledger>(
    alloc: Global,
    seed: Seed,
    spec: &[u8],
    bin: &[u8],
    steps: &mut Steps<L>,
) -> AxiomsRead
    requires spec { length spec.now < 2 ^ 32 }
    requires bin { length bin.now < 2 ^ 32 }
    ensures read { IsAxiomsRead spec.now bin.now result }
    ensures accepted { Accepts spec.now bin.now → IsLists result }
    ensures refused { (verdict : TheVerdict) → FirstRefusal spec.now bin.now verdict → (result ≡ AxiomsRead.Refused verdict) ⊎ (result ≡ AxiomsRead.Mem) }
    ensures steps { TicksAs bin.now steps.old steps.new result }
    ensures bound { steps.new ≤ steps.old + (length bin.now * length bin.now + length bin.now) }
{
    match judge::<StrictBodies, L>(alloc, seed, spec, bin, steps) {
        Ok(pair) => match axioms_in(alloc, seed, &pair) {
            Ok(lists) => AxiomsRead::Lists(lists),
            Err(_) => AxiomsRead::Mem,
        },
        Err(verdict) => match verdict {
            Verdict::Mem => AxiomsRead::Mem,
            _ => AxiomsRead::Refused(verdict),
        },
    }
}

/// What the theorems of a pair rest on that is accepted.
pub fn axioms_in(alloc: Global, seed: Seed, pair: &Accepted) -> Result<Lists, AllocError>
    requires { (spec : List ℕ) × (bin : List ℕ) × IsAccepted strict_standard spec bin pair.now }
    ensures { (spec bin : List ℕ) → IsAccepted strict_standard spec bin pair.now → IfOk result (AreSupports spec bin) }
{
    let table = rows_of(alloc, Hashing::from(seed), &pair.mmb)?;
    lists_of(alloc, table)
}
