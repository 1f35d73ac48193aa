// A specification and a binary together, by identity.
ghost use Rattle.std.specs.Prelude.{◌≡◌, ◌⊎◌, ◌<◌, ◌≤◌, ◌+◌, ◌*◌, ◌^◌, length};
ghost use Rattle.mz_match_theory.specs.Verdict.{IsSoundIfAccepted};
ghost use Rattle.mz_portable.specs.Portable.{FirstPortableRefusal, IsAcceptedByTable, IsPortableVerdict, PortableTicks, PortablyAccepts};

use crate::bodies::PortableBodies;
use mz_cmd::Steps;
use mz_match::verify_by;
use mz_match_theory::{Counts, Verdict};
use mz_store::Seed;
use std::alloc::Global;
use std::sync::ledger::Ledger;

/// Verifies a binary against a specification as verifiers do that compare by identity: as `verify_bytes`
/// does, but that two expressions are the same only where the same commands of a body made them.
pub fn portable_bytes<L: Ledger>(
    alloc: Global,
    seed: Seed,
    spec: &[u8],
    bin: &[u8],
    steps: &mut Steps<L>,
) -> Verdict
    requires spec { length spec.now < 2 ^ 32 }
    requires bin { length bin.now < 2 ^ 32 }
    ensures verdict { IsPortableVerdict spec.now bin.now result }
    ensures accepted { (counts : Counts) → PortablyAccepts spec.now bin.now counts → (result ≡ Verdict.Accepted counts) ⊎ (result ≡ Verdict.Mem) }
    ensures refused { (verdict : Verdict) → FirstPortableRefusal spec.now bin.now verdict → (result ≡ verdict) ⊎ (result ≡ Verdict.Mem) }
    ensures table { IsAcceptedByTable spec.now bin.now result }
    ensures sound { IsSoundIfAccepted spec.now bin.now result }
    ensures steps { PortableTicks bin.now steps.old steps.new result }
    ensures bound { steps.new ≤ steps.old + (length bin.now * length bin.now + length bin.now) }
{
    verify_by::<PortableBodies, L>(alloc, seed, spec, bin, steps)
}
