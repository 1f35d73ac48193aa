// A specification and a binary whose proofs may have gaps.
ghost use Rattle.std.specs.Prelude.{◌≡◌, ◌⊎◌, ◌<◌, ◌≤◌, ◌+◌, ◌*◌, ◌^◌, ℕ, length};
ghost use Rattle.mz_binary_theory.specs.Standards.{draft_standard};
ghost use Rattle.mz_match_theory.specs.declared.verdict.Verdict.{Verdict as TheVerdict};
ghost use Rattle.mz_match_theory.specs.declared.verdict.Verdict.TheVariants as verdicts;
ghost use Rattle.mz_match.specs.Drafts.{IsDraft, IsDraftSoundIfAccepted, verdict_of};
ghost use Rattle.mz_match_theory.specs.Verdict.{AcceptsWithBy, FirstRefusalBy, TicksBy};

use crate::verify::judge;
use mz_binary::DraftBodies;
use mz_cmd::{Refusal, Steps};
use mz_match_theory::{Counts, Verdict};
use mz_spec_proved_theory::M;
use mz_spec_theory::SpecRefusal;
use mz_store::Seed;
use std::alloc::Global;
use std::marker::Model;
use std::sync::ledger::Ledger;

/// The theorems of a specification that rest on a gap: the places of their declarations, from 0, in
/// order.
#[derive(Drop)]
pub struct Gaps {
    pub(crate) places: Vec<u32>,
}

impl Model for Gaps {
    ghost use Rattle.std.specs.Prelude.{List, ℕ};

    ghost Value = { List ℕ };

    ghost view = { λ g. g.places.items };
}

impl Gaps {
    /// The places.
    pub fn places(&self) -> &[u32]
        ensures { result.now ≡ self.now }
    {
        self.places.as_slice()
    }
}

/// What is said of a specification and a binary whose proofs may have gaps.
#[derive(Drop)]
pub enum Draft {
    /// The binary states what the specification declares, so many declarations of each kind, and proves
    /// it but for these theorems, which rest on a gap.
    Accepted(Counts, Gaps),
    /// The specification's first fault.
    Spec(SpecRefusal),
    /// The binary's first fault, before anything differs.
    Binary(Refusal),
    /// The first difference: at which declaration and at which statement, both counted from 1.
    Match {
        declaration: u32,
        statement: u32,
        rule: M,
    },
    /// Out of memory.
    Mem,
}

/// Checks a binary whose proofs may have gaps against a specification, as `verify_bytes` does one
/// without, and says which of the specification's theorems rest on a gap.
pub fn draft_bytes<L: Ledger>(
    alloc: Global,
    seed: Seed,
    spec: &[u8],
    bin: &[u8],
    steps: &mut Steps<L>,
) -> Draft
    requires spec { length spec.now < 2 ^ 32 }
    requires bin { length bin.now < 2 ^ 32 }
    ensures draft { IsDraft spec.now bin.now result }
    ensures accepted { (counts : Counts) → AcceptsWithBy draft_standard spec.now bin.now counts → (verdict_of result ≡ verdicts.Accepted counts) ⊎ (verdict_of result ≡ verdicts.Mem) }
    ensures refused { (verdict : TheVerdict) → FirstRefusalBy draft_standard spec.now bin.now verdict → (verdict_of result ≡ verdict) ⊎ (verdict_of result ≡ verdicts.Mem) }
    ensures sound { IsDraftSoundIfAccepted spec.now bin.now result }
    ensures steps { TicksBy draft_standard bin.now steps.old steps.new (verdict_of result) }
    ensures bound { steps.new ≤ steps.old + (length bin.now * length bin.now + length bin.now) }
{
    judge_draft(alloc, seed, spec, bin, steps)
}

fn judge_draft<L: Ledger>(
    alloc: Global,
    seed: Seed,
    spec: &[u8],
    bin: &[u8],
    steps: &mut Steps<L>,
) -> Draft
    requires spec { length spec.now < 2 ^ 32 }
    requires bin { length bin.now < 2 ^ 32 }
    ensures draft { IsDraft spec.now bin.now result }
    ensures steps { TicksBy draft_standard bin.now steps.old steps.new (verdict_of result) }
    ensures bound { steps.new ≤ steps.old + (length bin.now * length bin.now + length bin.now) }
{
    match judge::<DraftBodies, L>(alloc, seed, spec, bin, steps) {
        Ok(pair) => Draft::Accepted(pair.counts, pair.gaps),
        Err(Verdict::Spec(refusal)) => Draft::Spec(refusal),
        Err(Verdict::Binary(refusal)) => Draft::Binary(refusal),
        Err(
            Verdict::Match {
                declaration,
                statement,
                rule,
            },
        ) => Draft::Match {
            declaration,
            statement,
            rule,
        },
        Err(Verdict::Accepted(_) | Verdict::Mem) => Draft::Mem,
    }
}
