// A specification and a binary together.
ghost use Rattle.std.specs.Prelude.{◌≡◌, ◌⊎◌, ◌<◌, ◌≤◌, ◌+◌, ◌*◌, ◌^◌, ℕ, List, [], length, MatchResult, OnOk};
ghost use Rattle.mz_layout_tables.specs.Layout.{Layout};
ghost use Rattle.mz_spec_theory.specs.Spec.{SpecMakes};
ghost use Rattle.mz_match.specs.Drafts.{IsJudged, places_past};
ghost use Rattle.mz_match.specs.Judged.{IsAccepted, IsRefused, verdict_in};
ghost use Rattle.mz_spec_proved_theory.specs.Headline.{Proves};
ghost use Rattle.mz_match_theory.specs.Verdict.{AcceptsWith, AcceptsWithBy, FirstRefusal, FirstRefusalBy, IsSoundIfAccepted, IsVerdict, IsVerdictBy, Ticks, TicksBy};

use crate::accepted::Accepted;
use crate::draft::Gaps;
use crate::progress::Matching;
use mz_binary::{Bodies, Checker, Next, StrictBodies};
use mz_binary_theory::Statement;
use mz_cmd::{Mem, Steps};
use mz_layout_tables::Mmb;
use mz_match_theory::{Counts, Verdict};
use mz_spec::{Hashing, NamedSpec, SpecRead, read_spec};
use mz_spec_theory::Spec;
use mz_store::Seed;
use std::alloc::Global;
use std::sync::ledger::Ledger;

/// Verifies a binary against a specification: reads the specification, then checks the binary,
/// comparing each public statement with its declaration as it comes.
pub fn verify_bytes<L: Ledger>(
    alloc: Global,
    seed: Seed,
    spec: &[u8],
    bin: &[u8],
    steps: &mut Steps<L>,
) -> Verdict
    requires spec { length spec.now < 2 ^ 32 }
    requires bin { length bin.now < 2 ^ 32 }
    ensures verdict { IsVerdict spec.now bin.now result }
    ensures accepted { (counts : Counts) → AcceptsWith spec.now bin.now counts → (result ≡ Verdict.Accepted counts) ⊎ (result ≡ Verdict.Mem) }
    ensures refused { (verdict : Verdict) → FirstRefusal spec.now bin.now verdict → (result ≡ verdict) ⊎ (result ≡ Verdict.Mem) }
    ensures headline { (counts : Counts) → result ≡ Verdict.Accepted counts → Proves spec.now }
    ensures sound { IsSoundIfAccepted spec.now bin.now result }
    ensures steps { Ticks bin.now steps.old steps.new result }
    ensures bound { steps.new ≤ steps.old + (length bin.now * length bin.now + length bin.now) }
{
    verify_by::<StrictBodies, L>(alloc, seed, spec, bin, steps)
}

/// Verifies as `verify_bytes` does, the binary's bodies held to the standard of who runs them.
pub fn verify_by<B: Bodies, L: Ledger>(
    alloc: Global,
    seed: Seed,
    spec: &[u8],
    bin: &[u8],
    steps: &mut Steps<L>,
) -> Verdict
    requires spec { length spec.now < 2 ^ 32 }
    requires bin { length bin.now < 2 ^ 32 }
    ensures verdict { IsVerdictBy B.STANDARD spec.now bin.now result }
    ensures accepted { (counts : Counts) → AcceptsWithBy B.STANDARD spec.now bin.now counts → (result ≡ Verdict.Accepted counts) ⊎ (result ≡ Verdict.Mem) }
    ensures refused { (verdict : Verdict) → FirstRefusalBy B.STANDARD spec.now bin.now verdict → (result ≡ verdict) ⊎ (result ≡ Verdict.Mem) }
    ensures steps { TicksBy B.STANDARD bin.now steps.old steps.new result }
    ensures bound { steps.new ≤ steps.old + (length bin.now * length bin.now + length bin.now) }
{
    match judge::<B, L>(alloc, seed, spec, bin, steps) {
        Ok(pair) => Verdict::Accepted(pair.counts),
        Err(verdict) => verdict,
    }
}

/// Verifies so, and hands on what was read where the pair is accepted.
///
/// # Errors
///
/// The first refusal, or out of memory.
pub fn judge<'a, B: Bodies, L: Ledger>(
    alloc: Global,
    seed: Seed,
    spec: &'a [u8],
    bin: &'a [u8],
    steps: &mut Steps<L>,
) -> Result<Accepted<'a>, Verdict>
    requires spec { length spec.now < 2 ^ 32 }
    requires bin { length bin.now < 2 ^ 32 }
    ensures judged { MatchResult result (IsAccepted B.STANDARD spec.now bin.now) (IsRefused B.STANDARD spec.now bin.now) }
    ensures steps { TicksBy B.STANDARD bin.now steps.old steps.new (verdict_in result) }
    ensures bound { steps.new ≤ steps.old + (length bin.now * length bin.now + length bin.now) }
{
    let declared = match read_spec(alloc, Hashing::from(seed), spec) {
        SpecRead::Spec(declared) => declared,
        SpecRead::Refused(refusal) => return Err(Verdict::Spec(refusal)),
        SpecRead::Mem => return Err(Verdict::Mem),
    };
    let mmb = match Mmb::read(bin) {
        Ok(mmb) => mmb,
        Err(refusal) => return Err(Verdict::Binary(refusal)),
    };
    let mut places = Vec::new(alloc);
    match check_list::<B, L>(alloc, seed, &declared, &mmb, &mut places, steps) {
        Verdict::Accepted(counts) => Ok(Accepted {
            spec: NamedSpec {
                text: spec,
                declared,
            },
            mmb,
            counts,
            gaps: Gaps { places },
        }),
        verdict => Err(verdict),
    }
}

/// Checks the list of statements, and each public one beside its declaration.
fn check_list<B: Bodies, L: Ledger>(
    alloc: Global,
    seed: Seed,
    spec: &Spec,
    mmb: &Mmb,
    places: &mut Vec<u32>,
    steps: &mut Steps<L>,
) -> Verdict
    requires small { length mmb.now < 2 ^ 32 }
    requires layout { Layout mmb.now }
    requires none { places.old.items ≡ [] }
    ensures verdict { (text : List ℕ) → SpecMakes text spec.now → IsJudged B.STANDARD text mmb.now result places.new.items }
    ensures steps { TicksBy B.STANDARD mmb.now steps.old steps.new result }
    ensures bound { steps.new ≤ steps.old + (length mmb.now * length mmb.now + length mmb.now) }
{
    let mut checker = Checker::<B>::new(alloc, seed, mmb);
    let mut matching = Matching::new(alloc);
    'statements: loop {
        match checker.check_next(steps) {
            Next::Statement(after, told) => {
                let place = matching.done;
                if let Err(verdict) = matching.pass(alloc, spec, mmb, &told) {
                    return verdict;
                }
                let Ok(()) = note(&told, place, places) else {
                    return Verdict::Mem;
                };
                checker = after;
            }
            Next::End(_) => return matching.end(spec),
            Next::Refused(refusal) => return Verdict::Binary(refusal),
            Next::Mem => return Verdict::Mem,
        }
    }
}

/// Notes the declaration's place of a public theorem that rests on a gap.
fn note(told: &Statement, place: u32, places: &mut Vec<u32>) -> Result<(), Mem>
    ensures { OnOk result (places.new.items ≡ places_past told.now.local told.now.gap place places.old.items) }
{
    if told.gap && !told.local {
        places.push(place)?;
    }
    Ok(())
}
