// A specification and a binary, judged.
ghost use Rattle.std.specs.Prelude.{◌≡◌, ◌<◌, ◌^◌, MatchResult, length};
ghost use Rattle.mz_match.specs.Judged.{IsAccepted, IsRefused};

use mz_binary::Bodies;
use mz_cmd::Steps;
use mz_match::{Accepted, judge};
use mz_match_theory::Verdict;
use mz_store::Seed;
use std::alloc::Global;
use std::sync::ledger::{Blank, Ledger};

/// What is said of a specification and a binary, the steps of the check counted in a ledger of their own.
pub fn judged<'a, B: Bodies, L: Ledger>(
    alloc: Global,
    seed: Seed,
    blank: Blank,
    spec: &'a [u8],
    bin: &'a [u8],
) -> Result<Accepted<'a>, Verdict>
    requires name { blank.name ≡ L.name }
    requires parts { blank.parts ≡ L.parts }
    requires some { 0 < blank.parts }
    requires spec { length spec.now < 2 ^ 32 }
    requires bin { length bin.now < 2 ^ 32 }
    ensures { MatchResult result (IsAccepted B.STANDARD spec.now bin.now) (IsRefused B.STANDARD spec.now bin.now) }
{
    let mut steps = Steps::<L>::start(blank);
    judge::<B, L>(alloc, seed, spec, bin, &mut steps)
}
