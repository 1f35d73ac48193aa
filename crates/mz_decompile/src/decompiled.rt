// A binary as a text.
ghost use Rattle.std.specs.Prelude.{◌≡◌, ◌≤◌, ◌<◌, ◌+◌, ◌*◌, ◌^◌, ℕ, List, IfOk, length};
ghost use Rattle.mz_binary_theory.specs.Standards.{strict_standard};
ghost use Rattle.mz_match.specs.Judged.{IsAccepted};
ghost use Rattle.mz_decompile.specs.Decompiling.{IsDecompilation, IsTextForPair, TicksAs};
ghost use Rattle.mz_decompile.specs.Passes.{IsOfAccepted};

use crate::text_or_obstacle::answer;
use crate::{accepted_are_restated, plain_texts_are_texts};
use mz_binary::StrictBodies;
use mz_cmd::{Mem, Steps};
use mz_decompile_text::PairNames;
use mz_match::{Accepted, judge};
use mz_match_theory::Verdict;
use mz_store::Seed;
use mz_trace::bodies_make_proofs;
use mz_type::typed_or_faulty;
use std::alloc::Global;
use std::sync::ledger::Ledger;

/// What making a text of a binary answers.
#[derive(Drop)]
pub enum Decompiled {
    /// The pair is accepted, and nothing stands against the text: this.
    Text(Vec<u8>),
    /// The pair's first refusal.
    Refused(Verdict),
    /// The number of the first statement in whose text more than 4,096 lists stand in one another.
    Deep(u32),
    /// The text's length, or the bound on that of what it would compile to, is more than 4,294,967,295 bytes: the
    /// greater of both, or the greatest number that can be reported.
    Limit { count: u128 },
    /// Out of memory.
    Mem,
}

/// Verifies a binary against a specification, and makes the text that states its statements, under the specification's
/// names and with the proofs that its bodies make.
///
/// The steps counted are those of the verification; that the bodies are read again, in both passes, isn't counted.
pub fn decompile_bytes<L: Ledger>(
    alloc: Global,
    seed: Seed,
    spec: &[u8],
    bin: &[u8],
    steps: &mut Steps<L>,
) -> Decompiled
    requires spec { length spec.now < 2 ^ 32 }
    requires bin { length bin.now < 2 ^ 32 }
    ensures answer { IsDecompilation spec.now bin.now result }
    ensures text { IsTextForPair spec.now bin.now result }
    ensures steps { TicksAs bin.now steps.old steps.new result }
    ensures bound { steps.new ≤ steps.old + (length bin.now * length bin.now + length bin.now) }
{
    typed_or_faulty();
    plain_texts_are_texts();
    match judge::<StrictBodies, L>(alloc, seed, spec, bin, steps) {
        Ok(pair) => match of_accepted(alloc, &pair) {
            Ok(answer) => answer,
            Err(_) => Decompiled::Mem,
        },
        Err(verdict) => match verdict {
            Verdict::Mem => Decompiled::Mem,
            _ => Decompiled::Refused(verdict),
        },
    }
}

/// The text of a pair that is accepted, or what stands first against it.
fn of_accepted(alloc: Global, pair: &Accepted) -> Result<Decompiled, Mem>
    requires { (spec : List ℕ) × (bin : List ℕ) × IsAccepted strict_standard spec bin pair.now }
    ensures answer { (spec bin : List ℕ) → IsAccepted strict_standard spec bin pair.now → IfOk result (IsDecompilation spec bin) }
    ensures own { IfOk result IsOfAccepted }
{
    bodies_make_proofs();
    accepted_are_restated();
    let names = PairNames::of(alloc, &pair.spec, &pair.mmb)?;
    answer(alloc, &pair.mmb, &names)
}
