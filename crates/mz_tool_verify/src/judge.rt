// The command `verify`.
ghost use Rattle.std.specs.Prelude.{◌≡◌, ◌<◌, ◌⊎◌, ◌^◌, ℕ, List, None, length};
ghost use Rattle.mz_match_theory.specs.Verdict.{IsVerdict, IsSoundIfAccepted, IsSound, AcceptsWith, FirstRefusal};
ghost use Rattle.mz_tool_engine.specs.Outcomes.{IfYes, IfNo, OnYes, OnNo};
ghost use Rattle.mz_tool_verify.specs.Verify.{IsVerified, IsRefuted};

use crate::verdict::answered_by;
use mz_cmd::Steps;
use mz_io::{Failed, Sink};
use mz_match::verify_bytes;
use mz_match_theory::{Counts, Verdict};
use mz_store::Seed;
use mz_tool_engine::{Command, Contents, Inputs, Outcome, Output};
use std::alloc::Global;
use std::marker::Brand;
use std::sync::ledger::{Blank, Ledger};

/// `verify SPEC BIN`: the names of the files, and the seed with which the terms of the binary's bodies are numbered.
#[derive(Clone, Copy)]
pub struct VerifyCommand<'a> {
    pub seed: Seed,
    pub spec: &'a str,
    pub bin: &'a str,
}

impl<'a> Command for VerifyCommand<'a> {
    ghost use Rattle.mz_tool_verify.specs.Verify.{verify_says};

    ghost says = { λ command. verify_says command.spec.now command.bin.now };

    fn inputs(&self) -> Inputs<'_> {
        Inputs::Two(self.spec, self.bin)
    }

    fn output(&self) -> Output<'_> {
        Output::Nothing
    }

    fn answer<O: Sink>(
        &self,
        alloc: Global,
        contents: &Contents,
        out: &mut O,
    ) -> Result<Outcome, Failed> {
        let (spec, bin) = contents.two();
        Ok(verify(alloc, self.seed, spec, bin))
    }
}

/// Judges a binary against a specification.
pub fn verify(alloc: Global, seed: Seed, spec: &[u8], bin: &[u8]) -> Outcome
    requires spec { length spec.now < 2 ^ 32 }
    requires bin { length bin.now < 2 ^ 32 }
    ensures yes { IfYes result (λ put text. (put ≡ None) × IsVerified spec.now bin.now text) }
    ensures no { IfNo result (λ text. IsRefuted spec.now bin.now text) }
    ensures sound { OnYes result (IsSound spec.now bin.now) }
    ensures only_yes { (text : List ℕ) → IsVerified spec.now bin.now text → OnNo result ⊥ }
    ensures only_no { (text : List ℕ) → IsRefuted spec.now bin.now text → OnYes result ⊥ }
{
    let verdict = counted_verdict::<Brand>(alloc, seed, Blank::new(1), spec, bin);
    answered_by(alloc, &verdict)
}

/// The verdict, its steps counted in a ledger of their own.
fn counted_verdict<L: Ledger>(
    alloc: Global,
    seed: Seed,
    blank: Blank,
    spec: &[u8],
    bin: &[u8],
) -> Verdict
    requires name { blank.name ≡ L.name }
    requires parts { blank.parts ≡ L.parts }
    requires some { 0 < blank.parts }
    requires spec { length spec.now < 2 ^ 32 }
    requires bin { length bin.now < 2 ^ 32 }
    ensures verdict { IsVerdict spec.now bin.now result }
    ensures sound { IsSoundIfAccepted spec.now bin.now result }
    ensures accepted { (counts : Counts) → AcceptsWith spec.now bin.now counts → (result ≡ Verdict.Accepted counts) ⊎ (result ≡ Verdict.Mem) }
    ensures refused { (verdict : Verdict) → FirstRefusal spec.now bin.now verdict → (result ≡ verdict) ⊎ (result ≡ Verdict.Mem) }
{
    let mut steps = Steps::<L>::start(blank);
    verify_bytes(alloc, seed, spec, bin, &mut steps)
}
