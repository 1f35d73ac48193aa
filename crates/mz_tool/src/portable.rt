// The command `portable`.
ghost use Rattle.std.specs.Prelude.{◌≡◌, ◌<◌, ◌⊎◌, ◌^◌, ℕ, List, None, length};
ghost use Rattle.mz_pmachine_theory.specs.FilesByIdentity.{portable_standard};
ghost use Rattle.mz_match_theory.specs.Verdict.{Accepts, IsSoundIfAccepted, IsSound};
ghost use Rattle.mz_portable.specs.Portable.{FirstPortableRefusal, IsAcceptedByTable, IsPortableVerdict, PortablyAccepts};
ghost use Rattle.mz_tool_engine.specs.Outcomes.{IfYes, IfNo, OnYes, OnNo};
ghost use Rattle.mz_tool_verify.specs.Verify.{IsVerifiedBy, IsRefutedBy};

use mz_cmd::Steps;
use mz_io::{Failed, Sink};
use mz_match_theory::{Counts, Verdict};
use mz_portable::portable_bytes;
use mz_store::Seed;
use mz_tool_engine::{Command, Contents, Inputs, Outcome, Output};
use mz_tool_verify::answered_by;
use std::alloc::Global;
use std::marker::Brand;
use std::sync::ledger::{Blank, Ledger};

/// `portable SPEC BIN`: the names of the files, and the seed with which the terms of the binary's bodies are numbered.
#[derive(Clone, Copy)]
pub struct PortableCommand<'a> {
    pub seed: Seed,
    pub spec: &'a str,
    pub bin: &'a str,
}

impl<'a> Command for PortableCommand<'a> {
    ghost use Rattle.mz_tool.specs.Portable.{portable_says};

    ghost says = { λ command. portable_says command.spec.now command.bin.now };

    fn inputs(&self) -> Inputs<'_> {
        Inputs::Two(self.spec, self.bin)
    }

    fn output(&self) -> Output<'_> {
        Output::Nothing
    }

    fn answer<O: Sink>(
        &self,
        alloc: Global,
        contents: &Contents,
        out: &mut O,
    ) -> Result<Outcome, Failed> {
        let (spec, bin) = contents.two();
        Ok(portable(alloc, self.seed, spec, bin))
    }
}

/// Judges a binary against a specification as verifiers do that compare by identity.
pub fn portable(alloc: Global, seed: Seed, spec: &[u8], bin: &[u8]) -> Outcome
    requires spec { length spec.now < 2 ^ 32 }
    requires bin { length bin.now < 2 ^ 32 }
    ensures yes { IfYes result (λ put text. (put ≡ None) × IsVerifiedBy portable_standard spec.now bin.now text) }
    ensures no { IfNo result (λ text. IsRefutedBy portable_standard spec.now bin.now text) }
    ensures sound { OnYes result (IsSound spec.now bin.now × Accepts spec.now bin.now) }
    ensures only_yes { (text : List ℕ) → IsVerifiedBy portable_standard spec.now bin.now text → OnNo result ⊥ }
    ensures only_no { (text : List ℕ) → IsRefutedBy portable_standard spec.now bin.now text → OnYes result ⊥ }
{
    let verdict = counted_verdict::<Brand>(alloc, seed, Blank::new(1), spec, bin);
    answered_by(alloc, &verdict)
}

/// The verdict, its steps counted in a ledger of their own.
fn counted_verdict<L: Ledger>(
    alloc: Global,
    seed: Seed,
    blank: Blank,
    spec: &[u8],
    bin: &[u8],
) -> Verdict
    requires name { blank.name ≡ L.name }
    requires parts { blank.parts ≡ L.parts }
    requires some { 0 < blank.parts }
    requires spec { length spec.now < 2 ^ 32 }
    requires bin { length bin.now < 2 ^ 32 }
    ensures verdict { IsPortableVerdict spec.now bin.now result }
    ensures sound { IsSoundIfAccepted spec.now bin.now result }
    ensures table { IsAcceptedByTable spec.now bin.now result }
    ensures accepted { (counts : Counts) → PortablyAccepts spec.now bin.now counts → (result ≡ Verdict.Accepted counts) ⊎ (result ≡ Verdict.Mem) }
    ensures refused { (verdict : Verdict) → FirstPortableRefusal spec.now bin.now verdict → (result ≡ verdict) ⊎ (result ≡ Verdict.Mem) }
{
    let mut steps = Steps::<L>::start(blank);
    portable_bytes(alloc, seed, spec, bin, &mut steps)
}
