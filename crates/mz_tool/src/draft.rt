// The command `draft`.
ghost use Rattle.std.specs.Prelude.{◌≡◌, ◌<◌, ◌^◌, ℕ, List, None, length};
ghost use Rattle.mz_binary_theory.specs.Standards.{draft_standard};
ghost use Rattle.mz_match.specs.Drafts.{IsDraftSound};
ghost use Rattle.mz_tool_engine.specs.Outcomes.{IfYes, IfNo, OnYes, OnNo};
ghost use Rattle.mz_tool_verify.specs.Verify.{IsRefutedBy};
ghost use Rattle.mz_tool.specs.Draft.{IsDraftPrinted};

use crate::judged::judged;
use mz_axioms::gaps_text;
use mz_binary::DraftBodies;
use mz_io::{Failed, Sink};
use mz_match::{accepted_drafts_are_sound, verdict_line};
use mz_match_theory::Verdict;
use mz_store::Seed;
use mz_tool_engine::{Command, Contents, Inputs, Outcome, Output, Put};
use std::alloc::Global;
use std::marker::Brand;
use std::sync::ledger::Blank;

/// `draft SPEC BIN`: the names of the files, and the seed with which the terms of the binary's bodies are numbered.
#[derive(Clone, Copy)]
pub struct DraftCommand<'a> {
    pub seed: Seed,
    pub spec: &'a str,
    pub bin: &'a str,
}

impl<'a> Command for DraftCommand<'a> {
    ghost use Rattle.mz_tool.specs.Draft.{draft_says};

    ghost says = { λ command. draft_says command.spec.now command.bin.now };

    fn inputs(&self) -> Inputs<'_> {
        Inputs::Two(self.spec, self.bin)
    }

    fn output(&self) -> Output<'_> {
        Output::Nothing
    }

    fn answer<O: Sink>(
        &self,
        alloc: Global,
        contents: &Contents,
        out: &mut O,
    ) -> Result<Outcome, Failed> {
        let (spec, bin) = contents.two();
        Ok(draft(alloc, self.seed, spec, bin))
    }
}

/// Reports which theorems of a specification rest on a gap, where a binary whose proofs may have gaps is
/// accepted against it.
pub fn draft(alloc: Global, seed: Seed, spec: &[u8], bin: &[u8]) -> Outcome
    requires spec { length spec.now < 2 ^ 32 }
    requires bin { length bin.now < 2 ^ 32 }
    ensures yes { IfYes result (λ put text. (put ≡ None) × IsDraftPrinted spec.now bin.now text) }
    ensures no { IfNo result (λ text. IsRefutedBy draft_standard spec.now bin.now text) }
    ensures sound { OnYes result (IsDraftSound spec.now bin.now) }
    ensures only_yes { (text : List ℕ) → IsDraftPrinted spec.now bin.now text → OnNo result ⊥ }
    ensures only_no { (text : List ℕ) → IsRefutedBy draft_standard spec.now bin.now text → OnYes result ⊥ }
{
    accepted_drafts_are_sound();
    match judged::<DraftBodies, Brand>(alloc, seed, Blank::new(1), spec, bin) {
        Ok(pair) => {
            match gaps_text(alloc, &pair.spec, pair.counts.theorems, pair.gaps.places()) {
                Ok(text) => Outcome::Yes {
                    put: Put::Nothing,
                    text,
                },
                Err(_) => Outcome::Mem,
            }
        }
        Err(verdict) => match verdict {
            Verdict::Mem => Outcome::Mem,
            _ => match verdict_line(alloc, &verdict) {
                Ok(text) => Outcome::No { text },
                Err(_) => Outcome::Mem,
            },
        },
    }
}
