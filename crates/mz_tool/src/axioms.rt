// The command `axioms`.
use crate::judged::judged;
use mz_axioms::{axioms_in, write_axioms};
use mz_binary::StrictBodies;
use mz_io::{Failed, Sink};
use mz_match::verdict_line;
use mz_match_theory::{Verdict, accepted_pairs_are_sound, each_pair_has_one_verdict};
use mz_store::Seed;
use mz_tool_engine::{Command, Contents, Inputs, Outcome, Output, Put};
use std::alloc::Global;
use std::marker::Brand;
use std::sync::ledger::Blank;

/// `axioms SPEC BIN`: the names of the files, and the seed with which the terms of the binary's bodies are numbered.
#[derive(Clone, Copy)]
pub struct AxiomsCommand<'a> {
    pub seed: Seed,
    pub spec: &'a str,
    pub bin: &'a str,
}

impl<'a> Command for AxiomsCommand<'a> {
    ghost use Rattle.mz_tool.specs.Axioms.{axioms_says};

    ghost says = { λ command. axioms_says command.spec.now command.bin.now };

    fn inputs(&self) -> Inputs<'_> {
        Inputs::Two(self.spec, self.bin)
    }

    fn output(&self) -> Output<'_> {
        Output::Nothing
    }

    /// Writes the lines as they are made. Memory runs out before the first of them or not at all.
    fn answer<O: Sink>(
        &self,
        alloc: Global,
        contents: &Contents,
        out: &mut O,
    ) -> Result<Outcome, Failed> {
        each_pair_has_one_verdict();
        accepted_pairs_are_sound();
        let (spec, bin) = contents.two();
        match judged::<StrictBodies, Brand>(alloc, self.seed, Blank::new(1), spec, bin) {
            Ok(pair) => {
                let Ok(lists) = axioms_in(alloc, self.seed, &pair) else {
                    return Ok(Outcome::Mem);
                };
                match write_axioms(alloc, &pair.spec, &lists, out) {
                    Ok(()) => Ok(Outcome::Yes {
                        put: Put::Nothing,
                        text: Vec::new(alloc),
                    }),
                    Err(failed) => Err(failed),
                }
            }
            Err(verdict) => match verdict {
                Verdict::Mem => Ok(Outcome::Mem),
                _ => match verdict_line(alloc, &verdict) {
                    Ok(text) => Ok(Outcome::No { text }),
                    Err(_) => Ok(Outcome::Mem),
                },
            },
        }
    }
}
