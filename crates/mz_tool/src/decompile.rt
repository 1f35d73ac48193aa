// The command `decompile`.
ghost use Rattle.std.specs.Prelude.{◌≡◌, ◌<◌, ◌^◌, IfOk, ℕ, List, Option, length};
ghost use Rattle.mz_match_theory.specs.Verdict.{IsSound};
ghost use Rattle.mz_decompile.specs.Decompiling.{IsDecompilation, IsTextForPair};
ghost use Rattle.mz_tool_engine.specs.Answering.{IsShort};
ghost use Rattle.mz_tool_engine.specs.Outcomes.{IfYes, IfNo, OnYes, OnNo};
ghost use Rattle.mz_tool.specs.Decompile.{AreItsTexts, IsDecompiledTo, IsNotDecompiled};
ghost use Rattle.mz_tool.specs.Decompiled.{text_line, HasLine};

use mz_cmd::{Mem, Steps};
use mz_decompile::{
    Decompiled, decompilation_is_decided, decompile_bytes, decompiled_line, deep_line,
};
use mz_emit::compiled_line;
use mz_emit_theory::{Compiled, L};
use mz_io::{Failed, Sink};
use mz_match::verdict_line;
use mz_match_theory::accepted_pairs_are_sound;
use mz_store::Seed;
use mz_tool_engine::{Command, Contents, Inputs, Outcome, Output, Put};
use std::alloc::Global;
use std::marker::Brand;
use std::sync::ledger::{Blank, Ledger};

/// `decompile SPEC BIN OUT`: the names of the files, and the seed with which the terms of the binary's bodies are numbered.
#[derive(Clone, Copy)]
pub struct DecompileCommand<'a> {
    pub seed: Seed,
    pub spec: &'a str,
    pub bin: &'a str,
    pub out: &'a str,
}

impl<'a> Command for DecompileCommand<'a> {
    ghost use Rattle.mz_tool.specs.Decompile.{decompile_says};

    ghost says = { λ command. decompile_says command.spec.now command.bin.now command.out.now };

    fn inputs(&self) -> Inputs<'_> {
        Inputs::Two(self.spec, self.bin)
    }

    fn output(&self) -> Output<'_> {
        Output::File(self.out)
    }

    fn answer<O: Sink>(
        &self,
        alloc: Global,
        contents: &Contents,
        out: &mut O,
    ) -> Result<Outcome, Failed> {
        let (spec, bin) = contents.two();
        Ok(decompile(alloc, self.seed, spec, bin))
    }
}

/// The line that says an answer other than out of memory.
fn line_of(alloc: Global, made: &Decompiled) -> Result<Vec<u8>, Mem>
    requires { HasLine made.now }
    ensures { IfOk result (λ line. line.items ≡ text_line made.now) }
{
    match made {
        Decompiled::Text(text) => decompiled_line(alloc, text.len()),
        Decompiled::Refused(verdict) => verdict_line(alloc, verdict),
        Decompiled::Deep(statement) => deep_line(alloc, *statement),
        Decompiled::Limit { count } => {
            let rule = L::Bytes;
            let limit = Compiled::Limit {
                rule,
                count: *count,
            };
            compiled_line(alloc, &limit)
        }
        Decompiled::Mem => unreachable!(),
    }
}

/// Makes the text of a binary that is accepted against a specification. The line is built before anything is put.
pub fn decompile(alloc: Global, seed: Seed, spec: &[u8], bin: &[u8]) -> Outcome
    requires spec { length spec.now < 2 ^ 32 }
    requires bin { length bin.now < 2 ^ 32 }
    ensures yes { IfYes result (λ put line. IsDecompiledTo spec.now bin.now put line) }
    ensures short { IfYes result (λ put line. IsShort put) }
    ensures no { IfNo result (λ line. IsNotDecompiled spec.now bin.now line) }
    ensures sound { OnYes result (IsSound spec.now bin.now × AreItsTexts spec.now bin.now) }
    ensures only_yes { (put : Option (List ℕ)) (line : List ℕ) → IsDecompiledTo spec.now bin.now put line → OnNo result ⊥ }
    ensures only_no { (line : List ℕ) → IsNotDecompiled spec.now bin.now line → OnYes result ⊥ }
{
    decompilation_is_decided();
    accepted_pairs_are_sound();
    let made = text_of::<Brand>(alloc, seed, Blank::new(1), spec, bin);
    if let Decompiled::Mem = made {
        return Outcome::Mem;
    }
    let Ok(line) = line_of(alloc, &made) else {
        return Outcome::Mem;
    };
    match made {
        Decompiled::Text(bytes) => Outcome::Yes {
            put: Put::File(bytes),
            text: line,
        },
        _ => Outcome::No { text: line },
    }
}

/// The text, the steps of the verification counted in a ledger of their own.
fn text_of<L: Ledger>(
    alloc: Global,
    seed: Seed,
    blank: Blank,
    spec: &[u8],
    bin: &[u8],
) -> Decompiled
    requires name { blank.name ≡ L.name }
    requires parts { blank.parts ≡ L.parts }
    requires some { 0 < blank.parts }
    requires spec { length spec.now < 2 ^ 32 }
    requires bin { length bin.now < 2 ^ 32 }
    ensures answer { IsDecompilation spec.now bin.now result }
    ensures text { IsTextForPair spec.now bin.now result }
{
    let mut steps = Steps::<L>::start(blank);
    decompile_bytes(alloc, seed, spec, bin, &mut steps)
}
