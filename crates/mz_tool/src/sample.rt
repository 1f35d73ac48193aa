// The command `sample`.
ghost use Rattle.std.specs.Prelude.{◌≡◌, ◌<◌, ◌^◌, ℕ, List, None, length};
ghost use Rattle.mz_tool.specs.Samples.{sample_specification, sample_text};
ghost use Rattle.mz_tool_engine.specs.Outcomes.{IfYes, OnYes, OnNo, IsAfter};
ghost use Rattle.mz_tool.specs.Laws.{FitTogether};
ghost use Rattle.mz_tool.specs.Sample.{IsUpheld, IsProvedByText, IsSampleUpheld};

use crate::compile::compile;
use crate::size::SampleSize;
use crate::{sample_line, sample_specification, sample_text, samples_are_accepted};
use mz_base::Mode;
use mz_io::{Failed, Sink};
use mz_store::Seed;
use mz_tool_engine::{Command, Contents, Inputs, Outcome, Output, Put};
use mz_tool_verify::verify;
use std::alloc::Global;

/// `sample N`: the size of the sample.
#[derive(Clone, Copy)]
pub struct SampleCommand {
    pub size: SampleSize,
}

impl Command for SampleCommand {
    ghost use Rattle.mz_tool.specs.Sample.{sample_says};

    ghost says = { λ command. sample_says command.size.number };

    fn inputs(&self) -> Inputs<'_> {
        Inputs::Nothing
    }

    fn output(&self) -> Output<'_> {
        Output::Nothing
    }

    fn answer<O: Sink>(
        &self,
        alloc: Global,
        contents: &Contents,
        out: &mut O,
    ) -> Result<Outcome, Failed> {
        Ok(sample(alloc, self.size))
    }
}

/// Makes a sample, compiles its text, and verifies the binary against its specification. The line on
/// how long both are comes before that of the verdict.
pub fn sample(alloc: Global, size: SampleSize) -> Outcome
    ensures yes { IfYes result (λ put text. (put ≡ None) × IsSampleUpheld size.number text) }
    ensures never_no { OnNo result ⊥ }
    ensures proved { OnYes result (IsProvedByText (sample_specification size.number) (sample_text size.number)) }
{
    samples_are_accepted();
    let Ok(specification) = sample_specification(alloc, size.number) else {
        return Outcome::Mem;
    };
    let Ok(text) = sample_text(alloc, size.number) else {
        return Outcome::Mem;
    };
    let Ok(line) = sample_line(alloc, specification.len(), text.len()) else {
        return Outcome::Mem;
    };
    after(line, upheld(alloc, &specification, &text))
}

/// Compiles a text, and verifies the binary against a specification.
fn upheld(alloc: Global, specification: &[u8], text: &[u8]) -> Outcome
    requires specification { length specification.now < 2 ^ 32 }
    requires text { length text.now < 2 ^ 32 }
    ensures yes { IfYes result (λ put line. (put ≡ None) × IsUpheld specification.now text.now line) }
    ensures no { OnNo result (FitTogether specification.now text.now → ⊥) }
    ensures proved { OnYes result (IsProvedByText specification.now text.now) }
{
    match compile(alloc, Seed::FIXED, text, Mode::Strict) {
        Outcome::Yes { put, .. } => match put {
            Put::File(bin) => verify(alloc, Seed::FIXED, specification, &bin),
            Put::Nothing => unreachable!(),
        },
        refused => refused,
    }
}

/// The same answer, with a line before its text.
fn after(mut line: Vec<u8>, outcome: Outcome) -> Outcome
    ensures { IsAfter line.items outcome result }
{
    match outcome {
        Outcome::Yes { put, text } => {
            let Ok(()) = line.extend_from_slice(&text) else {
                return Outcome::Mem;
            };
            Outcome::Yes { put, text: line }
        }
        Outcome::No { text } => {
            let Ok(()) = line.extend_from_slice(&text) else {
                return Outcome::Mem;
            };
            Outcome::No { text: line }
        }
        Outcome::Mem => Outcome::Mem,
    }
}
