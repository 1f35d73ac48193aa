// The command `spec`.
ghost use Rattle.std.specs.Prelude.{◌≡◌, ◌<◌, ◌^◌, IfOk, ℕ, List, Option, length};
ghost use Rattle.mz_tool_engine.specs.Answering.{IsShort};
ghost use Rattle.mz_tool_engine.specs.Outcomes.{IfYes, IfNo, OnYes, OnNo};
ghost use Rattle.mz_tool.specs.Specify.{AreItsSpecifications, IsNotSpecified, IsSpecifiedTo};
ghost use Rattle.mz_tool.specs.Specified;

use mz_base::Hashing;
use mz_cmd::Mem;
use mz_emit::compiled_line;
use mz_emit_theory::{Compiled, L};
use mz_io::{Failed, Sink};
use mz_prefix::{
    SpecText, local_line, long_line, spec_of, specification_is_decided, specified_line,
};
use mz_store::Seed;
use mz_tool_engine::{Command, Contents, Inputs, Outcome, Output, Put};
use std::alloc::Global;

/// `spec TEXT OUT`: the names of the files, and the seed with which names are hashed.
#[derive(Clone, Copy)]
pub struct SpecifyCommand<'a> {
    pub seed: Seed,
    pub text: &'a str,
    pub out: &'a str,
}

impl<'a> Command for SpecifyCommand<'a> {
    ghost use Rattle.mz_tool.specs.Specify.{specify_says};

    ghost says = { λ command. specify_says command.text.now command.out.now };

    fn inputs(&self) -> Inputs<'_> {
        Inputs::One(self.text)
    }

    fn output(&self) -> Output<'_> {
        Output::File(self.out)
    }

    fn answer<O: Sink>(
        &self,
        alloc: Global,
        contents: &Contents,
        out: &mut O,
    ) -> Result<Outcome, Failed> {
        Ok(specify(alloc, self.seed, contents.one()))
    }
}

/// The line that says an answer other than out of memory.
fn spec_line(alloc: Global, made: &SpecText) -> Result<Vec<u8>, Mem>
    requires { made.now ≡ SpecText.Mem → ⊥ }
    ensures { IfOk result (λ line. line.items ≡ Specified.spec_line made.now) }
{
    match made {
        SpecText::Text(spec) => specified_line(alloc, spec.len()),
        SpecText::Refused(refusal) => compiled_line(alloc, &Compiled::Refused(*refusal)),
        SpecText::Local(statement) => local_line(alloc, *statement),
        SpecText::Long(statement) => long_line(alloc, *statement),
        SpecText::Limit { count } => {
            let rule = L::Bytes;
            let limit = Compiled::Limit {
                rule,
                count: *count,
            };
            compiled_line(alloc, &limit)
        }
        SpecText::Mem => unreachable!(),
    }
}

/// Makes a specification for a proof text. The line is built before anything is put.
pub fn specify(alloc: Global, seed: Seed, text: &[u8]) -> Outcome
    requires text { length text.now < 2 ^ 32 }
    ensures yes { IfYes result (λ put line. IsSpecifiedTo text.now put line) }
    ensures short { IfYes result (λ put line. IsShort put) }
    ensures no { IfNo result (λ line. IsNotSpecified text.now line) }
    ensures sound { OnYes result (AreItsSpecifications text.now) }
    ensures only_yes { (put : Option (List ℕ)) (line : List ℕ) → IsSpecifiedTo text.now put line → OnNo result ⊥ }
    ensures only_no { (line : List ℕ) → IsNotSpecified text.now line → OnYes result ⊥ }
{
    specification_is_decided();
    let made = spec_of(alloc, Hashing::from(seed), text);
    if let SpecText::Mem = made {
        return Outcome::Mem;
    }
    let Ok(line) = spec_line(alloc, &made) else {
        return Outcome::Mem;
    };
    match made {
        SpecText::Text(bytes) => Outcome::Yes {
            put: Put::File(bytes),
            text: line,
        },
        _ => Outcome::No { text: line },
    }
}
