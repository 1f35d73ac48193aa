// The arguments given to the verifier.
ghost use Rattle.std.specs.Prelude.{[], ◌∷◌, map, string_bytes, IfSome, IfNone};
ghost use Rattle.mz_tool_engine.specs.Run.{Asks};
ghost use Rattle.mz_tool_verify.specs.Requests.{Request, said_of};

use crate::judge::VerifyCommand;
use crate::list::ShowCommand;
use mz_io::{Failed, Sink};
use mz_store::Seed;
use mz_tool_engine::{Command, Contents, Inputs, Outcome, Output};
use std::alloc::Global;

/// A command of the verifier.
#[derive(Clone, Copy)]
pub enum VerifierCommand<'a> {
    Verify(VerifyCommand<'a>),
    Show(ShowCommand<'a>),
}

impl<'a> VerifierCommand<'a> {
    ghost use Rattle.mz_tool_verify.specs.Requests.{request};

    /// The command that the arguments ask for, where they ask for one.
    pub fn read(seed: Seed, words: &'a [String]) -> Option<VerifierCommand<'a>>
        ensures asked { IfSome result (λ command. Asks (said_of (request command)) (map string_bytes words.now)) }
        ensures usage { IfNone result ((asked : Request) → Asks (said_of asked) (map string_bytes words.now) → ⊥) }
    {
        match words {
            [command, bin] => VerifierCommand::of_one(command.as_str(), bin.as_str()),
            [command, spec, bin] => {
                VerifierCommand::of_two(seed, command.as_str(), spec.as_str(), bin.as_str())
            }
            _ => None,
        }
    }

    /// The command of this name, with one argument more.
    fn of_one(name: &str, bin: &'a str) -> Option<VerifierCommand<'a>>
        ensures asked { IfSome result (λ command. Asks (said_of (request command)) (name.now ∷ bin.now ∷ [])) }
        ensures usage { IfNone result ((asked : Request) → Asks (said_of asked) (name.now ∷ bin.now ∷ []) → ⊥) }
    {
        match name {
            "show" => Some(VerifierCommand::Show(ShowCommand { bin })),
            _ => None,
        }
    }

    /// The command of this name, with two arguments more.
    fn of_two(seed: Seed, name: &str, spec: &'a str, bin: &'a str) -> Option<VerifierCommand<'a>>
        ensures asked { IfSome result (λ command. Asks (said_of (request command)) (name.now ∷ spec.now ∷ bin.now ∷ [])) }
        ensures usage { IfNone result ((asked : Request) → Asks (said_of asked) (name.now ∷ spec.now ∷ bin.now ∷ []) → ⊥) }
    {
        match name {
            "verify" => Some(VerifierCommand::Verify(VerifyCommand { seed, spec, bin })),
            _ => None,
        }
    }
}

impl<'a> Command for VerifierCommand<'a> {
    ghost use Rattle.mz_tool_verify.specs.Requests.{request};

    ghost says = { λ command. said_of (request command) };

    fn inputs(&self) -> Inputs<'_> {
        match self {
            VerifierCommand::Verify(command) => command.inputs(),
            VerifierCommand::Show(command) => command.inputs(),
        }
    }

    fn output(&self) -> Output<'_> {
        match self {
            VerifierCommand::Verify(command) => command.output(),
            VerifierCommand::Show(command) => command.output(),
        }
    }

    fn answer<O: Sink>(
        &self,
        alloc: Global,
        contents: &Contents,
        out: &mut O,
    ) -> Result<Outcome, Failed> {
        match self {
            VerifierCommand::Verify(command) => command.answer(alloc, contents, out),
            VerifierCommand::Show(command) => command.answer(alloc, contents, out),
        }
    }
}
