// The arguments given to the program.
ghost use Rattle.std.specs.Prelude.{[], ◌∷◌, map, string_bytes, IfSome, IfNone};
ghost use Rattle.mz_tool_engine.specs.Run.{Asks};
ghost use Rattle.mz_tool.specs.Requests.{Request, said_of};

use crate::assemble::AssembleCommand;
use crate::axioms::AxiomsCommand;
use crate::compile::CompileCommand;
use crate::decompile::DecompileCommand;
use crate::draft::DraftCommand;
use crate::portable::PortableCommand;
use crate::sample::SampleCommand;
use crate::size::SampleSize;
use crate::spec::SpecifyCommand;
use mz_asm::listings_are_assembled;
use mz_base::Mode;
use mz_io::{Failed, Sink};
use mz_store::Seed;
use mz_tool_engine::{Command, Contents, Inputs, Outcome, Output};
use mz_tool_verify::{ShowCommand, VerifyCommand};
use std::alloc::Global;

/// A command of the program.
#[derive(Clone, Copy)]
pub enum ProgramCommand<'a> {
    Verify(VerifyCommand<'a>),
    Show(ShowCommand<'a>),
    Compile(CompileCommand<'a>),
    Assemble(AssembleCommand<'a>),
    Axioms(AxiomsCommand<'a>),
    Draft(DraftCommand<'a>),
    Portable(PortableCommand<'a>),
    Specify(SpecifyCommand<'a>),
    Decompile(DecompileCommand<'a>),
    Sample(SampleCommand),
}

impl<'a> ProgramCommand<'a> {
    ghost use Rattle.mz_tool.specs.Requests.{request};

    /// The command that the arguments ask for, where they ask for one.
    pub fn read(seed: Seed, words: &'a [String]) -> Option<ProgramCommand<'a>>
        ensures asked { IfSome result (λ command. Asks (said_of (request command)) (map string_bytes words.now)) }
        ensures usage { IfNone result ((asked : Request) → Asks (said_of asked) (map string_bytes words.now) → ⊥) }
    {
        match words {
            [command, word] => ProgramCommand::of_one(command.as_str(), word.as_str()),
            [command, first, second] => {
                ProgramCommand::of_two(seed, command.as_str(), first.as_str(), second.as_str())
            }
            [command, first, second, third] => ProgramCommand::of_three(
                seed,
                command.as_str(),
                first.as_str(),
                second.as_str(),
                third.as_str(),
            ),
            _ => None,
        }
    }

    /// The command of this name, with one argument more.
    fn of_one(name: &str, word: &'a str) -> Option<ProgramCommand<'a>>
        ensures asked { IfSome result (λ command. Asks (said_of (request command)) (name.now ∷ word.now ∷ [])) }
        ensures usage { IfNone result ((asked : Request) → Asks (said_of asked) (name.now ∷ word.now ∷ []) → ⊥) }
    {
        match name {
            "show" => Some(ProgramCommand::Show(ShowCommand { bin: word })),
            "sample" => {
                let size = SampleSize::read(word)?;
                Some(ProgramCommand::Sample(SampleCommand { size }))
            }
            _ => None,
        }
    }

    /// The command of this name, with two arguments more.
    fn of_two(seed: Seed, name: &str, first: &'a str, second: &'a str) -> Option<ProgramCommand<'a>>
        ensures asked { IfSome result (λ command. Asks (said_of (request command)) (name.now ∷ first.now ∷ second.now ∷ [])) }
        ensures usage { IfNone result ((asked : Request) → Asks (said_of asked) (name.now ∷ first.now ∷ second.now ∷ []) → ⊥) }
    {
        let (spec, bin) = (first, second);
        let (text, out) = (first, second);
        match name {
            "verify" => Some(ProgramCommand::Verify(VerifyCommand { seed, spec, bin })),
            "compile" => Some(ProgramCommand::Compile(CompileCommand {
                seed,
                mode: Mode::Strict,
                text,
                out,
            })),
            "compile_draft" => Some(ProgramCommand::Compile(CompileCommand {
                seed,
                mode: Mode::Draft,
                text,
                out,
            })),
            "assemble" => Some(ProgramCommand::Assemble(AssembleCommand { listing: text, out })),
            "axioms" => Some(ProgramCommand::Axioms(AxiomsCommand { seed, spec, bin })),
            "draft" => Some(ProgramCommand::Draft(DraftCommand { seed, spec, bin })),
            "portable" => Some(ProgramCommand::Portable(PortableCommand { seed, spec, bin })),
            "spec" => Some(ProgramCommand::Specify(SpecifyCommand { seed, text, out })),
            _ => None,
        }
    }

    /// The command of this name, with three arguments more.
    fn of_three(
        seed: Seed,
        name: &str,
        spec: &'a str,
        bin: &'a str,
        out: &'a str,
    ) -> Option<ProgramCommand<'a>>
        ensures asked { IfSome result (λ command. Asks (said_of (request command)) (name.now ∷ spec.now ∷ bin.now ∷ out.now ∷ [])) }
        ensures usage { IfNone result ((asked : Request) → Asks (said_of asked) (name.now ∷ spec.now ∷ bin.now ∷ out.now ∷ []) → ⊥) }
    {
        match name {
            "decompile" => Some(ProgramCommand::Decompile(DecompileCommand {
                seed,
                spec,
                bin,
                out,
            })),
            _ => None,
        }
    }
}

impl<'a> Command for ProgramCommand<'a> {
    ghost use Rattle.mz_tool.specs.Requests.{request};

    ghost says = { λ command. said_of (request command) };

    fn inputs(&self) -> Inputs<'_> {
        match self {
            ProgramCommand::Verify(command) => command.inputs(),
            ProgramCommand::Show(command) => command.inputs(),
            ProgramCommand::Compile(command) => command.inputs(),
            ProgramCommand::Assemble(command) => command.inputs(),
            ProgramCommand::Axioms(command) => command.inputs(),
            ProgramCommand::Draft(command) => command.inputs(),
            ProgramCommand::Portable(command) => command.inputs(),
            ProgramCommand::Specify(command) => command.inputs(),
            ProgramCommand::Decompile(command) => command.inputs(),
            ProgramCommand::Sample(command) => command.inputs(),
        }
    }

    fn output(&self) -> Output<'_> {
        match self {
            ProgramCommand::Verify(command) => command.output(),
            ProgramCommand::Show(command) => command.output(),
            ProgramCommand::Compile(command) => command.output(),
            ProgramCommand::Assemble(command) => command.output(),
            ProgramCommand::Axioms(command) => command.output(),
            ProgramCommand::Draft(command) => command.output(),
            ProgramCommand::Portable(command) => command.output(),
            ProgramCommand::Specify(command) => command.output(),
            ProgramCommand::Decompile(command) => command.output(),
            ProgramCommand::Sample(command) => command.output(),
        }
    }

    fn answer<O: Sink>(
        &self,
        alloc: Global,
        contents: &Contents,
        out: &mut O,
    ) -> Result<Outcome, Failed> {
        match self {
            ProgramCommand::Verify(command) => command.answer(alloc, contents, out),
            ProgramCommand::Show(command) => {
                listings_are_assembled();
                command.answer(alloc, contents, out)
            }
            ProgramCommand::Compile(command) => command.answer(alloc, contents, out),
            ProgramCommand::Assemble(command) => command.answer(alloc, contents, out),
            ProgramCommand::Axioms(command) => command.answer(alloc, contents, out),
            ProgramCommand::Draft(command) => command.answer(alloc, contents, out),
            ProgramCommand::Portable(command) => command.answer(alloc, contents, out),
            ProgramCommand::Specify(command) => command.answer(alloc, contents, out),
            ProgramCommand::Decompile(command) => command.answer(alloc, contents, out),
            ProgramCommand::Sample(command) => command.answer(alloc, contents, out),
        }
    }
}
