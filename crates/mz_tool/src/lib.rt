//! The whole program over any folder and any output: all commands of `mz`.
//!
//! `run` reads the arguments as `specs/Requests.antt` says and does what the engine (`mz_tool_engine`) says of the
//! command. All that is said of a command stands in a file of its own, as `specs/Compile.antt`; of `verify` and
//! `show` in `mz_tool_verify`. DEFINITIONS reads them, CONTRACT says what follows.
//!
//! The sample theories, with which `sample` tries verifier and compiler, are its own: for each number of definitions a
//! specification and a proof text that proves it (`specs/Samples.antt`), and the law that these are compiled and
//! accepted.
//!
//! To add a command: a record in `specs/`, its code in a file of `src/`, a case in `specs/Requests.antt` and in
//! `src/command.rt`. Start with `specs/Requests.antt`, then `src/program.rt`.
#![tactic(auto)]

mod assemble;
mod axioms;
mod command;
mod compile;
mod decompile;
mod draft;
mod judged;
mod laws;
mod line;
mod portable;
mod program;
mod sample;
mod size;
mod spec;
mod specification;
mod text;

pub use assemble::AssembleCommand;
pub use axioms::AxiomsCommand;
pub use command::ProgramCommand;
pub use compile::{CompileCommand, compiling_answers_once};
pub use decompile::DecompileCommand;
pub use draft::DraftCommand;
pub use laws::samples_are_accepted;
pub use line::sample_line;
pub use mz_store::Seed;
pub use mz_tool_engine::{LONGEST, Status, answer};
pub use mz_tool_verify::seed_of;
pub use portable::PortableCommand;
pub use program::{Mz, run};
pub use sample::SampleCommand;
pub use size::SampleSize;
pub use spec::SpecifyCommand;
pub use specification::sample_specification;
pub use text::sample_text;
