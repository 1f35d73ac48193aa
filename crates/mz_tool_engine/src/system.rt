// A program's run over the files of the system, and how the process ends.
ghost use Rattle.std.specs.Prelude.{◌≡◌, map, string_bytes};
ghost use Rattle.std.specs.Process.{exit_status};
ghost use Rattle.mz_tool_engine.specs.Consequences.{Consequences};
ghost use Rattle.mz_tool_engine.specs.Ending.{number_of};
ghost use Rattle.mz_tool_engine.specs.Given.{Gives};
ghost use Rattle.mz_tool_engine.specs.Run.{IsRun};
ghost use Rattle.mz_tool_engine.specs.Said.{Files as FilesThere};

use crate::program::{Program, run};
use crate::status::Status;
use mz_io::{DiskFolder, Folder, Sink, StdSink};
use std::alloc::Global;
use std::io::Write;
use std::process::ExitCode;
use std::rt::Files;

/// The run over the files of the system and a stream, with the logs of the calls on both: these are all of them.
pub fn run_on_system<'a, P: Program<'a>, R: Files + Alloc, W: Write>(
    rt: R,
    alloc: Global,
    program: &P,
    words: &'a [String],
    stream: W,
) -> (Status, DiskFolder<R>, StdSink<W>)
    ensures log { IsRun P.said_of (map string_bytes words.now) result.0 (⟦<DiskFolder<R> as Folder>⟧.calls result.1) (⟦<StdSink<W> as Sink>⟧.calls result.2) }

    // What follows of them, for whatever files the folder's calls gave.
    ensures follows { (file : FilesThere) → Gives file (⟦<DiskFolder<R> as Folder>⟧.calls result.1)
        → Consequences P.said_of (map string_bytes words.now) file result.0 (⟦<DiskFolder<R> as Folder>⟧.calls result.1) (⟦<StdSink<W> as Sink>⟧.calls result.2) }
{
    let mut folder = DiskFolder::new(rt);
    let mut out = StdSink::new(stream);
    let status = run(alloc, program, words, &mut folder, &mut out);
    (status, folder, out)
}

/// The number with which the process ends.
pub fn exit_code_of(status: Status) -> ExitCode
    ensures { exit_status result ≡ number_of status }
{
    ExitCode::from(status.number())
}
