// The program, over any folder and sink.
ghost use Rattle.std.specs.Prelude.{◌≡◌, map, string_bytes};
ghost use Rattle.mz_tool_engine.specs.Ran.{Ran};
ghost use Rattle.mz_tool_engine.specs.Said.{Files};
ghost use Rattle.mz_tool.specs.Requests.{said_of};

use crate::command::ProgramCommand;
use mz_io::{Folder, Sink};
use mz_store::Seed;
use mz_tool_engine::{Program, Status};
use std::alloc::Global;

/// The program `mz`, with the seed by which terms and names are looked up. No answer but out of memory depends on it.
#[derive(Clone, Copy)]
pub struct Mz {
    pub seed: Seed,
}

impl<'a> Program<'a> for Mz {
    ghost use Rattle.mz_tool_engine.specs.Run.{IsProved, said-itself};
    ghost use Rattle.mz_tool.specs.Requests.{Request as ProgramRequest, said_of as said_of_request, request as request_of};

    type Asked = ProgramCommand<'a>;

    ghost Request = { ProgramRequest };

    ghost said_of = { said_of_request };

    ghost request = { request_of };

    fn read(&self, words: &'a [String]) -> Option<ProgramCommand<'a>> {
        ProgramCommand::read(self.seed, words)
    }

    fn keeps_its_promises(&self)
        ensures { (file : Files) (asked : ProgramRequest) → IsProved file (said_of_request asked) → (said_of_request asked).promise file }
    {}

    ghost says = { λ command. said-itself (said_of_request (request_of command)) };
}

/// Does what the arguments ask for, with the folder's files, and writes the answer to `out`.
///
/// Out of memory may come in place of any answer but `Usage`. No other answer depends on the seed, by which terms and
/// names are looked up.
pub fn run<F: Folder, O: Sink>(
    alloc: Global,
    seed: Seed,
    words: &[String],
    folder: &mut F,
    out: &mut O,
) -> Status
    ensures ran { Ran said_of (map string_bytes words.now) result
        (record { calls = F.calls; told = F.told; file = F.file; faults = F.faults; put_faults = F.put_faults; is_clear = F.is_clear; rooms = F.rooms }) folder.old folder.new
        (record { calls = O.calls; told = O.told; written = O.written; faults = O.faults; is_clear = O.is_clear; room = O.room }) out.old out.new }
{
    mz_tool_engine::run(alloc, &Mz { seed }, words, folder, out)
}
