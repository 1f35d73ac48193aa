// A program, and how any one runs.
ghost use Rattle.std.specs.Prelude.{◌≡◌, map, string_bytes, IfSome, IfNone};
ghost use Rattle.mz_tool_engine.specs.Ran.{Ran};
ghost use Rattle.mz_tool_engine.specs.Run.{Asks, IsProved, IsSaidOf};
ghost use Rattle.mz_tool_engine.specs.Said.{Said, Files};

use crate::command::Command;
use crate::engine::answer;
use crate::status::{LONGEST, Status};
use mz_io::{Folder, Sink};
use std::alloc::Global;

/// A program: what its arguments may ask for, and which command answers.
pub trait Program<'a> {
    /// A command of the program.
    type Asked: Command + Drop;

    /// What the arguments may ask for.
    ghost Request: { Type 0 };

    /// All that is said of a request.
    ghost said_of: { Request → Said };

    /// The request that a command answers.
    ghost request: { Self.Asked → Request };

    /// The command that the arguments ask for, where they ask for one. They ask for one request at the most.
    fn read(&self, words: &'a [String]) -> Option<Self::Asked>
        ensures asked { IfSome result (λ command. Asks (said_of (request command)) (map string_bytes words.now)) }
        ensures usage { IfNone result ((asked : Request) → Asks (said_of asked) (map string_bytes words.now) → ⊥) }
        ensures one { (asked other : Request) → Asks (said_of asked) (map string_bytes words.now) → Asks (said_of other) (map string_bytes words.now) → asked ≡ other };

    /// A law, as the contract of an empty function: what a yes promises of all the files gives what it promises of the
    /// specification.
    fn keeps_its_promises(&self)
        ensures { (file : Files) (asked : Request) → IsProved file (said_of asked) → (said_of asked).promise file };

    /// What is said of a command is said of the request that it answers.
    ghost says: { (command : Self.Asked) → IsSaidOf (Self.Asked.says command) (said_of (request command)) };
}

/// Does what the arguments ask of the program, with the folder's files, and writes the answer to `out`.
///
/// Out of memory may come in place of any answer but `Usage`.
pub fn run<'a, P: Program<'a>, F: Folder, O: Sink>(
    alloc: Global,
    program: &P,
    words: &'a [String],
    folder: &mut F,
    out: &mut O,
) -> Status
    ensures ran { Ran P.said_of (map string_bytes words.now) result
        (record { calls = F.calls; told = F.told; file = F.file; faults = F.faults; put_faults = F.put_faults; is_clear = F.is_clear; rooms = F.rooms }) folder.old folder.new
        (record { calls = O.calls; told = O.told; written = O.written; faults = O.faults; is_clear = O.is_clear; room = O.room }) out.old out.new }
{
    program.keeps_its_promises();
    match program.read(words) {
        Some(command) => answer(alloc, LONGEST, &command, folder, out),
        None => Status::Usage,
    }
}
