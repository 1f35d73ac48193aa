// The engine: how any command is answered.
ghost use Rattle.std.specs.Prelude.{◌≡◌, ◌≤◌, ◌<◌, ◌++◌, ◌⊎◌, ◌^◌, ℕ, List, [], Option, Some, None, length};
ghost use Rattle.mz_io.specs.Calls.{Call, Grows, Since, Hold};
ghost use Rattle.mz_io.specs.Outside.{HasRoom, Rose};
ghost use Rattle.mz_tool_engine.specs.Answering.{IsWritingAnswer};
ghost use Rattle.mz_tool_engine.specs.Files.{AreThere, BeginsLonger};
ghost use Rattle.mz_tool_engine.specs.Given.{Gives, Tells};
ghost use Rattle.mz_tool_engine.specs.Run.{IsRunOf, IsAnswer, longest};
ghost use Rattle.mz_tool_engine.specs.Said.{Files};

use crate::command::Command;
use crate::inputs::ReadAll;
use crate::outcome::Outcome;
use crate::output::put_file;
use crate::status::Status;
use mz_io::{Folder, Sink, write_whole};
use std::alloc::Global;

/// Answers a command, with files of at most `limit` bytes: reads them, asks the command, puts its file where the answer
/// is yes, and writes the text.
///
/// Out of memory may come in place of any answer.
pub fn answer<C: Command, F: Folder, O: Sink>(
    alloc: Global,
    limit: u64,
    command: &C,
    folder: &mut F,
    out: &mut O,
) -> Status
    requires limit { limit < 2 ^ 32 }
    // Over any folder and any sink: all calls that the run makes on them, with what these answered, and what it
    // answers over the bytes that came.
    ensures log { (calls : List Call) × (written : List Call) × (F.calls folder.new ≡ F.calls folder.old ++ calls) × (O.calls out.new ≡ O.calls out.old ++ written)
        × IsRunOf limit (C.says command.now) result calls written }

    // A folder that tells its files gave what they held at first, and holds afterwards what was put.
    ensures files { F.told → Since (F.calls folder.old) (F.calls folder.new) (Tells (F.file folder.old) (F.file folder.new)) }

    // Each call that failed was counted, and the folder stays as it was where nothing is read or put.
    ensures read_fault { result ≡ Status.ReadFault → Rose (F.faults folder.old) (F.faults folder.new) }
    ensures write_fault { result ≡ Status.WriteFault → Rose (F.put_faults folder.old) (F.put_faults folder.new) }
    ensures out_fault { result ≡ Status.OutFault → Rose (O.faults out.old) (O.faults out.new) }
    ensures put_faults { (C.says command.now).puts ≡ None → F.put_faults folder.new ≡ F.put_faults folder.old }
    ensures apart { (C.says command.now).reads ≡ [] → (C.says command.now).puts ≡ None → folder.new ≡ folder.old }

    // Where no coming call is listed to fail, only a missing file, a want of room and a full sink are faults; after a
    // file that is too long none is looked for.
    ensures only_missing { F.is_clear folder.old → AreThere (F.file folder.old) (C.says command.now).reads → F.faults folder.new ≡ F.faults folder.old }
    ensures unread { F.is_clear folder.old → BeginsLonger limit (F.file folder.old) (C.says command.now).reads → F.faults folder.new ≡ F.faults folder.old }
    ensures only_room { F.is_clear folder.old → ((name : List ℕ) → (C.says command.now).puts ≡ Some name → HasRoom (F.rooms folder.old) name longest)
        → F.put_faults folder.new ≡ F.put_faults folder.old }
    ensures only_full { (file : Files) → Since (F.calls folder.old) (F.calls folder.new) (Gives file) → O.is_clear out.old
        → ((contents : List (List ℕ)) (put : Option (List ℕ)) (text : List ℕ) → Hold file (C.says command.now).reads contents
        → IsAnswer (C.says command.now) contents put text → length text ≤ O.room out.old) → O.faults out.new ≡ O.faults out.old }
{
    let contents = match command.inputs().read(alloc, limit, folder) {
        ReadAll::Contents(contents) => contents,
        ReadAll::TooLong => return Status::TooLong,
        ReadAll::Fault => return Status::ReadFault,
        ReadAll::Mem => return Status::Memory,
    };
    let Ok(outcome) = command.answer(alloc, &contents, out) else {
        return Status::OutFault;
    };
    match outcome {
        Outcome::Yes { put, text } => {
            let Ok(()) = put_file(command.output(), &put, folder) else {
                return Status::WriteFault;
            };
            write_answer(&text, Status::Done, out)
        }
        Outcome::No { text } => write_answer(&text, Status::Refused, out),
        Outcome::Mem => Status::Memory,
    }
}

/// Writes what is left of an answer's text, after which the run ends with this status.
fn write_answer<O: Sink>(text: &[u8], status: Status, out: &mut O) -> Status
    ensures log { Grows (O.calls out.old) (O.calls out.new) (IsWritingAnswer status result text.now) }
    ensures ends { (result ≡ status) ⊎ ((result ≡ Status.OutFault) × Rose (O.faults out.old) (O.faults out.new)) }
    ensures later { O.faults out.old ≤ O.faults out.new }
    ensures only_full { O.is_clear out.old → length text.now ≤ O.room out.old → O.faults out.new ≡ O.faults out.old }
{
    if write_whole(out, text).is_err() {
        return Status::OutFault;
    }
    status
}
