// The file that a command puts.
ghost use Rattle.std.specs.Prelude.{◌≡◌, ◌≤◌, ℕ, List, Some, None, length, is_ok};
ghost use Rattle.mz_io.specs.Calls.{Grows, Since};
ghost use Rattle.mz_io.specs.Outside.{HasCause, HasRoom};
ghost use Rattle.mz_tool_engine.specs.Answering.{IsPutFault, IsShort};
ghost use Rattle.mz_tool_engine.specs.Given.{Leaves, puts_among};
ghost use Rattle.mz_tool_engine.specs.Inputs.{name_of, bytes_of};
ghost use Rattle.mz_tool_engine.specs.Run.{IsPutting, longest};

use mz_io::{Failed, Folder};

/// The name of the file that a command puts, if it puts one.
#[derive(Clone, Copy)]
pub enum Output<'a> {
    Nothing,
    File(&'a str),
}

/// What is put, if a file is.
#[derive(Drop)]
pub enum Put {
    Nothing,
    File(Vec<u8>),
}

/// Puts the file, where there are a name and bytes.
pub fn put_file<F: Folder>(name: Output, put: &Put, folder: &mut F) -> Result<(), Failed>
    ensures log { Grows (F.calls folder.old) (F.calls folder.new) (IsPutting (is_ok result) (name_of name.entry) (bytes_of put.now)) }
    ensures fails { IsPutFault result (name_of name.entry) (bytes_of put.now) }
    ensures files { F.told → Since (F.calls folder.old) (F.calls folder.new) (λ calls. Leaves (puts_among calls) (F.file folder.old) (F.file folder.new)) }
    ensures cause { HasCause (F.put_faults folder.old) (F.put_faults folder.new) result }
    ensures none { name_of name.entry ≡ None → folder.new ≡ folder.old }
    ensures faults { F.faults folder.new ≡ F.faults folder.old }
    ensures only_room { F.is_clear folder.old → ((room : List ℕ) → name_of name.entry ≡ Some room → HasRoom (F.rooms folder.old) room longest)
        → IsShort (bytes_of put.now) → F.put_faults folder.new ≡ F.put_faults folder.old }
{
    match (name, put) {
        (Output::File(name), Put::File(bytes)) => folder.put(name, bytes),
        _ => Ok(()),
    }
}
