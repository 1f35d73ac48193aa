//! Writing a whole text to a sink.
ghost use Rattle.std.specs.Prelude.{◌≡◌, ◌≤◌, ◌+◌, length, OnOk};
ghost use Rattle.mz_io.specs.Calls.{Grows, IsWriting};
ghost use Rattle.mz_io.specs.Outside.{HasCause};

use crate::{Failed, Sink};

/// Writes all of the text, in as many calls as the sink takes. After a failure a prefix of the text
/// is written.
pub fn write_whole<O: Sink>(out: &mut O, text: &[u8]) -> Result<(), Failed>
    // The text is handed over whole, or up to a failure, after which nothing is.
    ensures log { Grows (O.calls out.old) (O.calls out.new) (IsWriting result text.now) }

    // A failure was counted.
    ensures cause { HasCause (O.faults out.old) (O.faults out.new) result }

    // While no coming call is listed to fail, only a want of room fails. A text that was written
    // takes its own length of the room, so that a further one can be written.
    ensures stays_clear { O.is_clear out.old → O.is_clear out.new }
    ensures only_full { O.is_clear out.old → length text.now ≤ O.room out.old → O.faults out.new ≡ O.faults out.old }
    ensures lessens { O.is_clear out.old → OnOk result (O.room out.new + length text.now ≡ O.room out.old) }
{
    let mut done = 0;
    while done < text.len() {
        done += out.write(&text[done..])?;
    }
    Ok(())
}
