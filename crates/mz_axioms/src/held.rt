// Text that is written in pieces, a few of which are held back and written together.
ghost use Rattle.std.specs.Prelude.{◌≡◌, [], IfOk};
ghost use Rattle.mz_axioms.specs.Pieces.{Adds};

use mz_io::{Failed, Sink, write_whole};

/// From so many bytes on, what is held back is written.
const MANY: usize = 65_536;

/// Adds a piece. Where there is no memory to hold it back it is written at once, so that a text that is begun never ends
/// because memory runs out.
pub fn put<O: Sink>(held: &mut Vec<u8>, piece: &[u8], out: &mut O) -> Result<(), Failed>
    ensures { Adds result (O.is_clear out.old) (O.is_clear out.new) (O.room out.old) (O.room out.new) (O.faults out.old) (O.faults out.new) (O.calls out.old) (O.calls out.new)
        held.old.items held.new.items piece.now }
{
    spill_many(held, out)?;
    match held.extend_from_slice(piece) {
        Ok(()) => Ok(()),
        Err(_) => put_through(held, piece, out),
    }
}

/// Writes what is held back, and nothing is then.
pub fn spill<O: Sink>(held: &mut Vec<u8>, out: &mut O) -> Result<(), Failed>
    ensures adds { Adds result (O.is_clear out.old) (O.is_clear out.new) (O.room out.old) (O.room out.new) (O.faults out.old) (O.faults out.new) (O.calls out.old) (O.calls out.new)
        held.old.items held.new.items [] }
    ensures none { IfOk result (λ _. held.new.items ≡ []) }
{
    write_whole(out, held)?;
    held.clear();
    Ok(())
}

/// Writes what is held back, where it has many bytes.
fn spill_many<O: Sink>(held: &mut Vec<u8>, out: &mut O) -> Result<(), Failed>
    ensures { Adds result (O.is_clear out.old) (O.is_clear out.new) (O.room out.old) (O.room out.new) (O.faults out.old) (O.faults out.new) (O.calls out.old) (O.calls out.new)
        held.old.items held.new.items [] }
{
    if held.len() < MANY {
        return Ok(());
    }
    spill(held, out)
}

/// Writes what is held back, and then a piece.
fn put_through<O: Sink>(held: &mut Vec<u8>, piece: &[u8], out: &mut O) -> Result<(), Failed>
    ensures { Adds result (O.is_clear out.old) (O.is_clear out.new) (O.room out.old) (O.room out.new) (O.faults out.old) (O.faults out.new) (O.calls out.old) (O.calls out.new)
        held.old.items held.new.items piece.now }
{
    spill(held, out)?;
    write_whole(out, piece)
}
