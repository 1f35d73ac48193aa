// The listing of a binary.
ghost use Rattle.std.specs.Prelude.{◌≡◌, ◌≤◌, ◌<◌, ◌+◌, ◌^◌, List, ℕ, length};
ghost use Rattle.mz_cmd.specs.declared.rule.Refusal.{Refusal as RefusalValue};
ghost use Rattle.mz_io.specs.Calls.{Grows};
ghost use Rattle.mz_io.specs.Outside.{Rose};
ghost use Rattle.mz_show.specs.Asked.{IsShowing};
ghost use Rattle.mz_show.specs.Listing.{IsListed, IsListedUpTo, IsListing};

use crate::place::Place;
use crate::statement::{Next, list_next};
use mz_cmd::Refusal;
use mz_io::{Sink, write_whole};
use mz_layout_tables::{Mmb, Rows};
use std::alloc::Global;

/// What came of a listing.
#[derive(Clone, Copy, Debug, PartialEq, Eq)]
pub enum Shown {
    /// It is written whole.
    Done,
    /// It is written up to the statement that the refusal names, the first of which a rule fails.
    Refused(Refusal),
    /// The sink failed: a prefix is written.
    Fault,
    /// Out of memory: a prefix is written.
    Mem,
}

/// Writes the listing of a binary. Of a statement that is refused no line is written.
pub fn listing<O: Sink>(alloc: Global, file: &[u8], out: &mut O) -> Shown
    requires { length file.now < 2 ^ 32 }
    // What is written is the listing, or a prefix of it.
    ensures log { Grows (O.calls out.old) (O.calls out.new) (IsShowing file.now result) }

    // What is listed before a refusal takes its own length of the room.
    ensures refused { (refusal : RefusalValue) → result ≡ Shown.Refused refusal → (text : List ℕ) × IsListedUpTo file.now text refusal × (O.is_clear out.old → O.room out.new + length text ≡ O.room out.old) }

    // The whole listing only where there is one, and a refusal only where a rule fails.
    ensures listed { (text : List ℕ) (refusal : RefusalValue) → IsListing file.now text → result ≡ Shown.Refused refusal → ⊥ }
    ensures stopped { (text : List ℕ) (refusal : RefusalValue) → IsListedUpTo file.now text refusal → result ≡ Shown.Done → ⊥ }

    // A failure of the sink was counted.
    ensures fault { result ≡ Shown.Fault → Rose (O.faults out.old) (O.faults out.new) }
    ensures later { O.faults out.old ≤ O.faults out.new }

    // While no coming call is listed to fail, only a want of room fails.
    ensures stays_clear { O.is_clear out.old → O.is_clear out.new }
    ensures only_full { O.is_clear out.old → ((text : List ℕ) → IsListed file.now text → length text ≤ O.room out.old) → O.faults out.new ≡ O.faults out.old }
{
    match Mmb::read(file) {
        Ok(mmb) => list_statements(alloc, &mmb, out),
        Err(refusal) => Shown::Refused(refusal),
    }
}

/// Writes the lines of the statements, up to the list's end or the first statement that is refused.
fn list_statements<O: Sink>(alloc: Global, mmb: &Mmb, out: &mut O) -> Shown
    ensures log { Grows (O.calls out.old) (O.calls out.new) (IsShowing mmb.now result) }
    ensures refused { (refusal : RefusalValue) → result ≡ Shown.Refused refusal → (text : List ℕ) × IsListedUpTo mmb.now text refusal × (O.is_clear out.old → O.room out.new + length text ≡ O.room out.old) }
    ensures fault { result ≡ Shown.Fault → Rose (O.faults out.old) (O.faults out.new) }
    ensures later { O.faults out.old ≤ O.faults out.new }
    ensures stays_clear { O.is_clear out.old → O.is_clear out.new }
    ensures only_full { O.is_clear out.old → ((text : List ℕ) → IsListed mmb.now text → length text ≤ O.room out.old) → O.faults out.new ≡ O.faults out.old }
{
    let mut place = Place {
        number: 1,
        at: mmb.proof_at(),
        rows: Rows {
            sorts: 0,
            terms: 0,
            thms: 0,
        },
    };
    let mut text = Vec::new(alloc);
    'statements: loop {
        text.clear();
        match list_next(mmb, place, &mut text) {
            Next::Statement(after) => {
                let Ok(()) = write_whole(out, &text) else {
                    return Shown::Fault;
                };
                place = after;
            }
            Next::End => {
                let Ok(()) = write_whole(out, b"end\n") else {
                    return Shown::Fault;
                };
                return Shown::Done;
            }
            Next::Refused(refusal) => return Shown::Refused(refusal),
            Next::Mem => return Shown::Mem,
        }
    }
}
