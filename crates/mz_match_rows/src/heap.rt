// Where a unify stream makes its marks. They are kept, so that a reference is one look-up.
ghost use Rattle.std.specs.Prelude.{◌≡◌, ◌≤◌, ℕ, Some, length, slice_get};
ghost use Rattle.mz_match_rows.specs.Marks.{AreKept};
ghost use Rattle.mz_match_rows.specs.Streams.{mark_from};

use crate::stream::{Cursor, dummies_in, find_mark, makes_mark, step_at};
use mz_layout_tables::Mmb;
use std::alloc::Global;

/// The places at which the stream that begins at `start` makes its marks, in order: all of them, or
/// as many as memory is had for.
pub fn kept_marks(alloc: Global, mmb: &Mmb, start: u32) -> Vec<Cursor>
    requires { start ≤ length mmb.now }
    ensures { AreKept mmb.now start result.items }
{
    let file = mmb.file();
    let mut places = Vec::new(alloc);
    let mut at = start;
    let mut dummies = 0;
    'commands: loop {
        let Some(step) = step_at(file, at) else {
            return places;
        };
        if makes_mark(step.code) {
            let Ok(()) = places.push(Cursor { at, dummies }) else {
                return places;
            };
        }
        dummies += dummies_in(step.code);
        at = step.next;
    }
}

/// Where the mark with this number is made: one that isn't kept is looked for.
pub fn place_of_mark(mmb: &Mmb, start: u32, places: &[Cursor], mark: u32) -> Option<Cursor>
    requires within { start ≤ length mmb.now }
    requires kept { AreKept mmb.now start places.now }
    ensures { (n : ℕ) (place : Cursor) → mark_from mmb.now n start 0 mark ≡ Some place → result ≡ Some place }
{
    match kept_place(places, mark) {
        Some(place) => Some(place),
        None => find_mark(mmb.file(), start, mark),
    }
}

fn kept_place(places: &[Cursor], mark: u32) -> Option<Cursor>
    ensures { result ≡ slice_get places.now mark }
{
    places.get(mark as usize).copied()
}
