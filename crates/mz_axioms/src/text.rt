// The text that says on what theorems rest.
ghost use Rattle.std.specs.Prelude.{◌≡◌, ◌≤◌, ℕ, List, [], All, length};
ghost use Rattle.mz_io.specs.Calls.{Grows};
ghost use Rattle.mz_io.specs.Outside.{HasCause};
ghost use Rattle.mz_spec.specs.Named.{IsNamed};
ghost use Rattle.mz_axioms.specs.Kept.{IsKept, IsSupport, support_told, supports_told};
ghost use Rattle.mz_axioms.specs.Pieces.{Adds};
ghost use Rattle.mz_axioms.specs.Text.{IsPrinting, IsTextOf, support_line, supports_text};

use crate::held::{put, spill};
use crate::lists::{Lists, Support};
use crate::names::put_names;
use crate::rows::Table;
use mz_io::{Failed, Sink};
use mz_spec::NamedSpec;
use std::alloc::Global;

/// Writes a line for each theorem of the specification: its name, a colon, and for each axiom on which it
/// rests a space and the axiom's name.
///
/// # Errors
///
/// The sink failed: a prefix is written.
pub fn write_axioms<O: Sink>(
    alloc: Global,
    spec: &NamedSpec,
    lists: &Lists,
    out: &mut O,
) -> Result<(), Failed>
    // What is written is the text, or a prefix of it where the sink fails.
    ensures log { (text : List ℕ) → IsNamed text spec.now → Grows (O.calls out.old) (O.calls out.new) (IsPrinting text lists.now result) }

    // A failure of the sink was counted.
    ensures cause { HasCause (O.faults out.old) (O.faults out.new) result }

    // While no coming call is listed to fail, only a want of room fails.
    ensures stays_clear { O.is_clear out.old → O.is_clear out.new }
    ensures only_full { (text : List ℕ) → IsNamed text spec.now → O.is_clear out.old → ((line : List ℕ) → IsTextOf text lists.now line → length line ≤ O.room out.old) → O.faults out.new ≡ O.faults out.old }
{
    write_lines(alloc, spec, &lists.table, &lists.supports, out)
}

/// Writes the lines. No call asks for memory but to hold pieces back, and it goes on where it gets none.
fn write_lines<O: Sink>(
    alloc: Global,
    spec: &NamedSpec,
    table: &Table,
    supports: &[Support],
    out: &mut O,
) -> Result<(), Failed>
    requires kept { IsKept table.now }
    requires each { All (IsSupport table.now) supports.now }
    ensures { Adds result (O.is_clear out.old) (O.is_clear out.new) (O.room out.old) (O.room out.new) (O.faults out.old) (O.faults out.new) (O.calls out.old) (O.calls out.new)
        [] [] (supports_text spec.now.text.now spec.now.declared (supports_told table.now supports.now)) }
{
    let mut held = Vec::new(alloc);
    'supports: for &support in supports {
        put_line(spec, table, support, &mut held, out)?;
    }
    spill(&mut held, out)
}

/// Adds a theorem's line.
fn put_line<O: Sink>(
    spec: &NamedSpec,
    table: &Table,
    support: Support,
    held: &mut Vec<u8>,
    out: &mut O,
) -> Result<(), Failed>
    requires kept { IsKept table.now }
    requires support { IsSupport table.now support }
    ensures { Adds result (O.is_clear out.old) (O.is_clear out.new) (O.room out.old) (O.room out.new) (O.faults out.old) (O.faults out.new) (O.calls out.old) (O.calls out.new)
        held.old.items held.new.items (support_line spec.now.text.now spec.now.declared (support_told table.now support)) }
{
    put(held, spec.name(support.theorem), out)?;
    put(held, b":", out)?;
    put_names(table, support.set, spec, held, out)?;
    put(held, b"\n", out)
}
