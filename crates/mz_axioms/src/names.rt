// The names of the axioms of a set.
ghost use Rattle.std.specs.Prelude.{◌≡◌, ◌≤◌, ◌<◌, ◌+◌, ◌^◌, All, length, map};
ghost use Rattle.mz_axioms.specs.Kept.{IsKept, members_of, nodes_of, number_of, told};
ghost use Rattle.mz_axioms.specs.Members.{IsSet, IsStore, bits, low_bit, members, span};
ghost use Rattle.mz_axioms.specs.Pieces.{Adds};
ghost use Rattle.mz_axioms.specs.Rows.{number_at};
ghost use Rattle.mz_axioms.specs.Text.{axiom_names};

use crate::held::put;
use crate::rows::{Row, Table};
use crate::sets::Size;
use mz_io::{Failed, Sink};
use mz_spec::NamedSpec;

/// Adds a space and the name of its declaration for each row of a set, in the order of the rows.
pub fn put_names<O: Sink>(
    table: &Table,
    set: u64,
    spec: &NamedSpec,
    held: &mut Vec<u8>,
    out: &mut O,
) -> Result<(), Failed>
    requires kept { IsKept table.now }
    requires is_set { IsSet (nodes_of table.now) table.now.size.height set }
    requires within { All (λ A. A < length (told table.now)) (members_of table.now set) }
    ensures { Adds result (O.is_clear out.old) (O.is_clear out.new) (O.room out.old) (O.room out.new) (O.faults out.old) (O.faults out.new) (O.calls out.old) (O.calls out.new)
        held.old.items held.new.items (axiom_names spec.now.text.now spec.now.declared (map (number_at (told table.now)) (members_of table.now set))) }
{
    put_half(table, table.size, 0, set, spec, held, out)
}

/// Adds those of a half, its rows being counted from a base.
fn put_half<O: Sink>(
    table: &Table,
    size: Size,
    base: u64,
    set: u64,
    spec: &NamedSpec,
    held: &mut Vec<u8>,
    out: &mut O,
) -> Result<(), Failed>
    requires starts { IsStore (nodes_of table.now) }
    requires power { size.span ≡ span size.height }
    requires fits { base + size.span ≤ 2 ^ 34 }
    requires is_set { IsSet (nodes_of table.now) size.height set }
    requires within { All (λ A. A < length table.now.rows.items) (members (nodes_of table.now) size.height base set) }
    ensures { Adds result (O.is_clear out.old) (O.is_clear out.new) (O.room out.old) (O.room out.new) (O.faults out.old) (O.faults out.new) (O.calls out.old) (O.calls out.new)
        held.old.items held.new.items (axiom_names spec.now.text.now spec.now.declared (map (number_of table.now.rows.items) (members (nodes_of table.now) size.height base set))) }
{
    if set == 0 {
        return Ok(());
    }
    if size.height == 0 {
        return put_word(&table.rows, base, set, spec, held, out);
    }
    let half = Size {
        height: size.height - 1,
        span: size.span / 2,
    };
    let node = table.sets.nodes[set as usize];
    put_half(table, half, base, node.left, spec, held, out)?;
    put_half(table, half, base + half.span, node.right, spec, held, out)
}

/// The same of a word.
fn put_word<O: Sink>(
    rows: &Vec<Row>,
    base: u64,
    word: u64,
    spec: &NamedSpec,
    held: &mut Vec<u8>,
    out: &mut O,
) -> Result<(), Failed>
    requires fits { base + 64 ≤ 2 ^ 34 }
    requires within { All (λ A. A < length rows.now.items) (bits 64 base word) }
    ensures { Adds result (O.is_clear out.old) (O.is_clear out.new) (O.room out.old) (O.room out.new) (O.faults out.old) (O.faults out.new) (O.calls out.old) (O.calls out.new)
        held.old.items held.new.items (axiom_names spec.now.text.now spec.now.declared (map (number_of rows.now.items) (bits 64 base word))) }
{
    let mut rest = word;
    'bits: for i in 0..64 {
        put_low(rows, base + i, rest, spec, held, out)?;
        rest /= 2;
    }
    Ok(())
}

/// The same of a word's lowest bit.
fn put_low<O: Sink>(
    rows: &Vec<Row>,
    base: u64,
    word: u64,
    spec: &NamedSpec,
    held: &mut Vec<u8>,
    out: &mut O,
) -> Result<(), Failed>
    requires { All (λ A. A < length rows.now.items) (low_bit base word) }
    ensures { Adds result (O.is_clear out.old) (O.is_clear out.new) (O.room out.old) (O.room out.new) (O.faults out.old) (O.faults out.new) (O.calls out.old) (O.calls out.new)
        held.old.items held.new.items (axiom_names spec.now.text.now spec.now.declared (map (number_of rows.now.items) (low_bit base word))) }
{
    if word % 2 != 1 {
        return Ok(());
    }
    let number = rows[base as usize].place.number;
    put(held, b" ", out)?;
    put(held, spec.name(number), out)
}
