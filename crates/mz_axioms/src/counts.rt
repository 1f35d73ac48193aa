// How many numbers a kept set has, and which of them stands at a place.
ghost use Rattle.std.specs.Prelude.{◌≡◌, ◌≤◌, ◌<◌, ◌+◌, ◌^◌, All, Some, length, map, slice_get};
ghost use Rattle.mz_axioms.specs.Kept.{IsKept, members_of, nodes_of, told};
ghost use Rattle.mz_axioms.specs.Members.{IsSet, IsStore, bits, members, span};
ghost use Rattle.mz_axioms.specs.Rows.{number_at};

use crate::rows::Table;
use crate::sets::{Node, Size};

/// The number of the declaration of a set's j-th row.
pub fn nth_number(table: &Table, set: u64, j: u64) -> u32
    requires kept { IsKept table.now }
    requires is_set { IsSet (nodes_of table.now) table.now.size.height set }
    requires within { All (λ A. A < length (told table.now)) (members_of table.now set) }
    requires there { j < length (members_of table.now set) }
    ensures { slice_get (map (number_at (told table.now)) (members_of table.now set)) j ≡ Some result }
{
    let row = nth(&table.sets.nodes, table.size, 0, set, j);
    let found = table.rows[row as usize];
    found.place.number
}

/// How many numbers a set has.
pub fn count(nodes: &Vec<Node>, size: Size, set: u64) -> u64
    requires starts { IsStore nodes.now.items }
    requires power { size.span ≡ span size.height }
    requires fits { size.span ≤ 2 ^ 33 }
    requires is_set { IsSet nodes.now.items size.height set }
    ensures { result ≡ length (members nodes.now.items size.height 0 set) }
{
    if set == 0 {
        return 0;
    }
    if size.height == 0 {
        return u64::from(set.count_ones());
    }
    let half = Size {
        height: size.height - 1,
        span: size.span / 2,
    };
    let node = nodes[set as usize];
    count(nodes, half, node.left) + count(nodes, half, node.right)
}

/// A set's j-th number, the least being the 0th, with a base added.
fn nth(nodes: &Vec<Node>, size: Size, base: u64, set: u64, j: u64) -> u64
    requires starts { IsStore nodes.now.items }
    requires power { size.span ≡ span size.height }
    requires fits { base + size.span ≤ 2 ^ 33 }
    requires is_set { IsSet nodes.now.items size.height set }
    requires there { j < length (members nodes.now.items size.height base set) }
    ensures { slice_get (members nodes.now.items size.height base set) j ≡ Some result }
{
    if size.height == 0 {
        return nth_bit(64, base, set, j);
    }
    let half = Size {
        height: size.height - 1,
        span: size.span / 2,
    };
    let node = nodes[set as usize];
    let lefts = count(nodes, half, node.left);
    if j < lefts {
        return nth(nodes, half, base, node.left, j);
    }
    nth(nodes, half, base + half.span, node.right, j - lefts)
}

/// The same of so many bits of a word.
fn nth_bit(many: u64, base: u64, word: u64, j: u64) -> u64
    requires fits { base + many ≤ 2 ^ 33 }
    requires there { j < length (bits many base word) }
    ensures { slice_get (bits many base word) j ≡ Some result }
{
    if word % 2 == 0 {
        return nth_bit(many - 1, base + 1, word / 2, j);
    }
    if j == 0 {
        return base;
    }
    nth_bit(many - 1, base + 1, word / 2, j - 1)
}
