ghost use Rattle.std.specs.Prelude.{ℕ, List, ◌≡◌, ◌↔◌, ◌≤◌, ◌<◌, ◌+◌, ◌-◌, ◌^◌, IsTrue, length, map, drop, is_some, take_while};
ghost use Rattle.mz_sexpr.specs.Node.{is_atom, word, parts, place};
ghost use Rattle.mz_sexpr.specs.Number.{node_count, node_at, nodes_after, StandsFor};
ghost use Rattle.mz_sexpr.specs.Grammar.{is_letter};
ghost use Rattle.mz_sexpr.specs.Rows.{entry, level, word_from, Steps, IsShallow};

use crate::ends::end_at;
use crate::sexprs::{Row, Sexprs, word_of};

/// What a text has from a place on.
fn bytes_from(text: &[u8], at: usize) -> &[u8]
    ensures { result.now ≡ drop at text.now }
{
    text.get(at..).unwrap_or(&[])
}

/// Whether an atom begins where the bytes do, and no list.
fn begins_atom(bytes: &[u8]) -> bool
    ensures { result ≡ is_some (word_from bytes.now) }
{
    !matches!(bytes, [b'(', ..])
}

/// The n-th row, if it stands at this depth.
fn row_of_depth(rows: &[Row], n: usize, depth: u32) -> Option<u32>
    requires short { length rows.now < 2 ^ 32 }
    ensures { (text : List ℕ) → Steps 0 (map (entry text) rows.now) → IsShallow (map (entry text) rows.now) n depth
        → StandsFor (level (map (entry text) rows.now) 0) result (level (drop n (map (entry text) rows.now)) depth) }
{
    if n < rows.len() && rows[n].depth as u32 == depth {
        Some(n as u32)
    } else {
        None
    }
}

impl<'a> Sexprs<'a> {
    /// The text from the node's first byte on.
    fn bytes_from(&self, n: u32) -> &'a [u8]
        requires { n < node_count self.now }
        ensures begins { is_some (word_from result.now) ≡ Rattle.mz_sexpr.specs.Node.is_atom (node_at self.now n) }
        ensures word { IsTrue (Rattle.mz_sexpr.specs.Node.is_atom (node_at self.now n)) → take_while is_letter result.now ≡ word (node_at self.now n) }
    {
        bytes_from(self.text, self.rows[n as usize].at as usize)
    }

    /// How many nodes there are, those within others included.
    pub fn count(&self) -> u32
        ensures { result ≡ node_count self.now }
    {
        self.rows.len() as u32
    }

    /// The first top form; none where the text has no form. The other top forms are those that
    /// follow it.
    pub fn roots(&self) -> Option<u32>
        ensures { StandsFor self.now result self.now }
    {
        row_of_depth(&self.rows, 0, 0)
    }

    /// Is the node an atom?
    pub fn is_atom(&self, n: u32) -> bool
        requires { n < node_count self.now }
        ensures { result ≡ Rattle.mz_sexpr.specs.Node.is_atom (node_at self.now n) }
    {
        begins_atom(self.bytes_from(n))
    }

    /// The bytes of an atom, as they stand in the text.
    pub fn atom(&self, n: u32) -> &'a [u8]
        requires within { n < node_count self.now }
        requires atom { IsTrue (Rattle.mz_sexpr.specs.Node.is_atom (node_at self.now n)) }
        ensures { result.now ≡ word (node_at self.now n) }
    {
        word_of(self.bytes_from(n))
    }

    /// The first part of a list; none for a list without parts and for an atom.
    pub fn first(&self, n: u32) -> Option<u32>
        requires { n < node_count self.now }
        ensures { StandsFor self.now result (parts (node_at self.now n)) }
    {
        if self.is_atom(n) {
            return None;
        }
        let depth = self.rows[n as usize].depth as u32;
        row_of_depth(&self.rows, n as usize + 1, depth + 1)
    }

    /// The next node of the same list, the top forms being one list; none for the last.
    pub fn next(&self, n: u32) -> Option<u32>
        requires { n < node_count self.now }
        ensures { StandsFor self.now result (nodes_after self.now n) }
    {
        row_of_depth(
            &self.rows,
            end_at(&self.rows, &self.ends, n as usize),
            self.rows[n as usize].depth as u32,
        )
    }

    /// The place of the node's first byte, from 0.
    pub fn at(&self, n: u32) -> u32
        requires { n < node_count self.now }
        ensures { result ≡ place (node_at self.now n) }
    {
        self.rows[n as usize].at
    }
}
