//! The nodes at which rules are reported.
ghost use Rattle.std.specs.Prelude.{◌≡◌, ℕ};
ghost use Rattle.mz_sexpr.specs.Node;
ghost use Rattle.mz_sexpr.specs.Number;
ghost use Rattle.mz_mmu_theory.specs.FormOrder;
ghost use Rattle.mz_mmu_theory.specs.Parts;

use mz_mmu_theory::Fault;
use mz_sexpr::{Sexprs, U};
use std::marker::Model;

/// A list of nodes, from one of them on. Past its end there are no nodes, and their place is 0.
#[derive(Drop)]
pub struct Cursor<'n, 'a> {
    nodes: &'n Sexprs<'a>,
    first: Option<u32>,
}

impl<'n, 'a> Model for Cursor<'n, 'a> {
    ghost use Rattle.mz_sexpr.specs.Node.{Nodes};
    ghost use Rattle.mz_mmu_theory.specs.Cursor.{nodes_from, IsThere};
    ghost use Rattle.mz_sexpr.specs.NodesCode.{nodes_code};

    ghost Value = { Nodes };

    ghost coded = { nodes_code };

    ghost view = { λ a. nodes_from a.nodes.now a.first };

    ghost invariant = { λ a. IsThere a.nodes.now a.first };
}

impl<'n, 'a> Cursor<'n, 'a> {
    /// The top nodes.
    pub fn top(nodes: &'n Sexprs<'a>) -> Cursor<'n, 'a>
        ensures { result ≡ nodes.now }
    {
        Cursor {
            nodes,
            first: nodes.roots(),
        }
    }

    /// The parts of the first node.
    pub(crate) fn parts(&self) -> Cursor<'n, 'a>
        ensures { result ≡ Node.parts (Number.first self.now) }
    {
        Cursor {
            nodes: self.nodes,
            first: match self.first {
                None => None,
                Some(n) => self.nodes.first(n),
            },
        }
    }

    /// The nodes behind the first.
    pub fn rest(&self) -> Cursor<'n, 'a>
        ensures { result ≡ Number.rest self.now }
    {
        Cursor {
            nodes: self.nodes,
            first: match self.first {
                None => None,
                Some(n) => self.nodes.next(n),
            },
        }
    }

    /// All but the first so many nodes.
    pub(crate) fn after(&self, count: usize) -> Cursor<'n, 'a>
        ensures { result ≡ Parts.after count self.now }
    {
        let nodes = self.nodes;
        let mut first = self.first;
        let mut left = count;
        'passing: while left > 0 {
            let Some(n) = first else {
                break;
            };
            first = nodes.next(n);
            left -= 1;
        }
        Cursor { nodes, first }
    }

    /// The first node's part at the place, and those behind it.
    #[inline(never)]
    pub(crate) fn part(&self, place: usize) -> Cursor<'n, 'a>
        ensures { Number.first result ≡ Parts.part (Node.parts (Number.first self.now)) place }
    {
        self.parts().after(place)
    }

    /// The parts of the first node's part at the place.
    pub(crate) fn parts_of(&self, place: usize) -> Cursor<'n, 'a>
        ensures { result ≡ Node.parts (Parts.part (Node.parts (Number.first self.now)) place) }
    {
        self.part(place).parts()
    }

    /// The first node's parts behind so many.
    #[inline(never)]
    pub(crate) fn parts_after(&self, count: usize) -> Cursor<'n, 'a>
        ensures { result ≡ Parts.after count (Node.parts (Number.first self.now)) }
    {
        self.parts().after(count)
    }

    /// Is the first node a list?
    pub(crate) fn is_list(&self) -> bool
        ensures { result ≡ Parts.is_list (Number.first self.now) }
    {
        match self.first {
            None => false,
            Some(n) => !self.nodes.is_atom(n),
        }
    }

    /// The place of the first node.
    pub(crate) fn place(&self) -> u32
        ensures { result ≡ Node.place (Number.first self.now) }
    {
        match self.first {
            None => 0,
            Some(n) => self.nodes.at(n),
        }
    }

    /// A rule that is broken at the first node.
    pub(crate) fn fault(&self, rule: U) -> Fault
        ensures { result ≡ FormOrder.fault (Node.place (Number.first self.now)) rule }
    {
        Fault {
            at: self.place(),
            rule,
        }
    }
}
