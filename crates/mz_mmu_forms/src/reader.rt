//! What the reading of all forms rests on: names, their numbers, and lists of so many nodes.
ghost use Rattle.std.specs.Prelude.{◌≡◌, ◌<◌, ◌≤◌, ◌+◌, ◌^◌, IfOk, IfErr};
ghost use Rattle.mz_sexpr.specs.Node;
ghost use Rattle.mz_sexpr.specs.Node.{place, list};
ghost use Rattle.mz_sexpr.specs.Number.{node_count, node_at};
ghost use Rattle.mz_sexpr.specs.declared.rule.U.{U};
ghost use Rattle.mz_mmu_theory.specs.Cursor.{nodes_from, IsThere, AreOne, AreTwo, AreThree, AreFour, AreFive, AreSix};
ghost use Rattle.mz_mmu_theory.specs.Name.{IsName, HasNumber, IsNewName};
ghost use Rattle.mz_mmu_theory.specs.FormOrder.{fault, name_asked, known_asked, new_asked, list_asked};
ghost use Rattle.mz_mmu_theory.specs.Stops.{Stops};
ghost use Rattle.mz_mmu_theory.specs.declared.fault.Stop.TheVariants.{Refused};

use crate::space::Space;
use mz_base::is_identifier;
use mz_mmu_theory::{Fault, Stop};
use mz_sexpr::{Sexprs, U};
use std::alloc::Global;

/// Reads the forms and names of nodes, which are spoken of by their numbers.
#[derive(Clone, Copy)]
pub struct Reader<'r, 'a> {
    /// Where what is read is put.
    pub alloc: Global,
    /// The nodes of the text.
    pub nodes: &'r Sexprs<'a>,
}

impl<'r, 'a> Reader<'r, 'a> {
    /// A rule that is broken at the node.
    pub fn wrong(&self, n: u32, rule: U) -> Stop
        requires { n < node_count self.now.nodes.now }
        ensures { result ≡ Refused (fault (place (node_at self.now.nodes.now n)) rule) }
    {
        Stop::Refused(Fault {
            at: self.nodes.at(n),
            rule,
        })
    }

    /// An atom's bytes, none for a list.
    pub fn word(&self, n: u32) -> &'a [u8]
        requires { n < node_count self.now.nodes.now }
        ensures { result.now ≡ Node.word (node_at self.now.nodes.now n) }
    {
        if self.nodes.is_atom(n) {
            self.nodes.atom(n)
        } else {
            &[]
        }
    }

    /// The atom as a name.
    pub(crate) fn name(&self, n: u32) -> Result<&'a [u8], Stop>
        requires { n < node_count self.now.nodes.now }
        ensures word { IfOk result (λ w. w.now ≡ Node.word (node_at self.now.nodes.now n)) }
        ensures name { IfOk result (λ w. IsName w.now) }
        ensures stops { IfErr result (λ stop. Stops stop (name_asked (node_at self.now.nodes.now n))) }
    {
        let word = self.word(n);
        if is_identifier(word) {
            Ok(word)
        } else {
            Err(self.wrong(n, U::Form))
        }
    }

    /// The number of the name in the space.
    pub(crate) fn number(&self, space: &Space<'a>, n: u32) -> Result<u32, Stop>
        requires { n < node_count self.now.nodes.now }
        ensures read { IfOk result (HasNumber space.now (node_at self.now.nodes.now n)) }
        ensures stops { IfErr result (λ stop. Stops stop (known_asked space.now (node_at self.now.nodes.now n))) }
    {
        let name = self.name(n)?;
        match space.number_of(name) {
            Some(number) => Ok(number),
            None => Err(self.wrong(n, U::UnknownName)),
        }
    }

    /// A name that the space doesn't have.
    ///
    /// # Errors
    ///
    /// Where the node is no name, or one that the space has.
    pub fn new_name(&self, space: &Space<'a>, n: u32) -> Result<&'a [u8], Stop>
        requires { n < node_count self.now.nodes.now }
        ensures read { IfOk result (λ w. IsNewName space.now (node_at self.now.nodes.now n) w.now) }
        ensures stops { IfErr result (λ stop. Stops stop (new_asked space.now (node_at self.now.nodes.now n))) }
    {
        let name = self.name(n)?;
        match space.number_of(name) {
            Some(_) => Err(self.wrong(n, U::NameTwice)),
            None => Ok(name),
        }
    }

    /// The first part of a list.
    ///
    /// # Errors
    ///
    /// Where the node is an atom.
    pub fn list(&self, n: u32) -> Result<Option<u32>, Stop>
        requires { n < node_count self.now.nodes.now }
        ensures there { IfOk result (IsThere self.now.nodes.now) }
        ensures read { IfOk result (λ first. node_at self.now.nodes.now n ≡ list (place (node_at self.now.nodes.now n)) (nodes_from self.now.nodes.now first)) }
        ensures stops { IfErr result (λ stop. Stops stop (list_asked (node_at self.now.nodes.now n))) }
    {
        if self.nodes.is_atom(n) {
            Err(self.wrong(n, U::Form))
        } else {
            Ok(self.nodes.first(n))
        }
    }

    /// The node, if it is the only one of its list from there on.
    pub(crate) fn one(&self, first: Option<u32>) -> Option<u32>
        requires { IsThere self.now.nodes.now first }
        ensures { AreOne self.now.nodes.now result (nodes_from self.now.nodes.now first) }
    {
        let n = first?;
        match self.nodes.next(n) {
            Some(_) => None,
            None => Some(n),
        }
    }

    /// The two nodes, if there are two.
    pub fn two(&self, first: Option<u32>) -> Option<(u32, u32)>
        requires { IsThere self.now.nodes.now first }
        ensures { AreTwo self.now.nodes.now result (nodes_from self.now.nodes.now first) }
    {
        let n = first?;
        let m = self.one(self.nodes.next(n))?;
        Some((n, m))
    }

    /// The three nodes, if there are three.
    pub fn three(&self, first: Option<u32>) -> Option<(u32, u32, u32)>
        requires { IsThere self.now.nodes.now first }
        ensures { AreThree self.now.nodes.now result (nodes_from self.now.nodes.now first) }
    {
        let n = first?;
        let (m, l) = self.two(self.nodes.next(n))?;
        Some((n, m, l))
    }

    /// The four nodes, if there are four.
    pub fn four(&self, first: Option<u32>) -> Option<(u32, u32, u32, u32)>
        requires { IsThere self.now.nodes.now first }
        ensures { AreFour self.now.nodes.now result (nodes_from self.now.nodes.now first) }
    {
        let n = first?;
        let (m, l, k) = self.three(self.nodes.next(n))?;
        Some((n, m, l, k))
    }

    /// The five nodes, if there are five.
    pub fn five(&self, first: Option<u32>) -> Option<(u32, u32, u32, u32, u32)>
        requires { IsThere self.now.nodes.now first }
        ensures { AreFive self.now.nodes.now result (nodes_from self.now.nodes.now first) }
    {
        let n = first?;
        let (m, l, k, j) = self.four(self.nodes.next(n))?;
        Some((n, m, l, k, j))
    }

    /// The six nodes, if there are six.
    pub fn six(&self, first: Option<u32>) -> Option<(u32, u32, u32, u32, u32, u32)>
        requires { IsThere self.now.nodes.now first }
        ensures { AreSix self.now.nodes.now result (nodes_from self.now.nodes.now first) }
    {
        let n = first?;
        let (m, l, k, j, i) = self.five(self.nodes.next(n))?;
        Some((n, m, l, k, j, i))
    }
}
