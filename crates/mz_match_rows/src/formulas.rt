// Formulas that hypotheses have in common, by numbers.
ghost use Rattle.std.specs.Prelude.{◌≡◌, ◌≤◌, ◌<◌, ◌-◌, ◌++◌, [], ℕ, List, Some, length, slice_get};
ghost use Rattle.mz_logic_theory.specs.Tree.{Tree, listed};
ghost use Rattle.mz_match_rows.specs.Numbers.{HasNumber};
ghost use Rattle.mz_match_rows.specs.declared.pieces.Piece.{Piece as ThePiece};

use crate::by_number::Said;
use crate::pieces::Pieces;
use crate::publics::Publics;
use mz_logic_theory::Hyps;
use std::alloc::Global;

/// What is kept from one hypothesis of an assertion to the next.
#[derive(Drop)]
pub struct Formulas {
    pub pieces: Pieces,
    pub said: Said,
    /// The number of the formula in hand, once a second hypothesis has it.
    pub number: Option<usize>,
}

impl Formulas {
    /// Before the first one.
    pub fn new(alloc: Global) -> Formulas
        ensures pieces { result.pieces ≡ [] }
        ensures said { result.said ≡ [] }
        ensures number { result.number ≡ None }
    {
        Formulas {
            pieces: Pieces::new(alloc),
            said: Said::new(alloc),
            number: None,
        }
    }

    /// Goes on from the i-th hypothesis to the one before. If both have one formula, gives its number,
    /// unless a term has no partner or memory runs out.
    pub fn go_on(&mut self, publics: &Publics, hyps: &Hyps, i: usize) -> Option<usize>
        requires some { 0 < i }
        requires there { i ≤ length (listed hyps.now) }
        requires number { (e : Tree) → slice_get (listed hyps.now) i ≡ Some e → HasNumber publics.now self.old e }
        ensures grows { (more : List ThePiece) × (self.new.pieces ≡ self.old.pieces ++ more) }
        ensures said { self.new.said ≡ self.old.said }
        ensures number { (e : Tree) → slice_get (listed hyps.now) (i - 1) ≡ Some e → HasNumber publics.now self.new e }
        ensures kept { result ≡ self.new.number }
    {
        // Where each formula is of one hypothesis, no two share one.
        let are_disjoint = hyps.formulas().len() == hyps.len();
        if are_disjoint || !hyps.shares_with_previous(i) {
            self.number = None;
            return None;
        }
        if let Some(number) = self.number {
            return Some(number);
        }
        let number = self.pieces.enter(publics, &hyps.at(i - 1).borrowed());
        self.number = number;
        number
    }
}
