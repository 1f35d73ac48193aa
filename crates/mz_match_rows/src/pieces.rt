// Trees over a binary's terms by numbers: each is kept once, so that comparing two of them is comparing
// two numbers.
ghost use Rattle.std.specs.Prelude.{◌≡◌, ◌<◌, ◌++◌, ◌↔◌, [], ℕ, List, Some, IfSome, IsTrue, MatchOption, slice_get};
ghost use Rattle.mz_logic_theory.specs.Tree.{Tree, Trees};
ghost use Rattle.mz_spec_proved_theory.specs.AlphaTrees.{SameTree, SameTrees};
ghost use Rattle.mz_match_rows.specs.Numbers.{AreNumbered, IsNumbered};

use crate::publics::Publics;
use mz_logic_theory::{ExprRef, Operands, Shape};
use std::alloc::Global;
use std::collections::BTreeMap;
use std::marker::Model;

/// How a tree, or a list of trees, is made of those with smaller numbers.
#[derive(Clone, Copy, PartialEq, Eq, PartialOrd, Ord)]
pub enum Piece {
    Variable(u32),
    /// A term, and the list of its operands.
    Application(u32, usize),
    /// The list of no trees.
    Empty,
    /// A tree, and the list of those behind it.
    Listed(usize, usize),
}

/// Pieces by their numbers, each once.
#[derive(Drop)]
pub struct Pieces {
    items: Vec<Piece>,
    // what is found here is asked of the pieces, so that nothing need be known of the map
    numbers: BTreeMap<Piece, usize>,
    // by a number, that of the last piece of which it is the newest part: along a path of coercions each
    // is found here
    above: Vec<usize>,
    // where the list of no trees was last
    empty: usize,
}

impl Model for Pieces {
    ghost use Rattle.std.specs.Prelude.{List};
    ghost use Rattle.mz_match_rows.specs.declared.pieces.Piece.{Piece as ThePiece};

    ghost Value = { List ThePiece };

    ghost view = { λ p. p.items.items };
}

impl Pieces {
    /// No pieces.
    pub fn new(alloc: Global) -> Pieces
        ensures { result ≡ [] }
    {
        Pieces {
            items: Vec::new(alloc),
            numbers: BTreeMap::new(alloc),
            above: Vec::new(alloc),
            empty: 0,
        }
    }

    /// Enters the tree that the expression is over the binary's terms, and gives its number. None where a
    /// term has no partner there, or memory runs out.
    #[cycle(enter)]
    pub fn enter(&mut self, publics: &Publics, expr: &ExprRef) -> Option<usize>
        ensures grows { (more : List Piece) × (self.new ≡ self.old ++ more) }
        ensures number { IfSome result (λ i. (f : Tree) × SameTree publics.now expr.now f × IsNumbered self.new f i) }
    {
        match expr.shape() {
            Shape::Var(x) => self.number(Piece::Variable(x)),
            Shape::App(k, es) => {
                let Some(term) = publics.row(k) else {
                    return None;
                };
                let Some(operands) = self.enter_all(publics, &es) else {
                    return None;
                };
                self.number_of_application(term, operands)
            }
        }
    }

    /// Enters the list of the trees that the expressions are.
    #[cycle(enter)]
    fn enter_all(&mut self, publics: &Publics, exprs: &Operands) -> Option<usize>
        ensures grows { (more : List Piece) × (self.new ≡ self.old ++ more) }
        ensures number { IfSome result (λ i. (fs : Trees) × SameTrees publics.now exprs.now fs × AreNumbered self.new fs i) }
    {
        let Some(empty) = self.number_of_empty() else {
            return None;
        };
        let mut list = empty;
        let mut left = exprs.len();
        'exprs: while left > 0 {
            left -= 1;
            let Some(first) = self.enter(publics, &exprs.at(left)) else {
                return None;
            };
            let Some(more) = self.number_of_list(first, list) else {
                return None;
            };
            list = more;
        }
        Some(list)
    }

    fn number_of_empty(&mut self) -> Option<usize>
        ensures grows { (more : List Piece) × (self.new ≡ self.old ++ more) }
        ensures number { IfSome result (λ i. slice_get self.new i ≡ Some Piece.Empty) }
    {
        if self.is_empty_list(self.empty) {
            return Some(self.empty);
        }
        let Some(number) = self.number(Piece::Empty) else {
            return None;
        };
        self.empty = number;
        Some(number)
    }

    fn number_of_application(&mut self, term: u32, operands: usize) -> Option<usize>
        ensures grows { (more : List Piece) × (self.new ≡ self.old ++ more) }
        ensures number { IfSome result (λ i. (slice_get self.new i ≡ Some (Piece.Application term operands)) × (operands < i)) }
    {
        let Some(number) = self.number_over(operands, Piece::Application(term, operands)) else {
            return None;
        };
        // it always is, but nothing is said of the order of those that were there before
        if operands < number {
            Some(number)
        } else {
            None
        }
    }

    fn number_of_list(&mut self, first: usize, rest: usize) -> Option<usize>
        ensures grows { (more : List Piece) × (self.new ≡ self.old ++ more) }
        ensures number { IfSome result (λ i. (slice_get self.new i ≡ Some (Piece.Listed first rest)) × (first < i) × (rest < i)) }
    {
        let newest = if first < rest { rest } else { first };
        let Some(number) = self.number_over(newest, Piece::Listed(first, rest)) else {
            return None;
        };
        if first < number && rest < number {
            Some(number)
        } else {
            None
        }
    }

    /// The number of a piece of which this is the newest part.
    fn number_over(&mut self, part: usize, piece: Piece) -> Option<usize>
        ensures grows { (more : List Piece) × (self.new ≡ self.old ++ more) }
        ensures number { IfSome result (λ i. slice_get self.new i ≡ Some piece) }
    {
        if let Some(number) = self.find_above(part, piece) {
            return Some(number);
        }
        let Some(number) = self.number(piece) else {
            return None;
        };
        self.note(part, number);
        Some(number)
    }

    /// The piece's number, where it is the last one made of this part.
    fn find_above(&self, part: usize, piece: Piece) -> Option<usize>
        ensures { IfSome result (λ i. slice_get self.now i ≡ Some piece) }
    {
        let Some(number) = self.above.get(part).copied() else {
            return None;
        };
        self.found_at(number, piece)
    }

    /// Notes the last piece made of a part, where there is room for it.
    fn note(&mut self, part: usize, number: usize)
        ensures { self.new ≡ self.old }
    {
        if part < self.above.len() {
            self.above[part] = number;
        }
    }

    /// The piece's number: the one that it has already, or a new one. None where memory runs out.
    fn number(&mut self, piece: Piece) -> Option<usize>
        ensures grows { (more : List Piece) × (self.new ≡ self.old ++ more) }
        ensures number { IfSome result (λ i. slice_get self.new i ≡ Some piece) }
    {
        if let Some(number) = self.find(piece) {
            return Some(number);
        }
        let number = self.items.len();
        let Ok(()) = self.items.push(piece) else {
            return None;
        };
        // where these fail the piece is put in again when it is met
        let _ = self.numbers.insert(piece, number);
        let _ = self.above.push(0);
        Some(number)
    }

    fn find(&self, piece: Piece) -> Option<usize>
        ensures { IfSome result (λ i. slice_get self.now i ≡ Some piece) }
    {
        let Some(number) = self.numbers.get(&piece).copied() else {
            return None;
        };
        self.found_at(number, piece)
    }

    /// The number, where it is the piece's.
    fn found_at(&self, number: usize, piece: Piece) -> Option<usize>
        ensures { IfSome result (λ i. slice_get self.now i ≡ Some piece) }
    {
        let Some(found) = self.items.get(number).copied() else {
            return None;
        };
        if found == piece { Some(number) } else { None }
    }

    /// Whether the number is this variable's.
    pub fn is_variable(&self, number: usize, x: u32) -> bool
        ensures { IsTrue result ↔ (slice_get self.now number ≡ Some (Piece.Variable x)) }
    {
        match self.items.get(number).copied() {
            Some(Piece::Variable(y)) => x == y,
            _ => false,
        }
    }

    /// The list of the operands, where the number is an application's of this term.
    pub fn operands(&self, number: usize, term: u32) -> Option<usize>
        ensures { MatchOption result ((j : ℕ) → slice_get self.now number ≡ Some (Piece.Application term j) → ⊥) (λ j. slice_get self.now number ≡ Some (Piece.Application term j)) }
    {
        match self.items.get(number).copied() {
            Some(Piece::Application(t, list)) => { if t == term { Some(list) } else { None } }
            _ => None,
        }
    }

    /// Whether the number is that of the list of no trees.
    pub fn is_empty_list(&self, number: usize) -> bool
        ensures { IsTrue result ↔ (slice_get self.now number ≡ Some Piece.Empty) }
    {
        matches!(self.items.get(number).copied(), Some(Piece::Empty))
    }

    /// The first tree of a list, and the list of those behind it.
    pub fn first_and_rest(&self, number: usize) -> Option<(usize, usize)>
        ensures { MatchOption result ((j k : ℕ) → slice_get self.now number ≡ Some (Piece.Listed j k) → ⊥) (λ pair. slice_get self.now number ≡ Some (Piece.Listed pair.0 pair.1)) }
    {
        match self.items.get(number).copied() {
            Some(Piece::Listed(first, rest)) => Some((first, rest)),
            _ => None,
        }
    }
}
