// Forms: what they ask for, and the expressions that they make of their operands.
ghost use Rattle.std.specs.Prelude.{◌≡◌, ◌↔◌, ◌+◌, [], IsTrue, IfSome, length, drop};
ghost use Rattle.mz_logic_theory.specs.View.{tree};
ghost use Rattle.mz_math_theory.specs.Notation.{above, places};
ghost use Rattle.mz_math_theory.specs.Listed.{slots as in_places};
ghost use Rattle.mz_math_theory.specs.Grammar.{items, level_before, last_level, notated_tree, head_level, applied};
ghost use Rattle.mz_math_theory.specs.FormulaAnswers.{MayLead};
ghost use Rattle.mz_math.specs.Steps.{IsNextPart, asked, tree_made, level_made, is_left_made};

use crate::permute::arranged;
use mz_lex::Bytes;
use mz_logic_theory::{Expr, Exprs};
use mz_math_theory::{ElementRef, Elements, MAX, Notation};
use std::alloc::Global;

/// A form that makes an expression of operands.
#[derive(Clone, Copy)]
pub enum Form<'w> {
    /// A term's name, before so many operands.
    Term(u32, usize),
    /// A notation that begins with a constant.
    Leading(&'w Notation),
    /// A notation that begins with an operand.
    Infix(&'w Notation),
}

/// What a form asks for next.
#[derive(Clone, Copy)]
pub enum Part<'w> {
    /// Nothing more.
    End,
    /// A constant.
    Constant(&'w Bytes),
    /// An operand of at least this precedence.
    Operand(u32),
}

impl<'w> Form<'w> {
    /// What stands in it behind so many parts.
    pub fn part(self, from: usize) -> Part<'w>
        ensures { IsNextPart result from (asked self.entry from) (asked self.entry (from + 1)) }
    {
        match self {
            Form::Term(_, many) => {
                if from < many {
                    Part::Operand(MAX)
                } else {
                    Part::End
                }
            }
            Form::Leading(notation) => part_of(notation, from, notation.level),
            Form::Infix(notation) => part_of(notation, from, level_of_last(notation)),
        }
    }

    /// The precedence of its expressions.
    pub fn level(self) -> u32
        ensures { result ≡ level_made self.entry }
    {
        match self {
            Form::Term(_, many) => applied_level(many),
            Form::Leading(notation) | Form::Infix(notation) => notation.level,
        }
    }

    /// Whether it's an infix form that groups to the left.
    pub fn is_left(self) -> bool
        ensures { result ≡ is_left_made self.entry }
    {
        match self {
            Form::Term(_, _) | Form::Leading(_) => false,
            Form::Infix(notation) => !notation.is_right,
        }
    }

    /// The expression that it makes, where there is memory.
    pub fn made(self, alloc: Global, operands: Exprs) -> Option<Expr>
        ensures { IfSome result (λ e. tree e ≡ tree_made self.entry operands) }
    {
        match self {
            Form::Term(term, _) => Some(Expr::app(term, operands)),
            Form::Leading(notation) | Form::Infix(notation) => notated(alloc, notation, operands),
        }
    }
}

/// The part of a notation behind so many; the last operand is of the precedence `last`.
fn part_of<'w>(notation: &'w Notation, from: usize, last: u32) -> Part<'w>
    ensures { IsNextPart result from (items (drop from notation.now.elements) last) (items (drop (from + 1) notation.now.elements) last) }
{
    let elements = &notation.elements;
    match elements.get(from) {
        None => Part::End,
        Some(ElementRef::Fixed(constant, _)) => Part::Constant(constant),
        Some(ElementRef::Slot(_)) => Part::Operand(operand_level(elements, from + 1, last)),
    }
}

/// The next precedence; none is above max.
fn above_level(level: u32) -> u32
    ensures { result ≡ above level }
{
    if level == MAX { MAX } else { level + 1 }
}

/// The precedence of the application of a term with so many parameters.
fn applied_level(many: usize) -> u32
    ensures { result ≡ head_level (applied [] 0 many) }
{
    if many == 0 { MAX } else { 1024 }
}

/// The precedence of a last operand.
fn level_of_last(notation: &Notation) -> u32
    ensures { result ≡ last_level notation.now }
{
    if notation.is_right {
        notation.level
    } else {
        above_level(notation.level)
    }
}

/// Whether a notation's first operand may be an expression of this precedence, made by an infix
/// form that groups to the left or not.
pub fn can_lead(notation: &Notation, level: u32, is_left: bool) -> bool
    ensures { IsTrue result ↔ MayLead notation.now level is_left }
{
    above_level(notation.level) <= level
        || (!notation.is_right && is_left && level == notation.level)
}

/// The precedence of an operand that stands before the elements from a place on.
fn operand_level(elements: &Elements, from: usize, last: u32) -> u32
    ensures { result ≡ level_before (drop from elements.now) last }
{
    match elements.get(from) {
        None => last,
        Some(ElementRef::Fixed(_, level)) => above_level(level),
        Some(ElementRef::Slot(_)) => MAX,
    }
}

/// The tree of a notation, of operands in the order of its elements.
fn notated(alloc: Global, notation: &Notation, operands: Exprs) -> Option<Expr>
    ensures { IfSome result (λ e. tree e ≡ notated_tree notation.now operands) }
{
    if let Some(many) = many_in_order(&notation.elements) {
        if many == operands.len() {
            return Some(Expr::app(notation.term, operands));
        }
    }
    let many = slots(&notation.elements);
    match arranged(alloc, &notation.elements, operands, many) {
        Err(_) => None,
        Ok(all) => Some(Expr::app(notation.term, all)),
    }
}

/// How many parameters stand there, if they stand in their own order.
fn many_in_order(elements: &Elements) -> Option<usize>
    ensures { IfSome result (λ n. places elements.now ≡ places (in_places 0 n)) }
{
    let mut at = 0;
    let mut next = 0;
    'elements: while let Some(element) = elements.get(at) {
        match element {
            ElementRef::Fixed(_, _) => {}
            ElementRef::Slot(slot) => {
                if slot != next {
                    return None;
                }
                next += 1;
            }
        }
        at += 1;
    }
    Some(next)
}

/// How many parameters stand there.
fn slots(elements: &Elements) -> usize
    ensures { result ≡ length (places elements.now) }
{
    let mut at = 0;
    let mut many = 0;
    'elements: while let Some(element) = elements.get(at) {
        match element {
            ElementRef::Fixed(_, _) => {}
            ElementRef::Slot(_) => many += 1,
        }
        at += 1;
    }
    many
}
