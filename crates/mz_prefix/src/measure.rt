// Whether the prefix form of an expression is within the limits of a math string.
ghost use Rattle.std.specs.Prelude.{◌≡◌, ◌<◌, ◌≤◌, ◌+◌, ◌↔◌, IsTrue, MatchOption};
ghost use Rattle.mz_math_theory.specs.Meaning.{height, trees_height};
ghost use Rattle.mz_prefix.specs.NamedDeclarations.{Vocabulary};
ghost use Rattle.mz_prefix.specs.Wording;
ghost use Rattle.mz_prefix.specs.Measures.{operand_count, parentheses, token_count};

use crate::tokens::has_operands;
use mz_logic_theory::{ExprRef, Operands, Shape};

/// A math string has at most so many tokens, and what it says is at most so high.
const MOST: u32 = 4096;

/// Whether the expression is at most so high.
#[cycle(is_low)]
fn is_low(expr: &ExprRef, most: u32) -> bool
    ensures { IsTrue result ↔ (height expr.now ≤ most) }
{
    match expr.shape() {
        Shape::Var(_) => most > 0,
        Shape::App(_, es) => most > 0 && are_low(&es, most - 1),
    }
}

/// Whether each of the expressions is.
#[cycle(is_low)]
fn are_low(es: &Operands, most: u32) -> bool
    ensures { IsTrue result ↔ (trees_height es.now ≤ most) }
{
    for i in 0..es.len() {
        if !is_low(&es.at(i), most) {
            return false;
        }
    }
    true
}

/// For how many tokens there is room behind those of the expression, if there is room for these.
#[cycle(room_after)]
fn room_after(expr: &ExprRef, room: u32) -> Option<u32>
    ensures { MatchOption result (room < token_count expr.now) (λ left. left + token_count expr.now ≡ room) }
{
    match expr.shape() {
        Shape::Var(_) => room.checked_sub(1),
        Shape::App(_, es) => {
            let left = room.checked_sub(1)?;
            room_after_operands(&es, left)
        }
    }
}

/// The same of operands.
#[cycle(room_after)]
fn room_after_operands(es: &Operands, room: u32) -> Option<u32>
    ensures { MatchOption result (room < operand_count es.now) (λ left. left + operand_count es.now ≡ room) }
{
    let mut left = room;
    for i in 0..es.len() {
        left = room_after_operand(&es.at(i), left)?;
    }
    Some(left)
}

/// The same of an operand, which may stand in parentheses.
#[cycle(room_after)]
fn room_after_operand(expr: &ExprRef, room: u32) -> Option<u32>
    ensures { MatchOption result (room < parentheses expr.now + token_count expr.now) (λ left. left + (parentheses expr.now + token_count expr.now) ≡ room) }
{
    let round = if has_operands(expr) { 2 } else { 0 };
    let left = room.checked_sub(round)?;
    room_after(expr, left)
}

/// Whether the prefix form is within the limits, with whatever names.
pub(crate) fn is_short(expr: &ExprRef) -> bool
    ensures { (v : Vocabulary) → result ≡ Wording.is_short v expr.now }
{
    is_low(expr, MOST) && room_after(expr, MOST).is_some()
}
