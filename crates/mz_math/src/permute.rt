// Operands in the order of their parameters, where a notation has them in another one.
ghost use Rattle.std.specs.Prelude.{◌≡◌, ◌<◌, ◌==◌, ℕ, None, Some, IfOk, get_or, if◌then◌else◌, length};
ghost use Rattle.mz_logic_theory.specs.Tree.{app, none, operand as operand_at};
ghost use Rattle.mz_logic_theory.specs.View.{tree, trees};
ghost use Rattle.mz_math.specs.Arrange.{AreDistinct, earlier_or, first_of, picked, picked_one};
ghost use Rattle.mz_math_theory.specs.Grammar.{arranged as in_order};
ghost use Rattle.mz_math_theory.specs.Notation.{places};

use mz_logic_theory::{Expr, Exprs};
use mz_math_theory::{ElementRef, Elements};
use std::alloc::{AllocError, Global};
use std::mem;

/// The operands of so many parameters, in their order. None is copied.
///
/// # Errors
///
/// Where there is no memory.
pub fn arranged(
    alloc: Global,
    elements: &Elements,
    operands: Exprs,
    many: usize,
) -> Result<Exprs, AllocError>
    ensures { IfOk result (λ es. es ≡ in_order (places elements.now) operands 0 many) }
{
    let order = order_of(alloc, elements, many)?;
    let mut items = operands.into_vec();
    picked_in_order(alloc, &mut items, &order)
}

/// For each of so many parameters, which of the operands is the first one for it.
fn order_of(
    alloc: Global,
    elements: &Elements,
    many: usize,
) -> Result<Vec<Option<usize>>, AllocError>
    ensures many { IfOk result (λ order. length order.items ≡ many) }
    ensures firsts { IfOk result (λ order. (i : ℕ) → i < many → get_or order.items i None ≡ first_of (places elements.now) i) }
{
    let mut order: Vec<Option<usize>> = vec![in alloc; None; many]?;
    note_order(&mut order, elements);
    Ok(order)
}

/// Notes for each parameter which of the operands is the first one for it.
fn note_order(order: &mut [Option<usize>], elements: &Elements)
    requires { (i : ℕ) → get_or order.old i None ≡ None }
    ensures many { length order.new ≡ length order.old }
    ensures firsts { (i : ℕ) → i < length order.old → get_or order.new i None ≡ first_of (places elements.now) i }
{
    let mut at = 0;
    let mut next = 0;
    'elements: while let Some(element) = elements.get(at) {
        match element {
            ElementRef::Fixed(_, _) => {}
            ElementRef::Slot(slot) => {
                note_first(order, slot, next);
                next += 1;
            }
        }
        at += 1;
    }
}

/// Notes an operand for a parameter, if there is none for it yet.
fn note_first(order: &mut [Option<usize>], place: usize, at: usize)
    ensures many { length order.new ≡ length order.old }
    ensures noted { (i : ℕ) → i < length order.old → get_or order.new i None ≡ (if place == i then Some (earlier_or (get_or order.old i None) at) else get_or order.old i None) }
{
    if place >= order.len() {
        return;
    }
    if order[place].is_none() {
        order[place] = Some(at);
    }
}

/// The operands at these places, each of which is reported once at most.
fn picked_in_order(
    alloc: Global,
    operands: &mut [Expr],
    order: &[Option<usize>],
) -> Result<Exprs, AllocError>
    requires { AreDistinct order.now }
    ensures { IfOk result (λ es. es ≡ picked (trees operands.old) order.now) }
{
    let mut all = Exprs::with_capacity(alloc, order.len())?;
    for at in order {
        let operand = taken(alloc, operands, *at);
        all.push(operand)?;
    }
    Ok(all)
}

/// Takes the operand at a place, if there is one.
fn taken(alloc: Global, operands: &mut [Expr], at: Option<usize>) -> Expr
    ensures is { tree result ≡ picked_one (trees operands.old) at }
    ensures kept { (k : ℕ) → (at ≡ Some k → ⊥) → operand_at (trees operands.new) k ≡ operand_at (trees operands.old) k }
{
    match at {
        None => absent(alloc),
        Some(k) => taken_at(alloc, operands, k),
    }
}

/// Takes the operand at the place, and leaves what stands for one that isn't there.
fn taken_at(alloc: Global, operands: &mut [Expr], k: usize) -> Expr
    ensures is { tree result ≡ operand_at (trees operands.old) k }
    ensures kept { (j : ℕ) → (j ≡ k → ⊥) → operand_at (trees operands.new) j ≡ operand_at (trees operands.old) j }
{
    if k >= operands.len() {
        return absent(alloc);
    }
    mem::replace(&mut operands[k], absent(alloc))
}

/// What stands for an operand that isn't there.
fn absent(alloc: Global) -> Expr
    ensures { tree result ≡ app 0 none }
{
    Expr::app(0, Exprs::new(alloc))
}
