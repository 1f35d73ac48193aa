//! Equations that Cong has opened, whose obligations are written out one by one.
ghost use Rattle.std.specs.Prelude.{◌≡◌, ◌<◌, ◌≤◌, ◌+◌, ◌++◌, ◌∷◌, ◌↔◌, [], None, List, IfSome, IsTrue, MatchResult, Some, length, slice_get, reverse, vec_len, vec_capacity};
ghost use Rattle.mz_store.specs.Sharing.{IsIn};
ghost use Rattle.mz_logic_theory.specs.Tree.{Tree};
ghost use Rattle.mz_machine_theory.specs.Profile.{Item as UnifyItem};
ghost use Rattle.mz_unify.specs.Stored.{items_at, item_at, AreItemsIn, IsItemIn};
ghost use Rattle.mz_machine.specs.Executing.{WantsUnless};
ghost use Rattle.mz_machine.specs.OpenEquations.{stored, IsBarrier, IsOpen, AllOpen, AreOpen, AreSettled, IsInHand, whole_stack, opened_on, to_come, after, many_at, many_to_come};

use mz_store::{Id, Item, Store};
use mz_unify::{Stop, push};

/// Two applications of one term. The obligations between their operands from `next` on are still to come,
/// on a stack of so many items.
#[derive(Clone, Copy)]
pub struct Equation {
    pub height: usize,
    pub left: Id,
    pub right: Id,
    pub next: usize,
}

/// Begins an equation, if one was opened, and writes out the obligation that is then in hand.
#[inline(always)]
pub(crate) fn resume(
    store: &Store,
    stack: &mut Vec<Item>,
    equations: &mut Vec<Equation>,
    opened: Option<(Id, Id)>,
) -> Result<(), Stop>
    requires sides { IfSome opened (λ e. IsIn store.now e.0.0 × IsIn store.now e.1.0) }
    requires stack { AreItemsIn store.now stack.old.items }
    requires standing { AreOpen (stored store.now) (reverse equations.old.items) (items_at store.now stack.old.items) }
    ensures { MatchResult result (λ _. AreItemsIn store.now stack.new.items × AreSettled (stored store.now) (reverse equations.new.items) (items_at store.now stack.new.items) × (whole_stack (stored store.now) (reverse equations.new.items) (items_at store.now stack.new.items) ≡ opened_on (stored store.now) opened (whole_stack (stored store.now) (reverse equations.old.items) (items_at store.now stack.old.items)))) (WantsUnless ((opened ≡ None) × IsInHand (reverse equations.old.items) (vec_capacity stack.old))) }
{
    match begin(store, stack, equations, opened) {
        Ok(()) => settle(store, stack, equations),
        Err(stop) => Err(stop),
    }
}

/// Begins an equation, if there is one, on all that stands on the stack.
#[inline(always)]
fn begin(
    store: &Store,
    stack: &[Item],
    equations: &mut Vec<Equation>,
    opened: Option<(Id, Id)>,
) -> Result<(), Stop>
    requires sides { IfSome opened (λ e. IsIn store.now e.0.0 × IsIn store.now e.1.0) }
    requires standing { AreOpen (stored store.now) (reverse equations.old.items) (items_at store.now stack.now) }
    ensures { MatchResult result (λ _. AreOpen (stored store.now) (reverse equations.new.items) (items_at store.now stack.now) × (whole_stack (stored store.now) (reverse equations.new.items) (items_at store.now stack.now) ≡ opened_on (stored store.now) opened (whole_stack (stored store.now) (reverse equations.old.items) (items_at store.now stack.now))) × (opened ≡ None → equations.new.items ≡ equations.old.items)) (WantsUnless (opened ≡ None)) }
{
    let Some((left, right)) = opened else {
        return Ok(());
    };
    if many_between(store, left, right) == 0 {
        return Ok(());
    }
    let height = stack.len();
    push(
        equations,
        Equation {
            height,
            left,
            right,
            next: 0,
        },
    )
}

/// Writes out the next obligation of the last equation, where the one in hand is paid.
#[inline(always)]
fn settle(store: &Store, stack: &mut Vec<Item>, equations: &mut Vec<Equation>) -> Result<(), Stop>
    requires stack { AreItemsIn store.now stack.old.items }
    requires standing { AreOpen (stored store.now) (reverse equations.old.items) (items_at store.now stack.old.items) }
    ensures { MatchResult result (λ _. AreItemsIn store.now stack.new.items × AreSettled (stored store.now) (reverse equations.new.items) (items_at store.now stack.new.items) × (whole_stack (stored store.now) (reverse equations.new.items) (items_at store.now stack.new.items) ≡ whole_stack (stored store.now) (reverse equations.old.items) (items_at store.now stack.old.items))) (WantsUnless (IsInHand (reverse equations.old.items) (vec_capacity stack.old))) }
{
    let Some(equation) = equations.pop() else {
        return Ok(());
    };
    if equation.height < stack.len() {
        keep(equations, equation);
        return Ok(());
    }
    let many = many_between(store, equation.left, equation.right);
    let item = side_in_hand(store, equation);
    let next = equation.next + 1;
    if next < many {
        keep(equations, following(equation, next));
    }
    match stack.push(item) {
        Ok(()) => Ok(()),
        Err(_) => Err(Stop::Mem),
    }
}

/// Puts an equation at the end, where there is room.
fn keep(equations: &mut Vec<Equation>, equation: Equation)
    requires scratch { vec_len equations.old < vec_capacity equations.old }
    ensures { equations.new.items ≡ equations.old.items ++ equation ∷ [] }
{
    let Ok(()) = equations.push(equation) else {
        unreachable!();
    };
}

/// The equation whose next obligation is the one at a place.
fn following(equation: Equation, next: usize) -> Equation
    requires { next ≡ equation.next + 1 }
    ensures { result ≡ after equation }
{
    Equation {
        height: equation.height,
        left: equation.left,
        right: equation.right,
        next,
    }
}

/// The next obligation of an equation.
fn side_in_hand(store: &Store, equation: Equation) -> Item
    requires { IsOpen (stored store.now) equation }
    ensures ids { IsItemIn store.now result }
    ensures barrier { IsBarrier (item_at store.now result) }
    ensures side { (xs : List (UnifyItem Tree)) → to_come (stored store.now) equation xs ≡ item_at store.now result ∷ to_come (stored store.now) (after equation) xs }
{
    let left = id_at(store.args(equation.left), equation.next);
    let right = id_at(store.args(equation.right), equation.next);
    Item::Obligation(left, right)
}

/// The id at a place.
fn id_at(ids: &[Id], place: usize) -> Id
    requires { place < length ids.now }
    ensures { slice_get ids.now place ≡ Some result }
{
    ids[place]
}

/// How many obligations are between the operands of two expressions.
fn many_between(store: &Store, left: Id, right: Id) -> usize
    requires left { IsIn store.now left.0 }
    requires right { IsIn store.now right.0 }
    ensures { result ≡ many_at (stored store.now) left right }
{
    let lefts = store.args(left).len();
    let rights = store.args(right).len();
    lefts.min(rights)
}

/// Whether at least so many obligations are still to come.
pub(crate) fn reach(store: &Store, equations: &[Equation], many: usize) -> bool
    requires { AllOpen (stored store.now) equations.now }
    ensures { IsTrue result ↔ (many ≤ many_to_come (stored store.now) equations.now) }
{
    let mut short = many;
    'equations: for equation in equations {
        let rest = rest_of(store, *equation);
        if short <= rest {
            return true;
        }
        short -= rest;
    }
    short == 0
}

/// How many obligations of an equation are still to come.
fn rest_of(store: &Store, equation: Equation) -> usize
    requires { IsOpen (stored store.now) equation }
    ensures { result ≡ length (to_come (stored store.now) equation []) }
{
    many_between(store, equation.left, equation.right) - equation.next
}
