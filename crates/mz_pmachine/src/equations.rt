//! Equations that Cong has opened, whose obligations are written out one by one.
ghost use Rattle.std.specs.Prelude.{ℕ, ◌≡◌, ◌<◌, ◌≤◌, ◌+◌, ◌++◌, ◌∷◌, ◌↔◌, [], ⊤, List, IsTrue, MatchResult, OnOk, Some, length, reverse, slice_get, vec_len, vec_capacity};
ghost use Rattle.mz_cmd.specs.declared.code.ProofCode.TheVariants as code;
ghost use Rattle.mz_store.specs.declared.item.Id.{Id};
ghost use Rattle.mz_store.specs.declared.item.Item.{Item as Kept};
ghost use Rattle.mz_machine_theory.specs.Profile.{Item as UnifyItem};
ghost use Rattle.mz_unify.specs.Rows.{StopsBy};
ghost use Rattle.mz_machine_theory.specs.MachineState.{RowsBefore};
ghost use Rattle.mz_machine_theory.specs.ProofMachine.{proof_step};
ghost use Rattle.mz_machine.specs.OverStore.{Gives};
ghost use Rattle.mz_machine.specs.OpenEquations.{IsBarrier, IsOpen, AllOpen, AreOpen, AreSettled, whole_stack, opened_on, to_come, after, many_at, many_to_come};
ghost use Rattle.mz_pmachine_theory.specs.NodeIdentity.{Numbered, portable};
ghost use Rattle.mz_pmachine_unify.specs.Numbering.{IsIn};
ghost use Rattle.mz_pmachine_unify.specs.Stored.{items_at, item_at, AreItemsIn, IsItemIn};
ghost use Rattle.mz_pmachine.specs.OpenNodes.{of_nodes, whole_state};

use crate::commands::conversions::cong;
use mz_machine::Equation;
use mz_pmachine_unify::Nodes;
use mz_store::{Id, Item};
use mz_unify::{Stop, push};

/// Opens the equation of the obligation on top, as Cong does, and writes out the obligation that is then
/// in hand.
pub(crate) fn open_equation(
    nodes: &Nodes,
    stack: &mut Vec<Item>,
    equations: &mut Vec<Equation>,
) -> Result<(), Stop>
    requires stack { AreItemsIn nodes.now stack.old.items }
    requires settled { AreSettled (of_nodes nodes.now) (reverse equations.old.items) (items_at nodes.now stack.old.items) }
    ensures done { OnOk result (AreItemsIn nodes.now stack.new.items × AreSettled (of_nodes nodes.now) (reverse equations.new.items) (items_at nodes.now stack.new.items)) }
    ensures row { (tables : RowsBefore) (at n : ℕ) (heap : List Kept) (hyps : List Id) → Gives (proof_step portable tables at code.Cong n (whole_state nodes.now heap equations.old.items stack.old.items hyps)) result (λ _. whole_state nodes.now heap equations.new.items stack.new.items hyps) }
{
    let (left, right) = match cong(nodes, stack) {
        Ok(sides) => sides,
        Err(rule) => return Err(Stop::Rule(rule)),
    };
    match begin(nodes, stack, equations, left, right) {
        Ok(()) => settle(nodes, stack, equations),
        Err(stop) => Err(stop),
    }
}

/// Begins the equation between two applications of one term on all that stands on the stack.
fn begin(
    nodes: &Nodes,
    stack: &[Item],
    equations: &mut Vec<Equation>,
    left: Id,
    right: Id,
) -> Result<(), Stop>
    requires left { IsIn nodes.now left.0 }
    requires right { IsIn nodes.now right.0 }
    requires standing { AreOpen (of_nodes nodes.now) (reverse equations.old.items) (items_at nodes.now stack.now) }
    ensures done { OnOk result (AreOpen (of_nodes nodes.now) (reverse equations.new.items) (items_at nodes.now stack.now) × (whole_stack (of_nodes nodes.now) (reverse equations.new.items) (items_at nodes.now stack.now) ≡ opened_on (of_nodes nodes.now) (Some (left, right)) (whole_stack (of_nodes nodes.now) (reverse equations.old.items) (items_at nodes.now stack.now)))) }
    ensures err { MatchResult result (λ _. ⊤) (λ stop. StopsBy stop (λ _. ⊥)) }
{
    if many_between(nodes, left, right) == 0 {
        return Ok(());
    }
    let height = stack.len();
    push(
        equations,
        Equation {
            height,
            left,
            right,
            next: 0,
        },
    )
}

/// Writes out the next obligation of the last equation, where the one in hand is paid.
pub(crate) fn settle(
    nodes: &Nodes,
    stack: &mut Vec<Item>,
    equations: &mut Vec<Equation>,
) -> Result<(), Stop>
    requires stack { AreItemsIn nodes.now stack.old.items }
    requires standing { AreOpen (of_nodes nodes.now) (reverse equations.old.items) (items_at nodes.now stack.old.items) }
    ensures done { OnOk result (AreItemsIn nodes.now stack.new.items × AreSettled (of_nodes nodes.now) (reverse equations.new.items) (items_at nodes.now stack.new.items) × (whole_stack (of_nodes nodes.now) (reverse equations.new.items) (items_at nodes.now stack.new.items) ≡ whole_stack (of_nodes nodes.now) (reverse equations.old.items) (items_at nodes.now stack.old.items))) }
    ensures err { MatchResult result (λ _. ⊤) (λ stop. StopsBy stop (λ _. ⊥)) }
{
    let Some(equation) = equations.pop() else {
        return Ok(());
    };
    if equation.height < stack.len() {
        return push(equations, equation);
    }
    let many = many_between(nodes, equation.left, equation.right);
    let item = side_in_hand(nodes, equation);
    let next = equation.next + 1;
    if next < many {
        keep(equations, following(equation, next));
    }
    push(stack, item)
}

/// Puts an equation at the end, where there is room.
fn keep(equations: &mut Vec<Equation>, equation: Equation)
    requires scratch { vec_len equations.old < vec_capacity equations.old }
    ensures { equations.new.items ≡ equations.old.items ++ equation ∷ [] }
{
    let Ok(()) = equations.push(equation) else {
        unreachable!();
    };
}

/// The equation whose next obligation is the one at a place.
fn following(equation: Equation, next: usize) -> Equation
    requires { next ≡ equation.next + 1 }
    ensures { result ≡ after equation }
{
    Equation {
        height: equation.height,
        left: equation.left,
        right: equation.right,
        next,
    }
}

/// The next obligation of an equation.
fn side_in_hand(nodes: &Nodes, equation: Equation) -> Item
    requires { IsOpen (of_nodes nodes.now) equation }
    ensures ids { IsItemIn nodes.now result }
    ensures barrier { IsBarrier (item_at nodes.now result) }
    ensures side { (xs : List (UnifyItem Numbered)) → to_come (of_nodes nodes.now) equation xs ≡ item_at nodes.now result ∷ to_come (of_nodes nodes.now) (after equation) xs }
{
    let left = id_at(nodes.args(equation.left), equation.next);
    let right = id_at(nodes.args(equation.right), equation.next);
    Item::Obligation(left, right)
}

/// The id at a place.
fn id_at(ids: &[Id], place: usize) -> Id
    requires { place < length ids.now }
    ensures { slice_get ids.now place ≡ Some result }
{
    ids[place]
}

/// How many obligations are between the operands of two expressions.
fn many_between(nodes: &Nodes, left: Id, right: Id) -> usize
    requires left { IsIn nodes.now left.0 }
    requires right { IsIn nodes.now right.0 }
    ensures { result ≡ many_at (of_nodes nodes.now) left right }
{
    let lefts = nodes.args(left).len();
    let rights = nodes.args(right).len();
    lefts.min(rights)
}

/// Whether at least so many obligations are still to come.
pub(crate) fn reach(nodes: &Nodes, equations: &[Equation], many: usize) -> bool
    requires { AllOpen (of_nodes nodes.now) equations.now }
    ensures { IsTrue result ↔ (many ≤ many_to_come (of_nodes nodes.now) equations.now) }
{
    let mut short = many;
    'equations: for equation in equations {
        let rest = rest_of(nodes, *equation);
        if short <= rest {
            return true;
        }
        short -= rest;
    }
    short == 0
}

/// How many obligations of an equation are still to come.
fn rest_of(nodes: &Nodes, equation: Equation) -> usize
    requires { IsOpen (of_nodes nodes.now) equation }
    ensures { result ≡ length (to_come (of_nodes nodes.now) equation []) }
{
    many_between(nodes, equation.left, equation.right) - equation.next
}
