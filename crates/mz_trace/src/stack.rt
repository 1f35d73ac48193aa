//! What a command takes from the stack, whose top is its last entry. As the body runs, it is there.
ghost use Rattle.std.specs.Prelude.{ℕ, ◌≡◌, ◌++◌, ◌∷◌, [], List, IfOk, OnOk, IfSome, IfNone, Some, slice_get, length, map, reverse};
ghost use Rattle.mz_trace.specs.Entries.{IsKept, HasHeld, HasConversion, HasExpr, HasProof, HasOwed, HasSides, HasExprs, HasProofs, exprs_onto, proofs_onto, TookSides, TookProofs};
ghost use Rattle.mz_trace.specs.declared.entry.Item.TheVariants.{Expr, Proof, Conversion};
ghost use Rattle.mz_trace.specs.declared.entry.Entry.TheVariants.{Held, Owed};

use crate::entry::{Entry, Item};
use std::alloc::{AllocError, Global};

/// Puts an entry on top.
pub(crate) fn push(stack: &mut Vec<Entry>, entry: Entry) -> Result<(), AllocError>
    ensures { OnOk result (reverse stack.new.items ≡ entry ∷ reverse stack.old.items) }
{
    stack.push(entry)?;
    Ok(())
}

/// Keeps an item in the heap.
pub(crate) fn keep(heap: &mut Vec<Item>, item: Item) -> Result<(), AllocError>
    ensures { OnOk result (heap.new.items ≡ heap.old.items ++ item ∷ []) }
{
    heap.push(item)?;
    Ok(())
}

/// The item at a place of the heap.
pub(crate) fn kept(heap: &[Item], place: u32) -> Item
    requires { IsKept heap.now place }
    ensures { slice_get heap.now place ≡ Some result }
{
    match heap.get(place as usize) {
        Some(item) => *item,
        None => unreachable!(),
    }
}

/// Takes an expression.
pub(crate) fn pop_expr(stack: &mut Vec<Entry>) -> u32
    requires { HasExpr (reverse stack.old.items) }
    ensures { reverse stack.old.items ≡ Held (Expr result) ∷ reverse stack.new.items }
{
    match stack.pop() {
        Some(Entry::Held(Item::Expr(n))) => n,
        _ => unreachable!(),
    }
}

/// Takes an expression and its proof.
pub(crate) fn pop_proof(stack: &mut Vec<Entry>) -> (u32, u32)
    requires { HasProof (reverse stack.old.items) }
    ensures { reverse stack.old.items ≡ Held (Proof result.0 result.1) ∷ reverse stack.new.items }
{
    match stack.pop() {
        Some(Entry::Held(Item::Proof(claim, proof))) => (claim, proof),
        _ => unreachable!(),
    }
}

/// Takes an item.
pub(crate) fn pop_held(stack: &mut Vec<Entry>) -> Item
    requires { HasHeld (reverse stack.old.items) }
    ensures { reverse stack.old.items ≡ Held result ∷ reverse stack.new.items }
{
    match stack.pop() {
        Some(Entry::Held(item)) => item,
        _ => unreachable!(),
    }
}

/// Takes a conversion.
pub(crate) fn pop_conversion(stack: &mut Vec<Entry>) -> (u32, u32, u32)
    requires { HasConversion (reverse stack.old.items) }
    ensures { reverse stack.old.items ≡ Held (Conversion result.0 result.1 result.2) ∷ reverse stack.new.items }
{
    match stack.pop() {
        Some(Entry::Held(Item::Conversion(left, right, tree))) => (left, right, tree),
        _ => unreachable!(),
    }
}

/// Takes what is owed: a conversion from the first expression to the second.
pub(crate) fn pop_owed(stack: &mut Vec<Entry>) -> (u32, u32)
    requires { HasOwed (reverse stack.old.items) }
    ensures { reverse stack.old.items ≡ Owed result.0 result.1 ∷ reverse stack.new.items }
{
    match stack.pop() {
        Some(Entry::Owed(left, right)) => (left, right),
        _ => unreachable!(),
    }
}

/// The same, perhaps from below the left side once more.
pub(crate) fn pop_sides(stack: &mut Vec<Entry>) -> (u32, u32)
    requires { HasSides (reverse stack.old.items) }
    ensures { TookSides (reverse stack.old.items) result.0 result.1 (reverse stack.new.items) }
{
    match stack.pop() {
        Some(Entry::Held(Item::Expr(_))) => pop_owed(stack),
        Some(Entry::Owed(left, right)) => (left, right),
        _ => unreachable!(),
    }
}

/// Takes so many expressions, of which the last is on top.
pub(crate) fn pop_exprs(
    alloc: Global,
    count: u32,
    stack: &mut Vec<Entry>,
) -> Result<Vec<u32>, AllocError>
    requires { HasExprs count (reverse stack.old.items) }
    ensures taken { IfOk result (λ ns. reverse stack.old.items ≡ exprs_onto (reverse ns.items) (reverse stack.new.items)) }
    ensures many { IfOk result (λ ns. length ns.items ≡ count) }
{
    let mut taken = Vec::new(alloc);
    'operands: for i in 0..count {
        taken.push(pop_expr(stack))?;
    }
    taken.reverse();
    Ok(taken)
}

/// Takes so many proofs, of which the last is on top.
pub(crate) fn pop_proofs(
    alloc: Global,
    count: u32,
    stack: &mut Vec<Entry>,
) -> Result<Vec<u32>, AllocError>
    requires { HasProofs count (reverse stack.old.items) }
    ensures { IfOk result (λ ns. TookProofs count (reverse stack.old.items) (reverse ns.items) (reverse stack.new.items)) }
{
    let mut taken = Vec::new(alloc);
    'proofs: for i in 0..count {
        let (_, proof) = pop_proof(stack);
        taken.push(proof)?;
    }
    taken.reverse();
    Ok(taken)
}

/// Takes the next two sides, which are the last.
pub(crate) fn pop_pair(sides: &mut Vec<(u32, u32)>) -> Option<(u32, u32)>
    ensures some { IfSome result (λ p. sides.old.items ≡ sides.new.items ++ p ∷ []) }
    ensures none { IfNone result (sides.old.items ≡ []) }
{
    sides.pop()
}
