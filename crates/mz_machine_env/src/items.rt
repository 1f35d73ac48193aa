//! Items of a body's stack, whose top is its last item, and of its heap.
ghost use Rattle.std.specs.Prelude.{◌≡◌, ◌≤◌, ◌<◌, ◌-◌, ◌+◌, ◌++◌, ◌∷◌, [], length, slice_get, vec_len, vec_capacity};
ghost use Rattle.mz_machine_env.specs.Items.{is_owed};

use mz_store::Item;

/// The top item.
#[inline(always)]
pub fn top(stack: &[Item]) -> Option<Item>
    ensures { result ≡ slice_get stack.now (length stack.now - 1) }
{
    stack.last().copied()
}

/// The item at a place of the heap.
#[inline(always)]
pub fn kept_at(heap: &[Item], place: u32) -> Option<Item>
    ensures { result ≡ slice_get heap.now place }
{
    heap.get(place as usize).copied()
}

/// Whether something is still to be shown.
#[inline(always)]
pub fn is_obligation(item: Item) -> bool
    ensures { result ≡ is_owed item }
{
    match item {
        Item::Obligation(_, _) => true,
        Item::Expr(_) | Item::Proof(_) | Item::Conversion(_, _) => false,
    }
}

/// Puts an item at the end, where there is room.
#[inline(always)]
pub fn put_back(items: &mut Vec<Item>, item: Item)
    requires scratch { vec_len items.old < vec_capacity items.old }
    ensures items { items.new.items ≡ items.old.items ++ item ∷ [] }
    ensures len { vec_len items.new ≡ vec_len items.old + 1 }
    ensures capacity { vec_capacity items.old ≤ vec_capacity items.new }
{
    let Ok(()) = items.push(item) else {
        unreachable!();
    };
}
