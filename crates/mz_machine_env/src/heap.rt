//! The heap of a body, and the ids of its parameters.
ghost use Rattle.std.specs.Prelude.{◌≡◌, ◌≤◌, ◌++◌, ◌∷◌, [], OnOk, length, take};
ghost use Rattle.mz_machine_env.specs.OwnRow.{first_ids, first_items};

use mz_store::{Id, Item};
use std::alloc::{AllocError, Global};
use std::marker::Model;

/// The heap of a body. It begins with the parameters, and these stay for the next body: items are
/// only added.
#[derive(Drop)]
pub struct Heap {
    items: Vec<Item>,
    // so many of them are those of parameters
    params: usize,
}

impl Model for Heap {
    ghost use Rattle.std.specs.Prelude.{◌≡◌, take};
    ghost use Rattle.mz_machine_env.specs.Items.{Heaped, heaped_code};
    ghost use Rattle.mz_machine_env.specs.OwnRow.{first_items};

    ghost Value = { Heaped };

    ghost coded = { heaped_code };

    ghost view = { λ h. record { items = h.items.items } };

    ghost invariant = { λ h. take h.params h.items.items ≡ first_items h.params };
}

impl Heap {
    /// A heap of nothing.
    pub fn new(alloc: Global) -> Heap {
        Heap {
            items: Vec::new(alloc),
            params: 0,
        }
    }

    /// Makes it that before a body's first command: the first ids, which are those of so many
    /// parameters, as expressions. It goes over those alone that the body before hadn't.
    ///
    /// # Errors
    ///
    /// Where there is no memory.
    pub fn begin(&mut self, params: usize) -> Result<(), AllocError>
        ensures { OnOk result (self.new.items ≡ first_items params) }
    {
        let there = lesser(self.params, params);
        self.params = 0;
        self.items.truncate(there);
        reach_items(&mut self.items, there, params)?;
        self.params = params;
        Ok(())
    }

    /// Adds an item.
    ///
    /// # Errors
    ///
    /// Where there is no memory.
    #[inline(always)]
    pub fn push(&mut self, item: Item) -> Result<(), AllocError>
        ensures { OnOk result (self.new.items ≡ self.old.items ++ item ∷ []) }
    {
        self.items.push(item)?;
        Ok(())
    }

    /// All its items.
    #[inline(always)]
    pub fn as_slice(&self) -> &[Item]
        ensures { result.now ≡ self.now.items }
    {
        self.items.as_slice()
    }
}

fn lesser(a: usize, b: usize) -> usize
    ensures first { result ≤ a }
    ensures second { result ≤ b }
{
    if a < b { a } else { b }
}

/// Adds to the first ids as expressions those up to a count.
fn reach_items(items: &mut Vec<Item>, from: usize, count: usize) -> Result<(), AllocError>
    requires first { items.old.items ≡ first_items from }
    requires order { from ≤ count }
    ensures { OnOk result (items.new.items ≡ first_items count) }
{
    'ids: for i in from..count {
        let id = Id::at(i)?;
        items.push(Item::Expr(id))?;
    }
    Ok(())
}

/// The first ids, which are those of parameters: as many as a body has asked for.
#[derive(Drop)]
pub struct FirstIds {
    ids: Vec<Id>,
}

impl Model for FirstIds {
    ghost use Rattle.std.specs.Prelude.{◌≡◌, ℕ, length};
    ghost use Rattle.std.specs.Coded.{coded_ℕ};
    ghost use Rattle.mz_machine_env.specs.OwnRow.{first_ids};

    ghost Value = { ℕ };

    ghost coded = { coded_ℕ };

    ghost view = { λ f. length f.ids.items };

    ghost invariant = { λ f. f.ids.items ≡ first_ids (length f.ids.items) };
}

impl FirstIds {
    /// None yet.
    pub fn new(alloc: Global) -> FirstIds {
        FirstIds {
            ids: Vec::new(alloc),
        }
    }

    /// Takes in so many.
    ///
    /// # Errors
    ///
    /// Where there is no memory.
    pub fn reach(&mut self, count: u32) -> Result<(), AllocError>
        ensures { OnOk result (count ≤ self.new) }
    {
        reach_ids(&mut self.ids, count as usize)
    }

    /// The first so many.
    pub fn first(&self, count: u32) -> &[Id]
        requires { count ≤ self.now }
        ensures { result.now ≡ first_ids count }
    {
        &self.ids[..count as usize]
    }
}

/// Adds to the first ids those up to a count.
fn reach_ids(ids: &mut Vec<Id>, count: usize) -> Result<(), AllocError>
    requires { ids.old.items ≡ first_ids (length ids.old.items) }
    ensures first { ids.new.items ≡ first_ids (length ids.new.items) }
    ensures many { OnOk result (count ≤ length ids.new.items) }
{
    'ids: for i in ids.len()..count {
        let id = Id::at(i)?;
        ids.push(id)?;
    }
    Ok(())
}
