//! The instances of large conclusions that a body has, so that a conclusion's tree isn't gone over again where it is
//! cited again with the same operands.
ghost use Rattle.std.specs.Prelude.{ℕ, List, ◌≡◌, ◌↔◌, ◌+◌, ◌++◌, ◌∷◌, [], OnOk, IfOk, IfSome, IsTrue, length, map, slice_get, Some};
ghost use Rattle.mz_logic_theory.specs.Declaration.{Declaration};
ghost use Rattle.mz_logic_theory.specs.Sorts.{HasSort};
ghost use Rattle.mz_logic_theory.specs.Tree.{instance};
ghost use Rattle.mz_logic_theory.specs.View.{tree};
ghost use Rattle.mz_logic_theory.specs.Words.{signatures_of};
ghost use Rattle.mz_store.specs.Sharing.{AreIn, Holds, trees_of};
ghost use Rattle.mz_emit_theory.specs.Claims.{conclusion_of};
ghost use Rattle.mz_emit_theory.specs.InReach.{InReach};
ghost use Rattle.mz_emit_bodies.specs.Instances.{AreInstances, Grows};
ghost use Rattle.mz_emit_bodies.specs.Rows.{words_of_row};
ghost use Rattle.mz_emit_bodies.specs.Variables.{IsShared};

use crate::shared::Shared;
use crate::table::TermTable;
use mz_cmd::Mem;
use mz_logic_theory::{Expr, ExprRef, Operands, Shape};
use mz_store::Id;
use std::alloc::Global;
use std::collections::BTreeMap;

// the instance of a smaller tree is made as fast as it is found
const LARGE: u32 = 64;

/// An instance of an assertion's conclusion.
#[derive(Drop)]
pub struct Instance {
    /// The assertion's number.
    pub number: u32,
    /// What stands in place of its parameters.
    pub operands: Vec<Id>,
    /// The instance.
    pub id: Id,
}

/// The instances of large conclusions that a body has.
#[derive(Drop)]
pub struct Instances {
    /// The instances.
    pub items: Vec<Instance>,
    // where they stand; what is found here is compared, so that nothing need be known of the map
    places: BTreeMap<Vec<u32>, usize>,
}

/// What is left of so many nodes when those of the expression's tree are taken off.
#[cycle(nodes_left)]
fn nodes_left(expr: &ExprRef, left: u32) -> u32 {
    if left == 0 {
        return 0;
    }
    match expr.shape() {
        Shape::Var(_) => left - 1,
        Shape::App(_, es) => nodes_left_by_all(&es, left - 1),
    }
}

#[cycle(nodes_left)]
fn nodes_left_by_all(es: &Operands, most: u32) -> u32 {
    let mut left = most;
    for i in 0..es.len() {
        if left == 0 {
            return 0;
        }
        left = nodes_left(&es.at(i), left);
    }
    left
}

fn are_same(a: &[Id], b: &[Id]) -> bool
    ensures { IsTrue result ↔ (a.now ≡ b.now) }
{
    a == b
}

/// The number and the operands in one list.
fn key_of(alloc: Global, number: u32, operands: &[Id]) -> Result<Vec<u32>, Mem> {
    let mut key = Vec::new(alloc);
    key.push(number)?;
    for id in operands {
        key.push(id.0)?;
    }
    Ok(key)
}

impl Instances {
    /// No instances.
    pub fn new(alloc: Global) -> Instances
        ensures { result.items.items ≡ [] }
    {
        Instances {
            items: Vec::new(alloc),
            places: BTreeMap::new(alloc),
        }
    }

    /// The instance of the conclusion with these operands, if it is there.
    fn find(&self, key: &Vec<u32>, number: u32, operands: &[Id]) -> Option<Id>
        ensures { IfSome result (λ id. (k : ℕ) × (i : Instance) × (slice_get self.now.items.items k ≡ Some i) × (i.number ≡ number) × (i.operands.items ≡ operands.now) × (i.id ≡ id)) }
    {
        let Some(place) = self.places.get(key).copied() else {
            return None;
        };
        let Some(found) = self.items.get(place) else {
            return None;
        };
        if found.number == number && are_same(&found.operands, operands) {
            Some(found.id)
        } else {
            None
        }
    }

    /// Keeps an instance.
    fn add(&mut self, key: Vec<u32>, instance: Instance) -> Result<(), Mem>
        ensures { OnOk result (self.new.items.items ≡ self.old.items.items ++ instance ∷ []) }
    {
        let place = self.items.len();
        self.items.push(instance)?;
        // where this fails the instance is made again
        let _ = self.places.insert(key, place);
        Ok(())
    }
}

/// Keeps this instance of the conclusion with the number.
fn keep(
    alloc: Global,
    instances: &mut Instances,
    key: Vec<u32>,
    number: u32,
    operands: &[Id],
    id: Id,
) -> Result<(), Mem>
    ensures { OnOk result ((i : Instance) × (instances.new.items.items ≡ instances.old.items.items ++ i ∷ []) × (i.number ≡ number) × (i.operands.items ≡ operands.now) × (i.id ≡ id)) }
{
    let operands = operands.to_vec(alloc)?;
    let instance = Instance {
        number,
        operands,
        id,
    };
    instances.add(key, instance)
}

/// The id of the instance of the conclusion with this number. That of a large one is kept.
///
/// # Errors
///
/// Where there is no memory.
pub fn conclusion_id(
    shared: &mut Shared,
    table: &TermTable,
    instances: &mut Instances,
    number: u32,
    operands: &[Id],
    conclusion: &Expr,
) -> Result<Id, Mem>
    requires instances { (env : List Declaration) × AreInstances env shared.old.store instances.old.items.items × (tree conclusion.now ≡ conclusion_of env number) }
    requires shared { IsShared (signatures_of (map words_of_row table.now.terms.items)) shared.old.store shared.old.variables.items }
    requires ids { AreIn shared.old.store operands.now }
    requires there { InReach (length operands.now) (tree conclusion.now) }
    requires sorted { (s : ℕ) × HasSort (signatures_of (map words_of_row table.now.terms.items)) shared.old.store.context (instance (trees_of shared.old.store operands.now) (tree conclusion.now)) s }
    ensures holds { IfOk result (λ id. Holds shared.new.store id.0 (instance (trees_of shared.old.store operands.now) (tree conclusion.now))) }
    ensures grows { OnOk result (Grows shared.old.store shared.new.store) }
    ensures variables { OnOk result (shared.new.variables.items ≡ shared.old.variables.items) }
    ensures shared { OnOk result (IsShared (signatures_of (map words_of_row table.now.terms.items)) shared.new.store shared.new.variables.items) }
    ensures instances { OnOk result ((env : List Declaration) → AreInstances env shared.old.store instances.old.items.items → tree conclusion.now ≡ conclusion_of env number
        → AreInstances env shared.new.store instances.new.items.items) }
{
    if nodes_left(&conclusion.borrowed(), LARGE) > 0 {
        return shared.instance(table, operands, conclusion);
    }
    let alloc = shared.alloc;
    let key = key_of(alloc, number, operands)?;
    match instances.find(&key, number, operands) {
        Some(id) => Ok(id),
        None => {
            let id = shared.instance(table, operands, conclusion)?;
            keep(alloc, instances, key, number, operands, id)?;
            Ok(id)
        }
    }
}
