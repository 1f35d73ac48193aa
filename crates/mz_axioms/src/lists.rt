// The axioms on which each theorem rests, by the numbers of their declarations.
ghost use Rattle.std.specs.Prelude.{◌≡◌, ◌≤◌, ◌<◌, ◌^◌, length, IfOk, Some, option_map, slice_get};
ghost use Rattle.mz_axioms.specs.Kept.{IsKept, supports_kept, told};
ghost use Rattle.mz_axioms.specs.Lists.{axioms_at};
ghost use Rattle.mz_axioms.specs.Places.{is_listed};
ghost use Rattle.mz_axioms.specs.Rows.{AreFew, AreWithin, supports_of};

use crate::counts::{count, nth_number};
use crate::rows::{Place, Table};
use std::alloc::{AllocError, Global};
use std::marker::Model;

/// A theorem and the axioms of its support, as a set of their rows.
#[derive(Clone, Copy)]
pub struct Support {
    pub theorem: u32,
    pub set: u64,
}

/// What each theorem of a specification rests on, in the order of the theorems. Theorems and axioms
/// are reported by the numbers of their declarations, from 0.
#[derive(Drop)]
pub struct Lists {
    pub(crate) table: Table,
    pub(crate) supports: Vec<Support>,
}

impl Model for Lists {
    ghost use Rattle.std.specs.Prelude.{List};
    ghost use Rattle.mz_axioms.specs.Kept.{IsListed, supports_told};
    ghost use Rattle.mz_axioms.specs.Lists.{TheoremSupport};

    ghost Value = { List TheoremSupport };

    ghost view = { λ l. supports_told l.table l.supports.items };

    ghost invariant = { λ l. IsListed l.table l.supports.items };
}

impl Lists {
    /// How many theorems there are.
    pub fn count(&self) -> u32
        ensures { result ≡ length self.now }
    {
        self.supports.len() as u32
    }

    /// The number of the i-th one's declaration.
    pub fn theorem(&self, i: u32) -> u32
        requires { i < length self.now }
        ensures { option_map (λ s. s.theorem) (slice_get self.now i) ≡ Some result }
    {
        self.supports[i as usize].theorem
    }

    /// On how many axioms it rests.
    pub fn axioms(&self, i: u32) -> u32
        requires { i < length self.now }
        ensures { result ≡ length (axioms_at self.now i) }
    {
        let support = self.supports[i as usize];
        count(&self.table.sets.nodes, self.table.size, support.set) as u32
    }

    /// The number of the j-th one's declaration; they ascend.
    pub fn axiom(&self, i: u32, j: u32) -> u32
        requires { j < length (axioms_at self.now i) }
        ensures { slice_get (axioms_at self.now i) j ≡ Some result }
    {
        let support = self.supports[i as usize];
        nth_number(&self.table, support.set, u64::from(j))
    }
}

/// The lists of the theorems that are public.
pub fn lists_of(alloc: Global, table: Table) -> Result<Lists, AllocError>
    requires many { length table.rows.items < 2 ^ 32 }
    requires kept { IsKept table }
    requires within { AreWithin (told table) }
    requires few { AreFew (told table) }
    ensures { IfOk result (λ lists. lists ≡ supports_of (told table)) }
{
    let supports = supports_in(alloc, &table)?;
    Ok(Lists { table, supports })
}

/// Of each public theorem its declaration's number and its set.
fn supports_in(alloc: Global, table: &Table) -> Result<Vec<Support>, AllocError>
    ensures { IfOk result (λ supports. supports.items ≡ supports_kept table.now.rows.items) }
{
    let mut supports = Vec::new(alloc);
    'rows: for row in &table.rows {
        if is_public_theorem(row.place) {
            supports.push(Support {
                theorem: row.place.number,
                set: row.set,
            })?;
        }
    }
    Ok(supports)
}

fn is_public_theorem(place: Place) -> bool
    ensures { result ≡ is_listed place }
{
    !place.is_axiom && !place.is_local
}
