// The public terms of a binary.
ghost use Rattle.std.specs.Prelude.{◌≡◌, ◌++◌, ◌∷◌, [], OnOk, OnErr, slice_get};

use mz_cmd::Mem;
use std::alloc::Global;
use std::marker::Model;

/// The rows of the public terms and definitions so far, in order: the i-th of them is the
/// specification's i-th term.
#[derive(Drop)]
pub struct Publics {
    rows: Vec<u32>,
}

impl Model for Publics {
    ghost use Rattle.std.specs.Prelude.{List, ℕ};

    ghost Value = { List ℕ };

    ghost view = { λ p. p.rows.items };
}

impl Publics {
    /// No term yet.
    pub fn new(alloc: Global) -> Publics
        ensures { result ≡ [] }
    {
        Publics {
            rows: Vec::new(alloc),
        }
    }

    /// Adds the next public term's row.
    ///
    /// # Errors
    ///
    /// Where there is no memory. The rows are unchanged then.
    pub fn push(&mut self, row: u32) -> Result<(), Mem>
        ensures ok { OnOk result (self.new ≡ self.old ++ row ∷ []) }
        ensures err { OnErr result (self.new ≡ self.old) }
    {
        self.rows.push(row)?;
        Ok(())
    }

    /// The row of the specification's k-th term, if there are so many.
    pub fn row(&self, k: u32) -> Option<u32>
        ensures { result ≡ slice_get self.now k }
    {
        self.rows.get(k as usize).copied()
    }
}
