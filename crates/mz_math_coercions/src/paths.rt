// Paths that have been found, kept for whoever needs them again.
ghost use Rattle.std.specs.Prelude.{List, IfOk, IfSome};
ghost use Rattle.mz_math_theory.specs.declared.coercion.Coercion.{Coercion};
ghost use Rattle.mz_math_coercions.specs.Found.{AreFound, AreTermsOf};

use indexmap::IndexMap;
use mz_logic_theory::TermPath;
use std::alloc::{AllocError, Global};

/// The terms of the path from a sort to another.
#[derive(Drop)]
pub struct FoundPath {
    from: u32,
    to: u32,
    terms: TermPath,
}

/// Paths between sorts that have been found, so that all expressions that are wrapped in one share it.
#[derive(Drop)]
pub struct Paths {
    found: Vec<FoundPath>,
    // by two sorts; what is found here is asked of the paths, so that nothing need be known of the map
    places: IndexMap<u64, usize>,
}

impl Paths {
    /// No paths.
    pub fn new(alloc: Global) -> Paths
        ensures { (cs : List Coercion) → AreFound cs result }
    {
        Paths {
            found: Vec::new(alloc),
            places: IndexMap::new(alloc),
        }
    }

    /// The terms of the path from a sort to another, where it is kept.
    ///
    /// # Errors
    ///
    /// Where more share them than can be counted.
    pub fn get(&self, from: u32, to: u32) -> Result<Option<TermPath>, AllocError>
        ensures { (cs : List Coercion) → AreFound cs self.now → IfOk result (λ o. IfSome o (λ terms. AreTermsOf cs from to terms)) }
    {
        let Some(place) = self.places.get(&pair_of(from, to)).copied() else {
            return Ok(None);
        };
        if place >= self.found.len() {
            return Ok(None);
        }
        let path = &self.found[place];
        if path.from == from && path.to == to {
            return Ok(Some(path.terms.share()?));
        }
        Ok(None)
    }

    /// Keeps the path from a sort to another.
    ///
    /// # Errors
    ///
    /// Where there is no memory.
    pub fn keep(&mut self, from: u32, to: u32, terms: TermPath) -> Result<(), AllocError>
        ensures { (cs : List Coercion) → AreFound cs self.old → AreTermsOf cs from to terms → AreFound cs self.new }
    {
        let place = self.found.len();
        self.found.push(FoundPath { from, to, terms })?;
        self.places.insert(pair_of(from, to), place)?;
        Ok(())
    }
}

/// Two sorts as one number.
fn pair_of(from: u32, to: u32) -> u64 {
    u64::from(from) << 32 | u64::from(to)
}
