// The places of first coercions, by two sorts.
ghost use Rattle.std.specs.Prelude.{◌≡◌, ◌<◌, ◌+◌, ◌*◌, ℕ, None, Some, IfOk, OnOk, length, true};
ghost use Rattle.mz_math_coercions.specs.Firsts.{IsPut, IsSet, are_near as are_near_lem, cell_of as cell_lem, first_of, near_at as near_lem};

use std::alloc::{AllocError, Global};

/// A binary has at most so many sorts, and so a specification that agrees with one.
const SIDE: u32 = 128;

/// Places by two sorts that a binary can have, from one to another. They stand in a square, so that
/// each is found in one step.
#[derive(Drop)]
pub struct FirstSteps {
    pub near: Vec<Option<usize>>,
}

impl FirstSteps {
    /// Nothing is kept.
    pub fn new(alloc: Global) -> FirstSteps
        ensures { (s to : ℕ) → first_of result s to ≡ None }
    {
        FirstSteps {
            near: Vec::new(alloc),
        }
    }

    /// What is kept for two sorts.
    pub fn get(&self, from: u32, to: u32) -> Option<usize>
        ensures { result ≡ first_of self.now from to }
    {
        if are_near(from, to) {
            near_at(&self.near, cell_of(from, to))
        } else {
            None
        }
    }

    /// Keeps a place for two sorts, where a binary can have both, and says whether it did.
    ///
    /// # Errors
    ///
    /// Where there is no memory.
    pub fn insert(&mut self, from: u32, to: u32, place: usize) -> Result<bool, AllocError>
        ensures { IfOk result (λ near. near ≡ true → IsPut self.old self.new from to place) }
    {
        if !are_near(from, to) {
            return Ok(false);
        }
        put_near(&mut self.near, cell_of(from, to), place)?;
        Ok(true)
    }
}

fn are_near(from: u32, to: u32) -> bool
    ensures { result ≡ are_near_lem from to }
{
    from < SIDE && to < SIDE
}

/// Where two near sorts stand in the square: a row is for one end, so that a path goes along it.
fn cell_of(from: u32, to: u32) -> usize
    ensures { result ≡ cell_lem from to }
{
    to as usize * SIDE as usize + from as usize
}

fn near_at(cells: &[Option<usize>], i: usize) -> Option<usize>
    ensures { result ≡ near_lem cells.now i }
{
    match cells.get(i) {
        Some(place) => *place,
        None => None,
    }
}

fn put_near(cells: &mut Vec<Option<usize>>, i: usize, place: usize) -> Result<(), AllocError>
    ensures { OnOk result (IsSet cells.old.items cells.new.items i (Some place)) }
{
    reach(cells, i)?;
    cells[i] = Some(place);
    Ok(())
}

/// Puts empty cells behind the others, until this one is there.
fn reach(cells: &mut Vec<Option<usize>>, i: usize) -> Result<(), AllocError>
    ensures there { OnOk result (i < length cells.new.items) }
    ensures same { (j : ℕ) → near_lem cells.new.items j ≡ near_lem cells.old.items j }
{
    'cells: while cells.len() <= i {
        cells.push(None)?;
    }
    Ok(())
}
