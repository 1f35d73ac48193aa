//! Lets that are open in a body, and those in sight of each.
ghost use Rattle.std.specs.Prelude.{ℕ, ◌≡◌, ◌≤◌, ◌<◌, ◌+◌, ◌^◌, ◌++◌, ◌∷◌, [], OnOk, IfOk, length, None, Some};
ghost use Rattle.mz_mmu_theory.specs.ProofView.{proof_view};
ghost use Rattle.mz_emit_bodies.specs.Sight.{link_at, links, part_of, parts, part_at, place_at, InSight, AreRight, IsThere, IsNext};

use mz_cmd::Mem;
use mz_mmu_theory::Proof;
use std::alloc::Global;

/// The lets that are in sight: the number of the innermost one's cell, or none.
pub type Chain = Option<u32>;

/// A let: its part, and where that stands in the heap once it is emitted.
#[derive(Drop)]
pub struct Cell<'t> {
    pub part: &'t Proof,
    // the lets in sight of the part
    pub outer: Chain,
    // how many they are
    pub depth: u32,
    // one of them, farther out, or the cell itself where there is none
    pub jump: u32,
    pub place: Option<u32>,
}

fn depth_at(cells: &[Cell], cell: u32) -> u32
    requires { cell < length (links cells.now) }
    ensures { result ≡ (link_at (links cells.now) cell).depth }
{
    cells[cell as usize].depth
}

fn jump_at(cells: &[Cell], cell: u32) -> u32
    requires { cell < length (links cells.now) }
    ensures { result ≡ (link_at (links cells.now) cell).jump }
{
    cells[cell as usize].jump
}

fn outer_at(cells: &[Cell], cell: u32) -> Option<u32>
    requires { cell < length (links cells.now) }
    ensures { result ≡ (link_at (links cells.now) cell).outer }
{
    cells[cell as usize].outer
}

/// The next cell on the way from this one to the one of this depth, which is farther out.
fn nearer(cells: &[Cell], cell: u32, number: u32) -> u32
    requires right { AreRight (links cells.now) }
    requires there { cell < length (links cells.now) }
    requires farther { number < (link_at (links cells.now) cell).depth }
    ensures less { result < cell }
    ensures still { number ≤ (link_at (links cells.now) result).depth }
    ensures way { (d : ℕ) → InSight (links cells.now) result number d → InSight (links cells.now) cell number d }
{
    let jump = jump_at(cells, cell);
    if depth_at(cells, jump) >= number {
        return jump;
    }
    match outer_at(cells, cell) {
        None => unreachable!(),
        Some(outer) => outer,
    }
}

/// The cell of the let with this number, counted from the outermost in sight from 0.
fn visible(cells: &[Cell], innermost: u32, number: u32) -> u32
    requires right { AreRight (links cells.now) }
    requires there { innermost < length (links cells.now) }
    requires within { number ≤ (link_at (links cells.now) innermost).depth }
    ensures sight { InSight (links cells.now) innermost number result }
    ensures there { result < length (links cells.now) }
{
    let mut at = innermost;
    while depth_at(cells, at) > number {
        at = nearer(cells, at, number);
    }
    at
}

/// Where a cell inside this one jumps to: so that from any cell another one is reached in a
/// number of steps that is as the logarithm of the distance.
fn jump_from_inside(cells: &[Cell], outer: u32) -> u32
    requires right { AreRight (links cells.now) }
    requires there { outer < length (links cells.now) }
    ensures less { result ≤ outer }
    ensures way { InSight (links cells.now) outer (link_at (links cells.now) result).depth result }
{
    let first = jump_at(cells, outer);
    let second = jump_at(cells, first);
    let a = depth_at(cells, outer);
    let b = depth_at(cells, first);
    let c = depth_at(cells, second);
    if u64::from(a) + u64::from(c) == u64::from(b) + u64::from(b) {
        second
    } else {
        outer
    }
}

/// How many lets are in sight of a new cell with this number, and where it jumps to.
fn next_link(cells: &[Cell], outer: Chain, number: u32) -> (u32, u32)
    requires right { AreRight (links cells.now) }
    requires there { IsThere (length cells.now) outer }
    requires few { length cells.now < 2 ^ 32 }
    ensures { IsNext (links cells.now) number outer result.0 result.1 }
{
    match outer {
        None => (0, number),
        Some(cell) => {
            // no deeper than its number
            let depth = depth_at(cells, cell);
            let jump = jump_from_inside(cells, cell);
            (depth + 1, jump)
        }
    }
}

/// The lets of a body that were met, each with those in sight of its part.
#[derive(Drop)]
pub struct Cells<'t> {
    pub cells: Vec<Cell<'t>>,
}

impl<'t> Cells<'t> {
    pub fn new(alloc: Global) -> Cells<'t>
        ensures { result.cells.items ≡ [] }
    {
        Cells {
            cells: Vec::new(alloc),
        }
    }

    /// Opens a let with this part over the lets in sight, and says its cell's number.
    ///
    /// # Errors
    ///
    /// Where there is no memory.
    pub fn open(&mut self, part: &'t Proof, outer: Chain) -> Result<u32, Mem>
        requires room { length self.old.cells.items + 1 < 2 ^ 32 }
        requires right { AreRight (links self.old.cells.items) }
        requires there { IsThere (length self.old.cells.items) outer }
        ensures number { IfOk result (λ c. c ≡ length self.old.cells.items) }
        ensures parts { OnOk result (parts self.new.cells.items ≡ parts self.old.cells.items ++ record { proof = proof_view part.entry.now; outer = outer } ∷ []) }
        ensures places { OnOk result ((c p : ℕ) → place_at self.new.cells.items c ≡ Some p → place_at self.old.cells.items c ≡ Some p) }
        ensures kept { OnOk result ((c : ℕ) → c < length self.old.cells.items → place_at self.new.cells.items c ≡ place_at self.old.cells.items c) }
        ensures many { OnOk result (length self.new.cells.items ≡ length self.old.cells.items + 1) }
        ensures right { OnOk result (AreRight (links self.new.cells.items)) }
    {
        let number = self.cells.len() as u32;
        let (depth, jump) = next_link(&self.cells, outer, number);
        self.cells.push(Cell {
            part,
            outer,
            depth,
            jump,
            place: None,
        })?;
        Ok(number)
    }

    /// The cell of the let with this number, counted from the outermost in sight from 0.
    pub fn visible(&self, innermost: u32, number: u32) -> u32
        requires right { AreRight (links self.now.cells.items) }
        requires there { innermost < length (links self.now.cells.items) }
        requires within { number ≤ (link_at (links self.now.cells.items) innermost).depth }
        ensures sight { InSight (links self.now.cells.items) innermost number result }
        ensures there { result < length (links self.now.cells.items) }
    {
        visible(&self.cells, innermost, number)
    }

    /// Where the cell's part stands in the heap, if it is emitted.
    pub fn place(&self, cell: u32) -> Option<u32>
        requires { cell < length self.now.cells.items }
        ensures { result ≡ place_at self.now.cells.items cell }
    {
        self.cells[cell as usize].place
    }

    /// The cell's part, and the lets in sight of it.
    pub fn part(&self, cell: u32) -> (&'t Proof, Chain)
        requires { cell < length self.now.cells.items }
        ensures { part_at (parts self.now.cells.items) cell ≡ record { proof = proof_view result.0.now; outer = result.1 } }
    {
        let cell = &self.cells[cell as usize];
        (cell.part, cell.outer)
    }

    /// The cell's part stands at this place of the heap from now on.
    pub fn set_place(&mut self, cell: u32, place: u32)
        requires { cell < length self.old.cells.items }
        ensures parts { parts self.new.cells.items ≡ parts self.old.cells.items }
        ensures links { links self.new.cells.items ≡ links self.old.cells.items }
        ensures there { length self.new.cells.items ≡ length self.old.cells.items }
        ensures at { place_at self.new.cells.items cell ≡ Some place }
        ensures others { (c : ℕ) → (c ≡ cell → ⊥) → place_at self.new.cells.items c ≡ place_at self.old.cells.items c }
    {
        self.cells[cell as usize].place = Some(place);
    }
}
