// What a unify stream says beside trees that have numbers. Where a mark's number is known, a reference to
// it is one comparison; else what it is made of is gone over, and its number is known from then on.
ghost use Rattle.std.specs.Prelude.{◌≡◌, ◌≤◌, ◌⊎◌, ◌++◌, ◌∷◌, ◌↔◌, [], ℕ, Some, IsTrue, MatchOption, length, slice_get};
ghost use Rattle.mz_logic_theory.specs.Tree.{Tree, Trees, listed};
ghost use Rattle.mz_machine_theory.specs.Spells.{Marks};
ghost use Rattle.mz_match_rows.specs.Beside.{IsPlainStream};
ghost use Rattle.mz_match_rows.specs.Numbers.{AreNumbered, AreSaidTrees, IsNumbered, TellsAllSame, TellsSame};
ghost use Rattle.mz_match_rows.specs.Streams.{AreSaid, IsMade, IsSaid, step_at as step_lem};

use crate::expression::{Sides, is_ref, makes_term};
use crate::pieces::Pieces;
use crate::stream::{Step, step_at};
use mz_cmd::UnifyCode;
use mz_logic_theory::Terms;
use std::alloc::Global;
use std::collections::BTreeMap;
use std::marker::Model;

/// A place of a stream, and the number of the tree that it says there.
#[derive(Clone, Copy, PartialEq, Eq)]
pub struct SaidTree {
    pub at: u32,
    pub number: usize,
}

/// The trees that a stream says at places where it makes marks, as far as they were met.
#[derive(Drop)]
pub struct Said {
    items: Vec<SaidTree>,
    // what is found here is asked of the items, so that nothing need be known of the map
    of_place: BTreeMap<u32, usize>,
}

impl Model for Said {
    ghost use Rattle.std.specs.Prelude.{List};
    ghost use Rattle.mz_match_rows.specs.declared.by_number.SaidTree.{SaidTree as TheSaid};

    ghost Value = { List TheSaid };

    ghost view = { λ s. s.items.items };
}

impl Said {
    /// Nothing yet.
    pub fn new(alloc: Global) -> Said
        ensures { result ≡ [] }
    {
        Said {
            items: Vec::new(alloc),
            of_place: BTreeMap::new(alloc),
        }
    }

    /// Whether it is known that the tree said at the place has the number.
    fn has(&self, at: u32, number: usize) -> bool
        ensures { IsTrue result → (j : ℕ) × (slice_get self.now j ≡ Some (record { at = at; number = number })) }
    {
        let Some(place) = self.of_place.get(&at).copied() else {
            return false;
        };
        let Some(found) = self.items.get(place).copied() else {
            return false;
        };
        found == SaidTree { at, number }
    }

    /// Keeps what is said at a place, where its command makes a mark and memory is had for it: else it is
    /// gone over again.
    fn keep(&mut self, code: UnifyCode, at: u32, number: usize)
        ensures { (self.new ≡ self.old) ⊎ (self.new ≡ self.old ++ record { at = at; number = number } ∷ []) }
    {
        if !matches!(code, UnifyCode::TermSave) {
            return;
        }
        let place = self.items.len();
        let Ok(()) = self.items.push(SaidTree { at, number }) else {
            return;
        };
        let _ = self.of_place.insert(at, place);
    }
}

/// Whether what the stream says at the place is the tree with the number.
pub fn same_from(sides: &Sides, pieces: &Pieces, number: usize, at: u32, said: &mut Said) -> bool
    requires said { AreSaidTrees sides.now pieces.now said.old }
    requires there { (g : Tree) × (m : Marks) × (f : Tree) × (d : ℕ) × (to : ℕ) × (d' : ℕ) × IsNumbered pieces.now g number × IsPlainStream sides.now m
        × IsSaid sides.now.mmb.now sides.now.params m at d f to d' }
    ensures same { (g : Tree) (m : Marks) (f : Tree) (d to d' : ℕ) → IsNumbered pieces.now g number → IsPlainStream sides.now m
        → IsSaid sides.now.mmb.now sides.now.params m at d f to d' → (IsTrue result ↔ (g ≡ f)) }
    ensures said { AreSaidTrees sides.now pieces.now said.new }
{
    if said.has(at, number) {
        return true;
    }
    same_numbered(sides, pieces, number, at, said).is_some()
}

/// Compares the tree with the number with what the stream says at the place.
///
/// Where they are the same, gives the place behind.
#[cycle(same_numbered)]
fn same_numbered(
    sides: &Sides,
    pieces: &Pieces,
    number: usize,
    at: u32,
    said: &mut Said,
) -> Option<u32>
    requires said { AreSaidTrees sides.now pieces.now said.old }
    requires there { (g : Tree) × (m : Marks) × (f : Tree) × (d : ℕ) × (to : ℕ) × (d' : ℕ) × IsNumbered pieces.now g number × IsPlainStream sides.now m
        × IsSaid sides.now.mmb.now sides.now.params m at d f to d' }
    ensures same { (g : Tree) (m : Marks) (f : Tree) (d to d' : ℕ) → IsNumbered pieces.now g number → IsPlainStream sides.now m
        → IsSaid sides.now.mmb.now sides.now.params m at d f to d' → TellsSame result g f to }
    ensures said { AreSaidTrees sides.now pieces.now said.new }
{
    let Some(step) = step_at(sides.mmb.file(), at) else {
        return None;
    };
    if !is_ref(step.code) {
        return numbered_made(sides, pieces, number, at, step, said);
    }
    if !numbered_mark(sides, pieces, number, step.value, said) {
        return None;
    }
    Some(step.next)
}

/// The same of a mark: of a parameter, or of what the stream says where it makes the mark.
#[cycle(same_numbered)]
fn numbered_mark(sides: &Sides, pieces: &Pieces, number: usize, mark: u32, said: &mut Said) -> bool
    requires said { AreSaidTrees sides.now pieces.now said.old }
    requires there { (g : Tree) × (m : Marks) × (f : Tree) × IsNumbered pieces.now g number × IsPlainStream sides.now m × (slice_get m.trees mark ≡ Some f) }
    ensures same { (g : Tree) (m : Marks) (f : Tree) → IsNumbered pieces.now g number → IsPlainStream sides.now m → slice_get m.trees mark ≡ Some f → (IsTrue result ↔ (g ≡ f)) }
    ensures said { AreSaidTrees sides.now pieces.now said.new }
{
    if mark < sides.params {
        return pieces.is_variable(number, mark);
    }
    let Some(place) = sides.place_of(mark) else {
        return false;
    };
    if said.has(place.at, number) {
        return true;
    }
    let Some(step) = step_at(sides.mmb.file(), place.at) else {
        return false;
    };
    numbered_made(sides, pieces, number, place.at, step, said).is_some()
}

/// The same of a place at which this command stands, which is no reference.
#[cycle(same_numbered)]
fn numbered_made(
    sides: &Sides,
    pieces: &Pieces,
    number: usize,
    at: u32,
    step: Step,
    said: &mut Said,
) -> Option<u32>
    requires said { AreSaidTrees sides.now pieces.now said.old }
    requires there { (step_lem sides.now.mmb.now at ≡ Some step) × (g : Tree) × (m : Marks) × (f : Tree) × (d : ℕ) × (to : ℕ) × (d' : ℕ)
        × IsNumbered pieces.now g number × IsPlainStream sides.now m × IsMade sides.now.mmb.now sides.now.params m at d f to d' }
    ensures same { (g : Tree) (m : Marks) (f : Tree) (d to d' : ℕ) → IsNumbered pieces.now g number → IsPlainStream sides.now m
        → IsMade sides.now.mmb.now sides.now.params m at d f to d' → TellsSame result g f to }
    ensures said { AreSaidTrees sides.now pieces.now said.new }
{
    if !makes_term(step.code) {
        return None;
    }
    let Some(operands) = pieces.operands(number, step.value) else {
        return None;
    };
    let many = sides.mmb.arity(step.value);
    let Some(next) = all_numbered(sides, pieces, operands, many, step.next, said) else {
        return None;
    };
    said.keep(step.code, at, number);
    Some(next)
}

/// Compares the trees of a list with so many that the stream says one after another.
#[cycle(same_numbered)]
fn all_numbered(
    sides: &Sides,
    pieces: &Pieces,
    list: usize,
    many: u32,
    at: u32,
    said: &mut Said,
) -> Option<u32>
    requires said { AreSaidTrees sides.now pieces.now said.old }
    requires there { (gs : Trees) × (m : Marks) × (fs : Trees) × (d : ℕ) × (to : ℕ) × (d' : ℕ) × AreNumbered pieces.now gs list × IsPlainStream sides.now m
        × AreSaid sides.now.mmb.now sides.now.params m at d fs to d' × (many ≡ length (listed fs)) }
    ensures same { (gs : Trees) (m : Marks) (fs : Trees) (d to d' : ℕ) → AreNumbered pieces.now gs list → IsPlainStream sides.now m
        → AreSaid sides.now.mmb.now sides.now.params m at d fs to d' → many ≡ length (listed fs) → TellsAllSame result gs fs to }
    ensures said { AreSaidTrees sides.now pieces.now said.new }
{
    let mut rest = list;
    let mut place = at;
    let mut left = many;
    'trees: while left > 0 {
        let Some(pair) = pieces.first_and_rest(rest) else {
            return None;
        };
        let Some(next) = same_numbered(sides, pieces, pair.0, place, said) else {
            return None;
        };
        rest = pair.1;
        place = next;
        left -= 1;
    }
    if pieces.is_empty_list(rest) {
        Some(place)
    } else {
        None
    }
}
