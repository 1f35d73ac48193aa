// Whether each parameter is named exactly once.
ghost use Rattle.std.specs.Prelude.{◌≡◌, ◌↔◌, ◌<◌, ◌+◌, ◌==◌, ◌∷◌, [], ℕ, IfOk, IsTrue, false, true, get_or, length};
ghost use Rattle.mz_math_theory.specs.Forms.{EachOnce};
ghost use Rattle.mz_math_operators.specs.Once.{one_if, times};

use mz_math_theory::Element;
use std::alloc::{AllocError, Global};

/// Whether each of so many parameters is named exactly once.
///
/// # Errors
///
/// Where there is no memory.
pub fn each_once(alloc: Global, many: usize, elements: &[Element]) -> Result<bool, AllocError>
    ensures { IfOk result (λ once. IsTrue once ↔ EachOnce many elements.now) }
{
    let mut marks: Vec<bool> = vec![in alloc; false; many]?;
    Ok(mark_each_once(&mut marks, elements))
}

/// Flags the parameters that are named; whether each of them is, exactly once.
fn mark_each_once(marks: &mut [bool], elements: &[Element]) -> bool
    requires { (i : ℕ) → get_or marks.old i false ≡ false }
    ensures { IsTrue result ↔ EachOnce (length marks.old) elements.now }
{
    for element in elements {
        if !mark_element(marks, element) {
            return false;
        }
    }
    are_set(marks)
}

/// Flags the parameter that the element names, if it names one; whether it had no flag.
fn mark_element(marks: &mut [bool], element: &Element) -> bool
    ensures many { length marks.new ≡ length marks.old }
    ensures marked { result ≡ true → (i : ℕ) → i < length marks.old → one_if (get_or marks.new i false) ≡ one_if (get_or marks.old i false) + times (element.now ∷ []) i }
    ensures twice { result ≡ false → (i : ℕ) × (i < length marks.old) × (get_or marks.old i false ≡ true) × (times (element.now ∷ []) i ≡ 1) }
{
    match element {
        Element::Fixed(_, _) => true,
        Element::Slot(slot) => mark(marks, *slot),
    }
}

/// Flags the place, if there is one; whether it had no flag.
fn mark(marks: &mut [bool], place: usize) -> bool
    ensures many { length marks.new ≡ length marks.old }
    ensures marked { result ≡ true → (i : ℕ) → i < length marks.old → one_if (get_or marks.new i false) ≡ one_if (get_or marks.old i false) + one_if (place == i) }
    ensures twice { result ≡ false → (place < length marks.old) × (get_or marks.old place false ≡ true) }
{
    if place >= marks.len() {
        return true;
    }
    if marks[place] {
        return false;
    }
    marks[place] = true;
    true
}

/// Whether all are set.
fn are_set(marks: &[bool]) -> bool
    ensures { IsTrue result ↔ ((i : ℕ) → i < length marks.now → get_or marks.now i false ≡ true) }
{
    for i in 0..marks.len() {
        if !marks[i] {
            return false;
        }
    }
    true
}
