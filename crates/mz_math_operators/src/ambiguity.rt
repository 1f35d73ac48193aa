// Whether a notation can be mistaken for another one.
ghost use Rattle.std.specs.Prelude.{◌≡◌, ◌↔◌, ◌<◌, ◌++◌, ◌∷◌, [], ℕ, List, IfOk, IsTrue};
ghost use Rattle.mz_math_theory.specs.Clear.{HasConstant, IsClear};
ghost use Rattle.mz_math_operators.specs.Levels.{IsLevelNoted};
ghost use Rattle.mz_math_theory.specs.Notation.{max_level};
ghost use Rattle.mz_math_theory.specs.declared.notation.Element.TheVariants.{Fixed as fixed};
ghost use Rattle.mz_math_theory.specs.declared.notation.Notation.{Notation};
ghost use Rattle.mz_math_theory.specs.NotationAnswers.{GroupAlike, GroupsWith, HaveOneLevel, KeepsLevels, KeepsOwnLevels, NoOtherJoined, NoOtherLed};

use crate::notations::NotationList;
use mz_base::Hashing;
use mz_lex::Places;
use mz_math_theory::{Element, MAX, Notation};
use std::alloc::{AllocError, Global};

/// Whether it is no constant, or has its precedence in the notations, too.
fn keeps_level(element: &Element, notations: &NotationList) -> bool
    requires { HaveOneLevel notations.now }
    ensures { IsTrue result ↔ ((w : List ℕ) (q p : ℕ) → element.now ≡ fixed w q → HasConstant notations.now w p → p ≡ q) }
{
    match element {
        Element::Fixed(constant, level) => has_level_in(notations, constant.as_slice(), *level),
        Element::Slot(_) => true,
    }
}

/// Notes the precedence of a constant; whether it is no constant, or has had no other precedence.
fn note_level(
    element: &Element,
    alloc: Global,
    levels: &mut Places<u32>,
) -> Result<bool, AllocError>
    ensures { IfOk result (λ is. IsLevelNoted is levels.old element.now levels.new) }
{
    match element {
        Element::Fixed(constant, level) => {
            note_level_of(alloc, levels, constant.as_slice(), *level)
        }
        Element::Slot(_) => Ok(true),
    }
}

/// Whether it groups to this side.
fn groups(notation: &Notation, is_right: bool) -> bool
    ensures { IsTrue result ↔ (notation.now.is_right ≡ is_right) }
{
    notation.is_right == is_right
}

/// Notes the precedence of a constant that has none; whether it has had no other.
fn note_level_of(
    alloc: Global,
    levels: &mut Places<u32>,
    word: &[u8],
    level: u32,
) -> Result<bool, AllocError>
    ensures { IfOk result (λ is. IsLevelNoted is levels.old (fixed word.now level) levels.new) }
{
    match levels.get(word) {
        Some(other) => Ok(other == level),
        None => {
            levels.insert(alloc, word, level)?;
            Ok(true)
        }
    }
}

/// Whether the constant has this precedence in each of the notations.
fn has_level_in(notations: &NotationList, word: &[u8], level: u32) -> bool
    requires { HaveOneLevel notations.now }
    ensures { IsTrue result ↔ ((q : ℕ) → HasConstant notations.now word.now q → q ≡ level) }
{
    match notations.level_of(word) {
        None => true,
        Some(other) => other == level,
    }
}

/// Whether the constants among the elements have their precedences in the notations, too.
fn keeps_levels(elements: &[Element], notations: &NotationList) -> bool
    requires { HaveOneLevel notations.now }
    ensures { IsTrue result ↔ KeepsLevels elements.now notations.now }
{
    for element in elements {
        if !keeps_level(element, notations) {
            return false;
        }
    }
    true
}

/// Whether each constant among the elements has one precedence.
fn keeps_own_levels(
    alloc: Global,
    hashing: Hashing,
    elements: &[Element],
) -> Result<bool, AllocError>
    ensures { IfOk result (λ keeps. IsTrue keeps ↔ KeepsOwnLevels elements.now) }
{
    let mut levels: Places<u32> = Places::new(alloc, hashing);
    for element in elements {
        let is_noted = note_level(element, alloc, &mut levels)?;
        if !is_noted {
            return Ok(false);
        }
    }
    Ok(true)
}

/// Whether the infix notations of its precedence group as it does.
fn all_group_with(infixes: &NotationList, notation: &Notation) -> bool
    requires { GroupAlike infixes.now }
    ensures { IsTrue result ↔ GroupsWith infixes.now notation.now }
{
    match infixes.grouping_at(notation.level) {
        None => true,
        Some(is_right) => groups(notation, is_right),
    }
}

/// Whether none of the notations begins with its constant.
fn none_is_led(leading: &NotationList, notation: &Notation) -> bool
    ensures { IsTrue result ↔ NoOtherLed leading.now notation.now }
{
    match notation.leading_constant() {
        None => true,
        Some(word) => match leading.led_by(word) {
            None => true,
            Some(_) => false,
        },
    }
}

/// Whether none of the notations has its constant behind the first parameter.
fn none_is_joined(infixes: &NotationList, notation: &Notation) -> bool
    ensures { IsTrue result ↔ NoOtherJoined infixes.now notation.now }
{
    match notation.joining_constant() {
        None => true,
        Some(word) => match infixes.joined_by(word) {
            None => true,
            Some(_) => false,
        },
    }
}

/// Whether the constants of the notation have one precedence each, also beside those of all
/// notations.
fn levels_are_kept(
    alloc: Global,
    hashing: Hashing,
    leading: &NotationList,
    infixes: &NotationList,
    notation: &Notation,
) -> Result<bool, AllocError>
    requires { IsClear leading.now infixes.now }
    ensures { IfOk result (λ are_kept. IsTrue are_kept ↔ (KeepsOwnLevels notation.now.elements × KeepsLevels notation.now.elements leading.now × KeepsLevels notation.now.elements infixes.now)) }
{
    let elements = notation.elements.listed();
    let keeps_own = keeps_own_levels(alloc, hashing, elements)?;
    if !keeps_own {
        return Ok(false);
    }
    if !keeps_levels(elements, leading) {
        return Ok(false);
    }
    Ok(keeps_levels(elements, infixes))
}

/// Whether the notations stay clear with one more that begins with a constant.
///
/// # Errors
///
/// Where there is no memory.
pub fn is_clear_with_leading(
    alloc: Global,
    hashing: Hashing,
    leading: &NotationList,
    infixes: &NotationList,
    notation: &Notation,
) -> Result<bool, AllocError>
    requires { IsClear leading.now infixes.now }
    ensures { IfOk result (λ is_clear. IsTrue is_clear ↔ IsClear (leading.now ++ notation.now ∷ []) infixes.now) }
{
    let are_kept = levels_are_kept(alloc, hashing, leading, infixes, notation)?;
    if !are_kept {
        return Ok(false);
    }
    Ok(none_is_led(leading, notation))
}

/// Whether the notations stay clear with one more that begins with a parameter.
///
/// # Errors
///
/// Where there is no memory.
pub fn is_clear_with_infix(
    alloc: Global,
    hashing: Hashing,
    leading: &NotationList,
    infixes: &NotationList,
    notation: &Notation,
) -> Result<bool, AllocError>
    requires { IsClear leading.now infixes.now }
    ensures { IfOk result (λ is_clear. IsTrue is_clear ↔ IsClear leading.now (infixes.now ++ notation.now ∷ [])) }
{
    if notation.level == MAX {
        return Ok(false);
    }
    let are_kept = levels_are_kept(alloc, hashing, leading, infixes, notation)?;
    if !are_kept {
        return Ok(false);
    }
    if !all_group_with(infixes, notation) {
        return Ok(false);
    }
    Ok(none_is_joined(infixes, notation))
}
