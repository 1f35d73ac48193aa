// Notations, found by their constants and their precedences.
ghost use Rattle.std.specs.Prelude.{◌≡◌, ◌++◌, ◌∷◌, ◌<◌, ◌+◌, [], ℕ, List, MatchOption, OnOk, OnErr, Contains, length, Some, bytes_eq, if◌then◌else◌};
ghost use Rattle.mz_math_theory.specs.Clear.{HasConstant, JoinedBy, LedBy};
ghost use Rattle.mz_math_operators.specs.Headed.{AreFound, AreLevelled, IsHeadedBy, IsNoted, place_at as place_at_level};
ghost use Rattle.mz_lex.specs.Places.{place_of};
ghost use Rattle.mz_math_theory.specs.declared.notation.Notation.{Notation};

use mz_base::Hashing;
use mz_lex::Places;
use mz_math_theory::{ElementRef, Notation};
use std::alloc::{AllocError, Global};
use std::collections::BTreeMap;
use std::marker::Model;

/// Where a constant stands: in which notation, and which of its elements it is.
#[derive(Clone, Copy)]
pub struct Spot {
    pub notation: usize,
    pub element: usize,
}

/// Notations in the order in which they were declared.
#[derive(Drop)]
pub struct NotationList {
    items: Vec<Notation>,
    // where the notation stands that begins with a constant, or has it behind its first parameter
    heads: Places<usize>,
    // one place of each constant
    constants: Places<Spot>,
    // where one notation of each precedence stands
    levels: BTreeMap<u32, usize>,
}

impl Model for NotationList {
    ghost use Rattle.std.specs.Prelude.{List};
    ghost use Rattle.mz_math_theory.specs.declared.notation.Notation.{Notation};
    ghost use Rattle.mz_math_operators.specs.Headed.{AreFound, AreLevelled, IsHeadedBy};
    ghost use Rattle.mz_lex.specs.Places.{LeadsTo};

    ghost Value = { List Notation };

    ghost view = { λ a. a.items.items };

    ghost invariant = { λ a. LeadsTo IsHeadedBy a.heads a.items.items × AreFound a.constants a.items.items × AreLevelled a.levels a.items.items };
}

impl NotationList {
    /// No notations.
    pub fn new(alloc: Global, hashing: Hashing) -> NotationList
        ensures { result ≡ [] }
    {
        NotationList {
            items: Vec::new(alloc),
            heads: Places::new(alloc, hashing),
            constants: Places::new(alloc, hashing),
            levels: BTreeMap::new(alloc),
        }
    }

    /// The notation that a constant makes, if there is one.
    fn headed_by(&self, token: &[u8]) -> Option<&Notation>
        ensures { MatchOption result ((k : Notation) → Contains self.now k → IsHeadedBy k token.now → ⊥) (λ k. Contains self.now k.now × ((l : Notation) → Contains self.now l → IsHeadedBy l token.now → l ≡ k.now)) }
    {
        let place = self.heads.get(token)?;
        self.items.get(place)
    }

    /// The notation that begins with this constant.
    pub fn led_by(&self, token: &[u8]) -> Option<&Notation>
        ensures { MatchOption result ((k : Notation) × Contains self.now k × LedBy k token.now → ⊥) (λ k. Contains self.now k.now × LedBy k.now token.now) }
    {
        match self.headed_by(token) {
            None => None,
            Some(k) => { if k.is_led_by(token) { Some(k) } else { None } }
        }
    }

    /// The notation with this constant behind its first parameter.
    pub fn joined_by(&self, token: &[u8]) -> Option<&Notation>
        ensures { MatchOption result ((k : Notation) → Contains self.now k → JoinedBy k token.now → ⊥) (λ k. Contains self.now k.now × JoinedBy k.now token.now) }
    {
        match self.headed_by(token) {
            None => None,
            Some(k) => { if k.is_joined_by(token) { Some(k) } else { None } }
        }
    }

    /// The precedence of a constant of one of the notations.
    pub fn level_of(&self, token: &[u8]) -> Option<u32>
        ensures { MatchOption result ((q : ℕ) → HasConstant self.now token.now q → ⊥) (λ q. HasConstant self.now token.now q) }
    {
        level_in(&self.constants, &self.items, token)
    }

    /// Whether one of the notations of this precedence groups to the right, if there are any.
    pub fn grouping_at(&self, level: u32) -> Option<bool>
        ensures { MatchOption result ((k : Notation) → Contains self.now k → k.level ≡ level → ⊥) (λ right. (k : Notation) × Contains self.now k × (k.level ≡ level) × (k.is_right ≡ right)) }
    {
        grouping_in(&self.levels, &self.items, level)
    }

    /// Adds a notation whose constant makes none yet.
    ///
    /// # Errors
    ///
    /// Where there is no memory. The notations are unchanged then.
    pub fn push(&mut self, alloc: Global, notation: Notation) -> Result<(), AllocError>
        requires headed { (w : List ℕ) × IsHeadedBy notation w }
        requires other { (k : Notation) (w : List ℕ) → Contains self.old k → IsHeadedBy notation w → IsHeadedBy k w → ⊥ }
        ensures ok { OnOk result (self.new ≡ self.old ++ notation ∷ []) }
        ensures err { OnErr result (self.new ≡ self.old) }
    {
        note_constants(&mut self.constants, alloc, &self.items, &notation)?;
        note_level(&mut self.levels, &self.items, &notation)?;
        note_head(&mut self.heads, alloc, &notation, self.items.len())?;
        self.items.push(notation)?;
        Ok(())
    }
}

/// The precedence of a constant of one of the notations.
fn level_in(constants: &Places<Spot>, items: &[Notation], token: &[u8]) -> Option<u32>
    requires { AreFound constants.now items.now }
    ensures { MatchOption result ((q : ℕ) → HasConstant items.now token.now q → ⊥) (λ q. HasConstant items.now token.now q) }
{
    let spot = constants.get(token)?;
    let notation = items.get(spot.notation)?;
    let element = notation.elements.listed().get(spot.element)?;
    element.level_of(token)
}

/// What is kept for a precedence.
fn place_at(levels: &BTreeMap<u32, usize>, level: u32) -> Option<usize>
    ensures { result ≡ place_at_level levels.now level }
{
    levels.get(&level).copied()
}

/// Whether one of the notations of a precedence groups to the right, if there are any.
fn grouping_in(levels: &BTreeMap<u32, usize>, items: &[Notation], level: u32) -> Option<bool>
    requires { AreLevelled levels.now items.now }
    ensures { MatchOption result ((k : Notation) → Contains items.now k → k.level ≡ level → ⊥) (λ right. (k : Notation) × Contains items.now k × (k.level ≡ level) × (k.is_right ≡ right)) }
{
    let place = place_at(levels, level)?;
    let notation = items.get(place)?;
    if notation.level == level {
        Some(notation.is_right)
    } else {
        None
    }
}

/// Notes where one more notation stands, where there is none of its precedence.
fn note_level(
    levels: &mut BTreeMap<u32, usize>,
    items: &[Notation],
    notation: &Notation,
) -> Result<(), AllocError>
    requires { AreLevelled levels.old items.now }
    ensures found { AreLevelled levels.new items.now }
    ensures ok { OnOk result (AreLevelled levels.new (items.now ++ notation.now ∷ [])) }
{
    match grouping_in(levels, items, notation.level) {
        Some(_) => Ok(()),
        None => {
            levels.insert(notation.level, items.len())?;
            Ok(())
        }
    }
}

/// Notes the place of the notation that a constant makes.
fn note_head(
    heads: &mut Places<usize>,
    alloc: Global,
    notation: &Notation,
    place: usize,
) -> Result<(), AllocError>
    requires { (w : List ℕ) × IsHeadedBy notation.now w }
    ensures ok { OnOk result ((v : List ℕ) × IsHeadedBy notation.now v × ((w : List ℕ) → place_of heads.new w ≡ (if bytes_eq v w then Some place else place_of heads.old w))) }
    ensures err { OnErr result (heads.new ≡ heads.old) }
{
    let Some(constant) = notation.head_constant() else {
        unreachable!()
    };
    heads.insert(alloc, constant, place)?;
    Ok(())
}

/// Notes where the constants of one more notation stand.
fn note_constants(
    constants: &mut Places<Spot>,
    alloc: Global,
    items: &[Notation],
    notation: &Notation,
) -> Result<(), AllocError>
    requires { AreFound constants.old items.now }
    ensures found { AreFound constants.new items.now }
    ensures ok { OnOk result (AreFound constants.new (items.now ++ notation.now ∷ [])) }
{
    for place in 0..notation.elements.listed().len() {
        note_constant(constants, alloc, items, notation, place)?;
    }
    Ok(())
}

/// Notes where the constant at a place of one more notation stands, where it is none of the others'.
fn note_constant(
    constants: &mut Places<Spot>,
    alloc: Global,
    items: &[Notation],
    notation: &Notation,
    place: usize,
) -> Result<(), AllocError>
    requires { AreFound constants.old items.now }
    ensures found { AreFound constants.new items.now }
    ensures ok { OnOk result (IsNoted constants.new items.now notation.now place) }
    ensures kept { (i : ℕ) → IsNoted constants.old items.now notation.now i → IsNoted constants.new items.now notation.now i }
{
    match notation.elements.get(place) {
        None => Ok(()),
        Some(ElementRef::Slot(_)) => Ok(()),
        Some(ElementRef::Fixed(constant, _)) => {
            let word = constant.as_slice();
            match level_in(constants, items, word) {
                Some(_) => Ok(()),
                None => {
                    let spot = Spot {
                        notation: items.len(),
                        element: place,
                    };
                    constants.insert(alloc, word, spot)?;
                    Ok(())
                }
            }
        }
    }
}
