// The notation that a statement makes, where it is of its form.
ghost use Rattle.std.specs.Prelude.{◌≡◌, ◌≤◌, ◌<◌, ◌+◌, ◌-◌, ◌^◌, ◌↔◌, ◌∷◌, [], ℕ, Bool, IfOk, IsTrue, MatchOption, drop, length, slice_range};
ghost use Rattle.std.specs.Result.{result_map_both};
ghost use Rattle.mz_logic_theory.specs.Alike.{deps_at};
ghost use Rattle.mz_logic_theory.specs.Declaration.{signatures};
ghost use Rattle.mz_math_theory.specs.NotationAnswers.{IsMade, IsNotationOf};
ghost use Rattle.mz_math_operators.specs.Given.{general};
ghost use Rattle.mz_math_theory.specs.Forms.{AreElements, Begins, IsCoercion, IsElement, IsGeneral, IsInfix, IsPrefix, IsSpan};
ghost use Rattle.mz_math_theory.specs.Kept.{AreVariables};
ghost use Rattle.mz_math_theory.specs.declared.notation.Element.TheVariants.{Fixed as fixed, Slot as slot};
ghost use Rattle.mz_math_theory.specs.Listed.{slots};

use crate::parameters::each_once;
use crate::scope::Scope;
use mz_lex::{Bytes, Delimiters};
use mz_logic_theory::{Binder, Binders, Env, ResultType};
use mz_math_theory::{
    Coercion, Element, Elements, Literal, Notation, NoteFault, Tail, level_number,
};
use std::alloc::{AllocError, Global};

/// The parts of a `notation` statement.
#[derive(Clone, Copy)]
pub struct Statement<'a> {
    pub term: u32,
    pub params: &'a Scope,
    pub result: &'a ResultType,
    pub text: &'a [u8],
    pub literals: &'a [Literal],
    pub tail: Option<Tail>,
}

/// The notation that `infixl` or `infixr` makes.
pub fn infix_of(
    alloc: Global,
    delimiters: &Delimiters,
    env: &Env,
    term: u32,
    constant: &[u8],
    level: Option<u32>,
    right: bool,
) -> Result<Notation, NoteFault>
    ensures { IsMade result (IsInfix (signatures env.now) delimiters.now term constant.now level right) }
{
    let Some(decl) = env.term(term) else {
        return Err(NoteFault::Form);
    };
    if decl.params.len() != 2 {
        return Err(NoteFault::Form);
    }
    let Some(word) = delimiters.constant(constant) else {
        return Err(NoteFault::Form);
    };
    let level = level_number(level);
    match infix_elements(alloc, word, level) {
        Err(_) => Err(NoteFault::Mem),
        Ok(elements) => Ok(Notation {
            term,
            level,
            is_right: right,
            elements,
        }),
    }
}

/// A constant between the places of two parameters.
fn infix_elements(alloc: Global, word: &[u8], level: u32) -> Result<Elements, AllocError>
    ensures { IfOk result (λ all. all ≡ slot 0 ∷ fixed word.now level ∷ slot 1 ∷ []) }
{
    let mut elements = Vec::new(alloc);
    elements.push(Element::Slot(0))?;
    elements.push(Element::Fixed(Bytes::copy_of(alloc, word)?, level))?;
    elements.push(Element::Slot(1))?;
    Ok(Elements::from_vec(elements))
}

/// The notation that `prefix` makes.
pub fn prefix_of(
    alloc: Global,
    delimiters: &Delimiters,
    env: &Env,
    term: u32,
    constant: &[u8],
    level: Option<u32>,
) -> Result<Notation, NoteFault>
    ensures { IsMade result (IsPrefix (signatures env.now) delimiters.now term constant.now level) }
{
    let Some(decl) = env.term(term) else {
        return Err(NoteFault::Form);
    };
    let Some(word) = delimiters.constant(constant) else {
        return Err(NoteFault::Form);
    };
    let level = level_number(level);
    match prefix_elements(alloc, word, level, decl.params.as_slice().len()) {
        Err(_) => Err(NoteFault::Mem),
        Ok(elements) => Ok(Notation {
            term,
            level,
            is_right: true,
            elements,
        }),
    }
}

/// A constant before the places of so many parameters.
fn prefix_elements(
    alloc: Global,
    word: &[u8],
    level: u32,
    many: usize,
) -> Result<Elements, AllocError>
    requires { many < 2 ^ 63 }
    ensures { IfOk result (λ all. all ≡ fixed word.now level ∷ slots 0 many) }
{
    Elements::of_prefix(alloc, Bytes::copy_of(alloc, word)?, level, many)
}

/// What a literal stands for: a constant, or the place of a parameter.
fn element_of(
    alloc: Global,
    delimiters: &Delimiters,
    params: &Scope,
    text: &[u8],
    literal: Literal,
) -> Result<Element, NoteFault>
    ensures { IsMade result (IsElement delimiters.now params.now.names text.now literal) }
{
    match literal {
        Literal::Constant { from, to, level } => {
            let Some(string) = span(text, from, to) else {
                return Err(NoteFault::Form);
            };
            let Some(word) = delimiters.constant(string) else {
                return Err(NoteFault::Form);
            };
            match Bytes::copy_of(alloc, word) {
                Err(_) => Err(NoteFault::Mem),
                Ok(word) => Ok(Element::Fixed(word, level_number(level))),
            }
        }
        Literal::Name { from, to } => {
            let Some(name) = span(text, from, to) else {
                return Err(NoteFault::Form);
            };
            match params.place_of(name) {
                None => Err(NoteFault::Form),
                Some(place) => Ok(Element::Slot(place as usize)),
            }
        }
    }
}

/// The bytes of a text between two places, if they stand in it.
fn span(text: &[u8], from: u32, to: u32) -> Option<&[u8]>
    ensures { MatchOption result (IsSpan text.now from to → ⊥) (λ bytes. IsSpan text.now from to × (bytes.now ≡ slice_range text.now from to)) }
{
    if from <= to && to as usize <= text.len() {
        Some(&text[from as usize..to as usize])
    } else {
        None
    }
}

fn literal_at(literals: &[Literal], at: usize) -> Option<&Literal>
    ensures literal { MatchOption result (drop at literals.now ≡ []) (λ l. drop at literals.now ≡ l.now ∷ drop (at + 1) literals.now) }
    ensures within { MatchOption result (length literals.now ≤ at) (λ l. at < length literals.now) }
{
    literals.get(at)
}

/// What the literals stand for.
fn elements_of(
    alloc: Global,
    delimiters: &Delimiters,
    params: &Scope,
    text: &[u8],
    literals: &[Literal],
) -> Result<Vec<Element>, NoteFault>
    ensures { IsMade (result_map_both (λ all. all.items) (λ fault. fault) result) (AreElements delimiters.now params.now.names text.now literals.now) }
{
    let mut elements = Vec::new(alloc);
    let mut i = 0;
    'literals: while let Some(literal) = literal_at(literals, i) {
        match element_of(alloc, delimiters, params, text, *literal) {
            Err(fault) => return Err(fault),
            Ok(element) => {
                let Ok(()) = elements.push(element) else {
                    return Err(NoteFault::Mem);
                };
            }
        }
        i += 1;
    }
    Ok(elements)
}

/// The precedence of a notation, and whether it groups to the right, by how it begins and by its
/// tail.
fn head_of(elements: &[Element], tail: Option<Tail>) -> Option<(u32, bool)>
    ensures { MatchOption result ((level : ℕ) (right : Bool) → Begins elements.now tail level right → ⊥) (λ head. Begins elements.now tail head.0 head.1) }
{
    match elements {
        [Element::Fixed(_, level), ..] => match tail {
            None => Some((*level, true)),
            Some(_) => None,
        },
        [Element::Slot(_), Element::Fixed(_, level), ..] => match tail {
            None => None,
            Some(tail) => {
                if *level == level_number(tail.level) {
                    Some((*level, tail.right))
                } else {
                    None
                }
            }
        },
        _ => None,
    }
}

/// Whether two binders are the same, which may be known to depend on the same.
fn same_binder(a: &Binder, b: &Binder, alike: bool) -> bool
    requires { IsTrue alike → a.now.deps ≡ b.now.deps }
    ensures { IsTrue result ↔ (a.now ≡ b.now) }
{
    a.sort == b.sort && a.bound == b.bound && (alike || a.deps.as_slice() == b.deps.as_slice())
}

/// Whether in both lists the i-th one shares what it depends on with the one before it.
fn both_share(xs: &Binders, ys: &Binders, i: usize) -> bool
    ensures { IsTrue result → (0 < i) × (deps_at xs.now (i - 1) ≡ deps_at xs.now i) × (deps_at ys.now (i - 1) ≡ deps_at ys.now i) }
{
    i > 0 && xs.shares_with_previous(i) && ys.shares_with_previous(i)
}

/// Whether the binders are the same. What those that share it depend on is compared once.
fn same_binders(xs: &Binders, ys: &Binders) -> bool
    ensures { IsTrue result ↔ (xs.now ≡ ys.now) }
{
    let left = xs.as_slice();
    let right = ys.as_slice();
    if left.len() != right.len() {
        return false;
    }
    for i in 0..left.len() {
        let alike = both_share(xs, ys, i);
        if !same_binder(&left[i], &right[i], alike) {
            return false;
        }
    }
    true
}

fn same_result(a: &ResultType, b: &ResultType) -> bool
    ensures { IsTrue result ↔ (a.now ≡ b.now) }
{
    a.sort == b.sort && a.deps.as_slice() == b.deps.as_slice()
}

/// The notation that a `notation` statement makes.
pub fn general_of(
    alloc: Global,
    delimiters: &Delimiters,
    env: &Env,
    statement: Statement<'_>,
) -> Result<Notation, NoteFault>
    ensures made { IsMade result (IsGeneral (signatures env.now) delimiters.now (general statement.entry)) }
    ensures names { AreVariables (general statement.entry).names }
{
    let binders = statement.params.binders();
    let Some(decl) = env.term(statement.term) else {
        return Err(NoteFault::Form);
    };
    if !same_binders(&decl.params, binders) || !same_result(&decl.result, statement.result) {
        return Err(NoteFault::Form);
    }
    match elements_of(
        alloc,
        delimiters,
        statement.params,
        statement.text,
        statement.literals,
    ) {
        Err(fault) => Err(fault),
        Ok(elements) => notation_of(alloc, statement, elements),
    }
}

/// The notation of these elements, where each parameter is named once and they begin as the tail asks.
fn notation_of(
    alloc: Global,
    statement: Statement<'_>,
    elements: Vec<Element>,
) -> Result<Notation, NoteFault>
    ensures { IsMade result (IsNotationOf (general statement.entry) elements.items) }
{
    let many = statement.params.binders().len();
    let once = each_once(alloc, many, &elements)?;
    if !once {
        return Err(NoteFault::Form);
    }
    match head_of(&elements, statement.tail) {
        None => Err(NoteFault::Form),
        Some((level, is_right)) => Ok(Notation {
            term: statement.term,
            level,
            is_right,
            elements: Elements::from_vec(elements),
        }),
    }
}

/// Whether the coercion's term has one regular parameter of its sort and a result of the other.
pub fn is_coercion(env: &Env, coercion: Coercion) -> bool
    ensures { IsTrue result ↔ IsCoercion (signatures env.now) coercion }
{
    let Some(decl) = env.term(coercion.term) else {
        return false;
    };
    match decl.params.as_slice() {
        [param] => !param.bound && param.sort == coercion.from && decl.result.sort == coercion.to,
        _ => false,
    }
}
