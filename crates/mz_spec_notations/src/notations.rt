// Statements for math strings: operators, coercions, delimiters and general notations.
ghost use Rattle.std.specs.Prelude.{◌≡◌, ◌+◌, ◌<◌, ◌^◌, ◌++◌, ◌∷◌, ⊤, [], MatchOption, OnOk, length, map, option_map};
ghost use Rattle.mz_base.specs.Checks.{AllHold, each_in_order};
ghost use Rattle.mz_spec_theory.specs.StatementCode.{coercion as coercion_lem, delimiter as delimiter_lem, lexeme, level as level_lem, literal as literal_lem, notation as notation_lem, operator as operator_lem, tail as tail_lem};
ghost use Rattle.mz_math_theory.specs.Forms.{IsAnswer, notation_checks};
ghost use Rattle.mz_spec_rules.specs.Answers.{JudgesStatement};
ghost use Rattle.mz_spec_variables.specs.Code.{AreParts, variable};
ghost use Rattle.mz_spec_theory.specs.Declaring.{After};
ghost use Rattle.mz_spec_rules.specs.Entries.{state as state_lem};
ghost use Rattle.mz_spec_theory.specs.Formulas.{inner as inner_lem};
ghost use Rattle.mz_spec_theory.specs.Forms.{AreLiterals, MakesNotation, level_of as level_of_lem, tail_of as tail_of_lem};
ghost use Rattle.mz_spec_theory.specs.Kept.{IsKept, IsSpelled};
ghost use Rattle.mz_spec_notations.specs.Noting.{halt_of as halt_of_lem};
ghost use Rattle.mz_spec_theory.specs.Rules.{are_others, is_level};
ghost use Rattle.mz_spec_variables.specs.Index.{IsIndexOf};
ghost use Rattle.mz_spec_theory.specs.View.{literal_levels, tail_levels, view};

use crate::literals::Literals;
use mz_lex::S;
use mz_math_theory::{NoteFault, Tail};
use mz_spec_rules::{State, check_known, index_of, inner, level_of, tail_of};
use mz_spec_theory::{
    CoercionText, DelimiterText, Fault, Fixity, Halt, Lexeme, NotationText, OperatorText,
};
use mz_spec_variables::{NameIndex, Parts};
use std::alloc::Global;

// ---- operators

/// Adds the operator of this precedence to the table.
fn note_operator<'a>(
    state: &mut State<'a>,
    operator: OperatorText<'a>,
    level: Option<u32>,
) -> Result<(), NoteFault>
    requires kept { IsKept (state_lem state.old) }
    requires few { length state.old.spans.items + 1 < 2 ^ 32 }
    requires level { level ≡ level_of_lem (level_lem operator.level) }
    ensures answer { IsAnswer result (notation_checks (state_lem state.old).table (MakesNotation (state_lem state.old) (operator_lem operator.entry))) }
    ensures after { OnOk result (After (state_lem state.old) 0 (operator_lem operator.entry) (state_lem state.new)) }
{
    let term = state.term_number(operator.name);
    let constant = inner(operator.constant);
    match operator.fixity {
        Fixity::InfixLeft => state
            .notations
            .add_infix(&state.env, term, constant, level, false),
        Fixity::InfixRight => state
            .notations
            .add_infix(&state.env, term, constant, level, true),
        Fixity::Prefix => state
            .notations
            .add_prefix(&state.env, term, constant, level),
    }
}

/// Adds the notation of `infixl`, `infixr` or `prefix`.
pub fn add_operator<'a>(
    state: &mut State<'a>,
    place: u32,
    operator: OperatorText<'a>,
) -> Result<(), Halt>
    requires kept { IsKept (state_lem state.old) }
    requires few { length state.old.spans.items + 1 < 2 ^ 32 }
    requires spelled { IsSpelled (operator_lem operator) }
    ensures judged { JudgesStatement result (state_lem state.old) place (operator_lem operator.entry) }
    ensures after { OnOk result (After (state_lem state.old) place (operator_lem operator.entry) (state_lem state.new)) }
{
    let level = level_of(operator.level)?;
    state.check_known_term(operator.name)?;
    match note_operator(state, operator, level) {
        Ok(()) => Ok(()),
        Err(fault) => Err(halt_of(place, fault)),
    }
}

// ---- coercions

/// Adds a coercion.
pub fn add_coercion<'a>(
    state: &mut State<'a>,
    place: u32,
    coercion: CoercionText<'a>,
) -> Result<(), Halt>
    requires kept { IsKept (state_lem state.old) }
    requires few { length state.old.spans.items + 1 < 2 ^ 32 }
    ensures judged { JudgesStatement result (state_lem state.old) place (coercion_lem coercion.entry) }
    ensures after { OnOk result (After (state_lem state.old) place (coercion_lem coercion.entry) (state_lem state.new)) }
{
    state.check_known_term(coercion.name)?;
    check_known(&state.sort_names, coercion.from)?;
    check_known(&state.sort_names, coercion.to)?;
    let term = state.term_number(coercion.name);
    let from = state.sort_number(coercion.from);
    let to = state.sort_number(coercion.to);
    match state.notations.add_coercion(&state.env, term, from, to) {
        Ok(()) => Ok(()),
        Err(fault) => Err(halt_of(place, fault)),
    }
}

// ---- delimiters

/// Adds delimiters.
pub fn add_delimiter<'a>(
    state: &mut State<'a>,
    place: u32,
    delimiter: DelimiterText<'a>,
) -> Result<(), Halt>
    requires kept { IsKept (state_lem state.old) }
    requires few { length state.old.spans.items + 1 < 2 ^ 32 }
    ensures judged { JudgesStatement result (state_lem state.old) place (delimiter_lem delimiter.entry) }
    ensures after { OnOk result (After (state_lem state.old) place (delimiter_lem delimiter.entry) (state_lem state.new)) }
{
    let left = inner(delimiter.left);
    let right = inner_of(delimiter.right);
    match state.notations.add_delimiter(&state.env, left, right) {
        Ok(()) => Ok(()),
        Err(fault) => Err(halt_of(place, fault)),
    }
}

// ---- general notations

/// Adds the general notation of these parts, literals and tail to the table.
fn note_general<'a>(
    state: &mut State<'a>,
    alloc: Global,
    index: &Option<NameIndex<'a>>,
    notation: &NotationText<'a>,
    parts: &Parts<'_, 'a>,
    literals: &Literals,
    tail: Option<Tail>,
) -> Result<(), NoteFault>
    requires kept { IsKept (state_lem state.old) }
    requires few { length state.old.spans.items + 1 < 2 ^ 32 }
    requires spelled { IsSpelled (notation_lem notation.now) }
    requires parts { AreParts parts.now (view (notation_lem notation.now)).variables (view (notation_lem notation.now)).types (view (notation_lem notation.now)).result }
    requires index { MatchOption index.now ⊤ (IsIndexOf (map variable parts.now.params.items)) }
    requires others { AllHold (are_others [] (view (notation_lem notation.now)).variables) }
    requires literals { AreLiterals literals.now.text.items (map literal_lem notation.now.literals.items ++ literal_lem notation.now.last ∷ []) literals.now.spans.items }
    requires tail { tail ≡ tail_of_lem (option_map tail_lem notation.now.tail) }
    ensures answer { IsAnswer result (notation_checks (state_lem state.old).table (MakesNotation (state_lem state.old) (notation_lem notation.now))) }
    ensures after { OnOk result (After (state_lem state.old) 0 (notation_lem notation.now) (state_lem state.new)) }
{
    let Ok(result_type) = state.result_of(alloc, index, parts, &notation.result) else {
        return Err(NoteFault::Mem);
    };
    let Ok(scope) = state.scope_of(alloc, index, parts) else {
        return Err(NoteFault::Mem);
    };
    let term = state.term_number(notation.head.name);
    state.notations.add_general(
        &state.env,
        term,
        &scope,
        &result_type,
        &literals.text,
        &literals.spans,
        tail,
    )
}

/// Adds a general notation.
pub fn add_notation<'a>(
    state: &mut State<'a>,
    alloc: Global,
    place: u32,
    notation: &NotationText<'a>,
) -> Result<(), Halt>
    requires kept { IsKept (state_lem state.old) }
    requires few { length state.old.spans.items + 1 < 2 ^ 32 }
    requires spelled { IsSpelled (notation_lem notation.now) }
    ensures judged { JudgesStatement result (state_lem state.old) place (notation_lem notation.now) }
    ensures after { OnOk result (After (state_lem state.old) place (notation_lem notation.now) (state_lem state.new)) }
{
    let literals = Literals::of(alloc, &notation.literals, notation.last)?;
    let tail = tail_of(notation.tail)?;
    let parts = Parts::of_notation(alloc, notation)?;
    notation_with(state, alloc, place, notation, &parts, &literals, tail)
}

/// Adds a general notation with these parts, literals and tail, whose precedences are right.
fn notation_with<'a>(
    state: &mut State<'a>,
    alloc: Global,
    place: u32,
    notation: &NotationText<'a>,
    parts: &Parts<'_, 'a>,
    literals: &Literals,
    tail: Option<Tail>,
) -> Result<(), Halt>
    requires kept { IsKept (state_lem state.old) }
    requires few { length state.old.spans.items + 1 < 2 ^ 32 }
    requires spelled { IsSpelled (notation_lem notation.now) }
    requires levels { AllHold (each_in_order is_level (literal_levels (map literal_lem notation.now.literals.items ++ literal_lem notation.now.last ∷ []))) }
    requires tail_level { AllHold (each_in_order is_level (tail_levels (option_map tail_lem notation.now.tail))) }
    requires parts { AreParts parts.now (view (notation_lem notation.now)).variables (view (notation_lem notation.now)).types (view (notation_lem notation.now)).result }
    requires literals { AreLiterals literals.now.text.items (map literal_lem notation.now.literals.items ++ literal_lem notation.now.last ∷ []) literals.now.spans.items }
    requires tail { tail ≡ tail_of_lem (option_map tail_lem notation.now.tail) }
    ensures judged { JudgesStatement result (state_lem state.old) place (notation_lem notation.now) }
    ensures after { OnOk result (After (state_lem state.old) place (notation_lem notation.now) (state_lem state.new)) }
{
    let index = index_of(alloc, state.hashing, parts)?;
    notation_over(state, alloc, &index, place, notation, parts, literals, tail)
}

/// The same with the index of the parameters.
fn notation_over<'a>(
    state: &mut State<'a>,
    alloc: Global,
    index: &Option<NameIndex<'a>>,
    place: u32,
    notation: &NotationText<'a>,
    parts: &Parts<'_, 'a>,
    literals: &Literals,
    tail: Option<Tail>,
) -> Result<(), Halt>
    requires kept { IsKept (state_lem state.old) }
    requires few { length state.old.spans.items + 1 < 2 ^ 32 }
    requires spelled { IsSpelled (notation_lem notation.now) }
    requires levels { AllHold (each_in_order is_level (literal_levels (map literal_lem notation.now.literals.items ++ literal_lem notation.now.last ∷ []))) }
    requires tail_level { AllHold (each_in_order is_level (tail_levels (option_map tail_lem notation.now.tail))) }
    requires index { MatchOption index.now ⊤ (IsIndexOf (map variable parts.now.params.items)) }
    requires parts { AreParts parts.now (view (notation_lem notation.now)).variables (view (notation_lem notation.now)).types (view (notation_lem notation.now)).result }
    requires literals { AreLiterals literals.now.text.items (map literal_lem notation.now.literals.items ++ literal_lem notation.now.last ∷ []) literals.now.spans.items }
    requires tail { tail ≡ tail_of_lem (option_map tail_lem notation.now.tail) }
    ensures judged { JudgesStatement result (state_lem state.old) place (notation_lem notation.now) }
    ensures after { OnOk result (After (state_lem state.old) place (notation_lem notation.now) (state_lem state.new)) }
{
    state.check_notation(alloc, index, place, notation.head.name, parts)?;
    match note_general(state, alloc, index, notation, parts, literals, tail) {
        Ok(()) => Ok(()),
        Err(fault) => Err(halt_of(place, fault)),
    }
}

/// A fault of the table, reported of the statement at a place.
fn halt_of(place: u32, fault: NoteFault) -> Halt
    ensures { result ≡ halt_of_lem place fault }
{
    let rule = match fault {
        NoteFault::Mem => return Halt::Mem,
        NoteFault::Form => S::NotationForm,
        NoteFault::Clash => S::NotationClash,
        NoteFault::CoercionClash => S::CoercionClash,
    };
    Halt::Fault(Fault { at: place, rule })
}

/// What stands between the `$` of a math string that may be missing.
fn inner_of<'a>(math: Option<Lexeme<'a>>) -> Option<&'a [u8]>
    ensures { option_map (λ bytes. bytes.now) result ≡ option_map inner_lem (option_map lexeme math.entry) }
{
    match math {
        Some(math) => Some(inner(math)),
        None => None,
    }
}
