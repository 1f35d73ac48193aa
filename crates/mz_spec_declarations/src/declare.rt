// Statements that declare something: sorts, terms, axioms and theorems, and definitions.
ghost use Rattle.std.specs.Prelude.{◌≡◌, ◌+◌, ◌<◌, ◌^◌, ◌++◌, ◌∷◌, ⊤, [], List, Some, IfErr, IfOk, IsTrue, MatchOption, OnOk, length, map, option_map};
ghost use Rattle.mz_spec_theory.specs.StatementCode.{assertion as assertion_lem, definition as definition_lem, head, lexeme, modifiers as modifiers_lem, source, term as term_lem};
ghost use Rattle.mz_base.specs.Checks.{AllHold};
ghost use Rattle.mz_spec_theory.specs.Statement.{TypeText as TypeLem, sort_statement};
ghost use Rattle.mz_base.specs.Identifiers.{is_name};
ghost use Rattle.mz_logic_theory.specs.DeclView.{assertion_of as assertion_of_lem, form, is_axiom as is_axiom_lem, term_of as term_of_lem};
ghost use Rattle.mz_logic_theory.specs.Legality.{IsLegalDecl};
ghost use Rattle.mz_logic_theory.specs.View.{tree};
ghost use Rattle.mz_math_theory.specs.Kept.{AreVariables};
ghost use Rattle.mz_lex.specs.declared.tokens.MathToken.{MathToken};
ghost use Rattle.mz_spec_rules.specs.Answers.{JudgesOrMem, JudgesStatement};
ghost use Rattle.mz_spec_variables.specs.Code.{AreGrouped, AreParts, all_of, variable};
ghost use Rattle.mz_spec_theory.specs.SpecCode.{EndsSmall, stated as stated_lem};
ghost use Rattle.mz_spec_theory.specs.Declaring.{After, Declares, IsForm, is_axiom, sort_bits};
ghost use Rattle.mz_spec_rules.specs.Entries.{state as state_lem};
ghost use Rattle.mz_spec_theory.specs.Kept.{IsKept, IsSpelled};
ghost use Rattle.mz_spec_theory.specs.Formulas.{AreHyps, AreTokens, IsMeant, math_of, strings_checks};
ghost use Rattle.mz_base.specs.Names.{IsNew};
ghost use Rattle.mz_spec_variables.specs.Index.{IsIndexOf};
ghost use Rattle.mz_spec_theory.specs.Dependencies.{Every};
ghost use Rattle.mz_spec_theory.specs.Rules.{body_rules, new_name};
ghost use Rattle.mz_spec_theory.specs.State.{result_of, scope_of, variable_bytes, with_term};
ghost use Rattle.mz_spec_theory.specs.View.{Variable as VariableLem, body, body_formulas, claim, stated_of as stated_of_lem, view};

use crate::formulas::{
    admits_free_variables, formula, hyps_of, push_group_stated, push_premise_stated,
};
use mz_lex::S;
use mz_logic_theory::{
    Decl, Expr, Hyps, ResultType, SortMods, TermDecl, TermForm, ThmDecl, ThmForm,
};
use mz_math::Scope;
use mz_math_theory::Wanted;
use mz_spec_rules::{State, check_new, index_of};
use mz_spec_theory::{
    AssertKind, AssertText, DefinitionText, Fault, Halt, Lexeme, Modifiers, NameSpan, Stated,
    TermText,
};
use mz_spec_variables::{NameIndex, Parts};
use std::alloc::{AllocError, Global};

/// The modifiers as the logic has them.
fn mods(modifiers: Modifiers) -> SortMods
    ensures { result.0 ≡ sort_bits (modifiers_lem modifiers) }
{
    SortMods(
        u8::from(modifiers.is_pure)
            + 2 * u8::from(modifiers.is_strict)
            + 4 * u8::from(modifiers.is_provable)
            + 8 * u8::from(modifiers.is_free),
    )
}

fn span_of(name: Lexeme<'_>, place: u32) -> NameSpan
    ensures { result ≡ record { from = name.entry.from; to = name.entry.to; place = place } }
{
    NameSpan {
        from: name.from,
        to: name.to,
        place,
    }
}

fn thm_form(kind: AssertKind) -> ThmForm
    ensures { is_axiom_lem result ≡ is_axiom kind }
{
    match kind {
        AssertKind::Axiom => ThmForm::Axiom,
        AssertKind::Theorem => ThmForm::Theorem,
    }
}

/// The formulas that make the hypotheses of an axiom or a theorem, in order.
fn stated_of<'a>(alloc: Global, assertion: &AssertText<'a>) -> Result<Vec<Stated<'a>>, AllocError>
    ensures { IfOk result (λ stated. map stated_lem stated.items ≡ stated_of_lem (head assertion.now.head).groups (map source assertion.now.premises.items)) }
{
    let mut stated = Vec::new(alloc);
    push_group_stated(&mut stated, &assertion.head.groups)?;
    push_premise_stated(&mut stated, &assertion.premises)?;
    Ok(stated)
}

/// Adds a sort.
pub fn add_sort<'a>(
    state: &mut State<'a>,
    place: u32,
    modifiers: Modifiers,
    name: Lexeme<'a>,
) -> Result<(), Halt>
    requires kept { IsKept (state_lem state.old) }
    requires few { length state.old.spans.items + 1 < 2 ^ 32 }
    ensures judged { JudgesStatement result (state_lem state.old) place (sort_statement (modifiers_lem modifiers) (lexeme name.entry)) }
    ensures after { OnOk result (After (state_lem state.old) place (sort_statement (modifiers_lem modifiers) (lexeme name.entry)) (state_lem state.new)) }
{
    check_new(&state.sort_names, name)?;
    state.sort_names.push(name.bytes)?;
    state.env.push_decl(Decl::Sort(mods(modifiers)))?;
    state.spans.push(span_of(name, place))?;
    Ok(())
}

// ---- terms

/// Adds a term or a definition.
fn push_term<'a>(
    state: &mut State<'a>,
    place: u32,
    name: Lexeme<'a>,
    term: TermDecl,
) -> Result<(), Halt>
    requires kept { IsKept (state_lem state.old) }
    requires few { length state.old.spans.items + 1 < 2 ^ 32 }
    requires new { IsNew (state_lem state.old).term_names name.bytes.now }
    requires name { IsTrue (is_name name.bytes.now) }
    requires legal { IsLegalDecl state.old.env (term_of_lem term) }
    ensures mem { IfErr result (λ halt. halt ≡ Halt.Mem) }
    ensures with { OnOk result (state_lem state.new ≡ with_term (state_lem state.old) place (lexeme name.entry) (term_of_lem term)) }
{
    let number = state.notations.name_count() as u32;
    state.env.push_decl(Decl::Term(term))?;
    let Ok(()) = state
        .notations
        .add_term_name(&state.env, name.bytes, number)
    else {
        return Err(Halt::Mem);
    };
    state.spans.push(span_of(name, place))?;
    Ok(())
}

/// What a term declares.
fn term_of<'a>(
    state: &State<'a>,
    alloc: Global,
    place: u32,
    term: &TermText<'a>,
) -> Result<TermDecl, Halt>
    requires kept { IsKept (state_lem state.now) }
    requires few { length state.now.spans.items + 1 < 2 ^ 32 }
    requires spelled { IsSpelled (term_lem term.now) }
    ensures judged { JudgesStatement result (state_lem state.now) place (term_lem term.now) }
    ensures declares { IfOk result (λ d. Declares (state_lem state.now) (term_lem term.now) (term_of_lem d)) }
{
    state.check_new_term(term.head.name)?;
    let parts = Parts::of_term(alloc, term)?;
    term_with(state, alloc, place, term, &parts)
}

/// What a term of a new name, with these parts, declares.
fn term_with<'a>(
    state: &State<'a>,
    alloc: Global,
    place: u32,
    term: &TermText<'a>,
    parts: &Parts<'_, 'a>,
) -> Result<TermDecl, Halt>
    requires kept { IsKept (state_lem state.now) }
    requires few { length state.now.spans.items + 1 < 2 ^ 32 }
    requires spelled { IsSpelled (term_lem term.now) }
    requires new { AllHold (new_name (state_lem state.now).term_names (lexeme term.now.head.name)) }
    requires parts { AreParts parts.now (view (term_lem term.now)).variables (view (term_lem term.now)).types (view (term_lem term.now)).result }
    ensures judged { JudgesStatement result (state_lem state.now) place (term_lem term.now) }
    ensures declares { IfOk result (λ d. Declares (state_lem state.now) (term_lem term.now) (term_of_lem d)) }
{
    let index = index_of(alloc, state.hashing, parts)?;
    let decl = term_over(state, alloc, &index, place, term, parts);
    drop(index);
    decl
}

/// The same with the index of the parameters.
fn term_over<'a>(
    state: &State<'a>,
    alloc: Global,
    index: &Option<NameIndex<'a>>,
    place: u32,
    term: &TermText<'a>,
    parts: &Parts<'_, 'a>,
) -> Result<TermDecl, Halt>
    requires kept { IsKept (state_lem state.now) }
    requires few { length state.now.spans.items + 1 < 2 ^ 32 }
    requires spelled { IsSpelled (term_lem term.now) }
    requires new { AllHold (new_name (state_lem state.now).term_names (lexeme term.now.head.name)) }
    requires index { MatchOption index.now ⊤ (IsIndexOf (map variable parts.now.params.items)) }
    requires parts { AreParts parts.now (view (term_lem term.now)).variables (view (term_lem term.now)).types (view (term_lem term.now)).result }
    ensures judged { JudgesStatement result (state_lem state.now) place (term_lem term.now) }
    ensures declares { IfOk result (λ d. Declares (state_lem state.now) (term_lem term.now) (term_of_lem d)) }
{
    state.check_parts(alloc, index, place, parts)?;
    Ok(TermDecl {
        params: state.binders_of(alloc, index, &parts.params, &parts.params)?,
        result: state.result_of(alloc, index, parts, &term.result)?,
        form: TermForm::Plain,
    })
}

/// Adds a term.
pub fn add_term<'a>(
    state: &mut State<'a>,
    alloc: Global,
    place: u32,
    term: &TermText<'a>,
) -> Result<(), Halt>
    requires kept { IsKept (state_lem state.old) }
    requires few { length state.old.spans.items + 1 < 2 ^ 32 }
    requires spelled { IsSpelled (term_lem term.now) }
    ensures judged { JudgesStatement result (state_lem state.old) place (term_lem term.now) }
    ensures after { OnOk result (After (state_lem state.old) place (term_lem term.now) (state_lem state.new)) }
{
    let decl = term_of(state, alloc, place, term)?;
    push_term(state, place, term.head.name, decl)
}

// ---- definitions

/// The form of a definition, at a place, with these parts and this result: its dummies and its body,
/// where that is given.
fn form_of<'a>(
    state: &State<'a>,
    alloc: Global,
    index: &Option<NameIndex<'a>>,
    place: u32,
    parts: &Parts<'_, 'a>,
    result_type: &ResultType,
    body: Option<Lexeme<'a>>,
) -> Result<TermForm, Halt>
    requires kept { IsKept (state_lem state.now) }
    requires few { length state.now.spans.items + 1 < 2 ^ 32 }
    requires index { MatchOption index.now ⊤ (IsIndexOf (map variable parts.now.params.items)) }
    requires room { length parts.now.params.items + length parts.now.dummies.items < 2 ^ 32 }
    requires names { AreVariables (map variable_bytes (map variable parts.now.params.items) ++ map variable_bytes (map variable parts.now.dummies.items)) }
    requires small { Every EndsSmall (all_of (option_map lexeme body)) }
    requires parts { (vs : List VariableLem) × (ts : List TypeLem) × (t : TypeLem) × AreParts parts.now vs ts (t ∷ []) }
    ensures judged { (vs : List VariableLem) (ts : List TypeLem) (t : TypeLem) → AreParts parts.now vs ts (t ∷ []) → result_type.now ≡ result_of (state_lem state.now) vs t
        → (tokens : List (List MathToken)) → AreTokens (state_lem state.now) (body_formulas t (option_map lexeme body.entry)) tokens
        → JudgesOrMem result (body_rules (state_lem state.now) place vs (body_formulas t (option_map lexeme body.entry)) tokens) }
    ensures form { IfOk result (λ f. (vs : List VariableLem) (ts : List TypeLem) (t : TypeLem) → AreParts parts.now vs ts (t ∷ []) → result_type.now ≡ result_of (state_lem state.now) vs t
        → IsForm (state_lem state.now) vs t (option_map lexeme body.entry) (form f)) }
{
    match body {
        None => Ok(TermForm::Abstract),
        Some(body) => body_of(state, alloc, index, place, parts, result_type, body),
    }
}

/// The same with a body.
fn body_of<'a>(
    state: &State<'a>,
    alloc: Global,
    index: &Option<NameIndex<'a>>,
    place: u32,
    parts: &Parts<'_, 'a>,
    result_type: &ResultType,
    math: Lexeme<'a>,
) -> Result<TermForm, Halt>
    requires kept { IsKept (state_lem state.now) }
    requires few { length state.now.spans.items + 1 < 2 ^ 32 }
    requires index { MatchOption index.now ⊤ (IsIndexOf (map variable parts.now.params.items)) }
    requires room { length parts.now.params.items + length parts.now.dummies.items < 2 ^ 32 }
    requires names { AreVariables (map variable_bytes (map variable parts.now.params.items) ++ map variable_bytes (map variable parts.now.dummies.items)) }
    requires small { EndsSmall (lexeme math) }
    requires parts { (vs : List VariableLem) × (ts : List TypeLem) × (t : TypeLem) × AreParts parts.now vs ts (t ∷ []) }
    ensures judged { (vs : List VariableLem) (ts : List TypeLem) (t : TypeLem) → AreParts parts.now vs ts (t ∷ []) → result_type.now ≡ result_of (state_lem state.now) vs t
        → (tokens : List (List MathToken)) → AreTokens (state_lem state.now) (body (lexeme math.entry) t ∷ []) tokens
        → JudgesOrMem result (body_rules (state_lem state.now) place vs (body (lexeme math.entry) t ∷ []) tokens) }
    ensures form { IfOk result (λ f. (vs : List VariableLem) (ts : List TypeLem) (t : TypeLem) → AreParts parts.now vs ts (t ∷ []) → result_type.now ≡ result_of (state_lem state.now) vs t
        → IsForm (state_lem state.now) vs t (Some (lexeme math.entry)) (form f)) }
{
    let scope = state.scope_of(alloc, index, parts)?;
    let form = body_in(state, alloc, index, place, parts, result_type, &scope, math);
    drop(scope);
    form
}

/// The same with its variables in scope.
fn body_in<'a>(
    state: &State<'a>,
    alloc: Global,
    index: &Option<NameIndex<'a>>,
    place: u32,
    parts: &Parts<'_, 'a>,
    result_type: &ResultType,
    scope: &Scope,
    math: Lexeme<'a>,
) -> Result<TermForm, Halt>
    requires kept { IsKept (state_lem state.now) }
    requires few { length state.now.spans.items + 1 < 2 ^ 32 }
    requires index { MatchOption index.now ⊤ (IsIndexOf (map variable parts.now.params.items)) }
    requires room { length parts.now.params.items + length parts.now.dummies.items < 2 ^ 32 }
    requires names { AreVariables (map variable_bytes (map variable parts.now.params.items) ++ map variable_bytes (map variable parts.now.dummies.items)) }
    requires small { EndsSmall (lexeme math) }
    requires parts { (vs : List VariableLem) × (ts : List TypeLem) × (t : TypeLem) × AreParts parts.now vs ts (t ∷ []) }
    requires scope { (vs : List VariableLem) (types results : List TypeLem) → AreParts parts.now vs types results → scope.now ≡ scope_of (state_lem state.now) vs }
    ensures judged { (vs : List VariableLem) (ts : List TypeLem) (t : TypeLem) → AreParts parts.now vs ts (t ∷ []) → result_type.now ≡ result_of (state_lem state.now) vs t
        → (tokens : List (List MathToken)) → AreTokens (state_lem state.now) (body (lexeme math.entry) t ∷ []) tokens
        → JudgesOrMem result (body_rules (state_lem state.now) place vs (body (lexeme math.entry) t ∷ []) tokens) }
    ensures form { IfOk result (λ f. (vs : List VariableLem) (ts : List TypeLem) (t : TypeLem) → AreParts parts.now vs ts (t ∷ []) → result_type.now ≡ result_of (state_lem state.now) vs t
        → IsForm (state_lem state.now) vs t (Some (lexeme math.entry)) (form f)) }
{
    let body = formula(state, alloc, scope, math, Wanted::Sort(result_type.sort))?;
    let has = admits_free_variables(state, alloc, scope, &body, &result_type.deps)?;
    if !has {
        return Err(Halt::Fault(Fault {
            at: place,
            rule: S::DefinitionDependencies,
        }));
    }
    let dummies = state.binders_of(alloc, index, &parts.params, &parts.dummies)?;
    Ok(TermForm::Body { dummies, body })
}

/// What a definition declares.
fn definition_of<'a>(
    state: &State<'a>,
    alloc: Global,
    place: u32,
    definition: &DefinitionText<'a>,
) -> Result<TermDecl, Halt>
    requires kept { IsKept (state_lem state.now) }
    requires few { length state.now.spans.items + 1 < 2 ^ 32 }
    requires spelled { IsSpelled (definition_lem definition.now) }
    ensures judged { JudgesStatement result (state_lem state.now) place (definition_lem definition.now) }
    ensures declares { IfOk result (λ d. Declares (state_lem state.now) (definition_lem definition.now) (term_of_lem d)) }
{
    state.check_new_term(definition.head.name)?;
    let parts = Parts::of_definition(alloc, definition)?;
    definition_with(state, alloc, place, definition, &parts)
}

/// What a definition of a new name, with these parts, declares.
fn definition_with<'a>(
    state: &State<'a>,
    alloc: Global,
    place: u32,
    definition: &DefinitionText<'a>,
    parts: &Parts<'_, 'a>,
) -> Result<TermDecl, Halt>
    requires kept { IsKept (state_lem state.now) }
    requires few { length state.now.spans.items + 1 < 2 ^ 32 }
    requires spelled { IsSpelled (definition_lem definition.now) }
    requires new { AllHold (new_name (state_lem state.now).term_names (lexeme definition.now.head.name)) }
    requires parts { AreParts parts.now (view (definition_lem definition.now)).variables (view (definition_lem definition.now)).types (view (definition_lem definition.now)).result }
    ensures judged { JudgesStatement result (state_lem state.now) place (definition_lem definition.now) }
    ensures declares { IfOk result (λ d. Declares (state_lem state.now) (definition_lem definition.now) (term_of_lem d)) }
{
    let index = index_of(alloc, state.hashing, parts)?;
    let decl = definition_over(state, alloc, &index, place, definition, parts);
    drop(index);
    decl
}

/// The same with the index of the parameters.
fn definition_over<'a>(
    state: &State<'a>,
    alloc: Global,
    index: &Option<NameIndex<'a>>,
    place: u32,
    definition: &DefinitionText<'a>,
    parts: &Parts<'_, 'a>,
) -> Result<TermDecl, Halt>
    requires kept { IsKept (state_lem state.now) }
    requires few { length state.now.spans.items + 1 < 2 ^ 32 }
    requires spelled { IsSpelled (definition_lem definition.now) }
    requires new { AllHold (new_name (state_lem state.now).term_names (lexeme definition.now.head.name)) }
    requires index { MatchOption index.now ⊤ (IsIndexOf (map variable parts.now.params.items)) }
    requires parts { AreParts parts.now (view (definition_lem definition.now)).variables (view (definition_lem definition.now)).types (view (definition_lem definition.now)).result }
    ensures judged { JudgesStatement result (state_lem state.now) place (definition_lem definition.now) }
    ensures declares { IfOk result (λ d. Declares (state_lem state.now) (definition_lem definition.now) (term_of_lem d)) }
{
    state.check_parts(alloc, index, place, parts)?;
    let params = state.binders_of(alloc, index, &parts.params, &parts.params)?;
    let result_type = state.result_of(alloc, index, parts, &definition.result)?;
    let form = form_of(
        state,
        alloc,
        index,
        place,
        parts,
        &result_type,
        definition.body,
    )?;
    Ok(TermDecl {
        params,
        result: result_type,
        form,
    })
}

/// Adds a definition.
pub fn add_definition<'a>(
    state: &mut State<'a>,
    alloc: Global,
    place: u32,
    definition: &DefinitionText<'a>,
) -> Result<(), Halt>
    requires kept { IsKept (state_lem state.old) }
    requires few { length state.old.spans.items + 1 < 2 ^ 32 }
    requires spelled { IsSpelled (definition_lem definition.now) }
    ensures judged { JudgesStatement result (state_lem state.old) place (definition_lem definition.now) }
    ensures after { OnOk result (After (state_lem state.old) place (definition_lem definition.now) (state_lem state.new)) }
{
    let decl = definition_of(state, alloc, place, definition)?;
    push_term(state, place, definition.head.name, decl)
}

// ---- axioms and theorems

/// The hypotheses and the conclusion, with these parts.
fn claims_of<'a>(
    state: &State<'a>,
    alloc: Global,
    index: &Option<NameIndex<'a>>,
    parts: &Parts<'_, 'a>,
    assertion: &AssertText<'a>,
) -> Result<(Hyps, Expr), Halt>
    requires kept { IsKept (state_lem state.now) }
    requires few { length state.now.spans.items + 1 < 2 ^ 32 }
    requires index { MatchOption index.now ⊤ (IsIndexOf (map variable parts.now.params.items)) }
    requires room { length parts.now.params.items + length parts.now.dummies.items < 2 ^ 32 }
    requires names { AreVariables (map variable_bytes (map variable parts.now.params.items) ++ map variable_bytes (map variable parts.now.dummies.items)) }
    requires grouped_params { AreGrouped parts.now.params.items }
    requires grouped_dummies { AreGrouped parts.now.dummies.items }
    requires small { Every (λ f. EndsSmall (math_of f)) (view (assertion_lem assertion.now)).formulas }
    ensures judged { AreParts parts.now (view (assertion_lem assertion.now)).variables (view (assertion_lem assertion.now)).types []
        → (tokens : List (List MathToken)) → AreTokens (state_lem state.now) (view (assertion_lem assertion.now)).formulas tokens
        → JudgesOrMem result (strings_checks (state_lem state.now) (view (assertion_lem assertion.now)).variables (view (assertion_lem assertion.now)).formulas tokens) }
    ensures claims { IfOk result (λ claims. AreParts parts.now (view (assertion_lem assertion.now)).variables (view (assertion_lem assertion.now)).types []
        → AreHyps (state_lem state.now) (view (assertion_lem assertion.now)).variables (stated_of_lem (head assertion.now.head).groups (map source assertion.now.premises.items)) claims.0
        × IsMeant (state_lem state.now) (view (assertion_lem assertion.now)).variables (claim (lexeme assertion.now.conclusion)) (tree claims.1)) }
{
    let stated = stated_of(alloc, assertion)?;
    let scope = state.scope_of(alloc, index, parts)?;
    claims_in(state, alloc, &scope, &stated, assertion)
}

/// The hypotheses of these formulas and the conclusion, whose variables are in scope.
fn claims_in<'a>(
    state: &State<'a>,
    alloc: Global,
    scope: &Scope,
    stated: &[Stated<'a>],
    assertion: &AssertText<'a>,
) -> Result<(Hyps, Expr), Halt>
    requires stated { map stated_lem stated.now ≡ stated_of_lem (head assertion.now.head).groups (map source assertion.now.premises.items) }
    requires small { Every (λ f. EndsSmall (math_of f)) (view (assertion_lem assertion.now)).formulas }
    ensures judged { scope.now ≡ scope_of (state_lem state.now) (view (assertion_lem assertion.now)).variables
        → (tokens : List (List MathToken)) → AreTokens (state_lem state.now) (view (assertion_lem assertion.now)).formulas tokens
        → JudgesOrMem result (strings_checks (state_lem state.now) (view (assertion_lem assertion.now)).variables (view (assertion_lem assertion.now)).formulas tokens) }
    ensures claims { IfOk result (λ claims. scope.now ≡ scope_of (state_lem state.now) (view (assertion_lem assertion.now)).variables
        → AreHyps (state_lem state.now) (view (assertion_lem assertion.now)).variables (stated_of_lem (head assertion.now.head).groups (map source assertion.now.premises.items)) claims.0
        × IsMeant (state_lem state.now) (view (assertion_lem assertion.now)).variables (claim (lexeme assertion.now.conclusion)) (tree claims.1)) }
{
    let hyps = hyps_of(state, alloc, scope, stated)?;
    let conclusion = formula(state, alloc, scope, assertion.conclusion, Wanted::Provable)?;
    Ok((hyps, conclusion))
}

/// What an axiom or a theorem declares.
fn assertion_of<'a>(
    state: &State<'a>,
    alloc: Global,
    place: u32,
    assertion: &AssertText<'a>,
) -> Result<ThmDecl, Halt>
    requires kept { IsKept (state_lem state.now) }
    requires few { length state.now.spans.items + 1 < 2 ^ 32 }
    requires spelled { IsSpelled (assertion_lem assertion.now) }
    ensures judged { JudgesStatement result (state_lem state.now) place (assertion_lem assertion.now) }
    ensures declares { IfOk result (λ d. Declares (state_lem state.now) (assertion_lem assertion.now) (assertion_of_lem d)) }
{
    check_new(&state.assertion_names, assertion.head.name)?;
    let parts = Parts::of_assertion(alloc, assertion)?;
    assertion_with(state, alloc, place, assertion, &parts)
}

/// What an axiom or a theorem of a new name, with these parts, declares.
fn assertion_with<'a>(
    state: &State<'a>,
    alloc: Global,
    place: u32,
    assertion: &AssertText<'a>,
    parts: &Parts<'_, 'a>,
) -> Result<ThmDecl, Halt>
    requires kept { IsKept (state_lem state.now) }
    requires few { length state.now.spans.items + 1 < 2 ^ 32 }
    requires spelled { IsSpelled (assertion_lem assertion.now) }
    requires new { AllHold (new_name (state_lem state.now).assertion_names (lexeme assertion.now.head.name)) }
    requires parts { AreParts parts.now (view (assertion_lem assertion.now)).variables (view (assertion_lem assertion.now)).types (view (assertion_lem assertion.now)).result }
    ensures judged { JudgesStatement result (state_lem state.now) place (assertion_lem assertion.now) }
    ensures declares { IfOk result (λ d. Declares (state_lem state.now) (assertion_lem assertion.now) (assertion_of_lem d)) }
{
    let index = index_of(alloc, state.hashing, parts)?;
    let decl = assertion_over(state, alloc, &index, place, assertion, parts);
    drop(index);
    decl
}

/// The same with the index of the parameters.
fn assertion_over<'a>(
    state: &State<'a>,
    alloc: Global,
    index: &Option<NameIndex<'a>>,
    place: u32,
    assertion: &AssertText<'a>,
    parts: &Parts<'_, 'a>,
) -> Result<ThmDecl, Halt>
    requires kept { IsKept (state_lem state.now) }
    requires few { length state.now.spans.items + 1 < 2 ^ 32 }
    requires spelled { IsSpelled (assertion_lem assertion.now) }
    requires new { AllHold (new_name (state_lem state.now).assertion_names (lexeme assertion.now.head.name)) }
    requires index { MatchOption index.now ⊤ (IsIndexOf (map variable parts.now.params.items)) }
    requires parts { AreParts parts.now (view (assertion_lem assertion.now)).variables (view (assertion_lem assertion.now)).types (view (assertion_lem assertion.now)).result }
    ensures judged { JudgesStatement result (state_lem state.now) place (assertion_lem assertion.now) }
    ensures declares { IfOk result (λ d. Declares (state_lem state.now) (assertion_lem assertion.now) (assertion_of_lem d)) }
{
    state.check_parts(alloc, index, place, parts)?;
    let params = state.binders_of(alloc, index, &parts.params, &parts.params)?;
    let (hyps, conclusion) = claims_of(state, alloc, index, parts, assertion)?;
    Ok(ThmDecl {
        form: thm_form(assertion.kind),
        params,
        hyps,
        conclusion,
    })
}

/// Adds an axiom or a theorem.
pub fn add_assertion<'a>(
    state: &mut State<'a>,
    alloc: Global,
    place: u32,
    assertion: &AssertText<'a>,
) -> Result<(), Halt>
    requires kept { IsKept (state_lem state.old) }
    requires few { length state.old.spans.items + 1 < 2 ^ 32 }
    requires spelled { IsSpelled (assertion_lem assertion.now) }
    ensures judged { JudgesStatement result (state_lem state.old) place (assertion_lem assertion.now) }
    ensures after { OnOk result (After (state_lem state.old) place (assertion_lem assertion.now) (state_lem state.new)) }
{
    let decl = assertion_of(state, alloc, place, assertion)?;
    state.env.push_decl(Decl::Thm(decl))?;
    state.assertion_names.push(assertion.head.name.bytes)?;
    state.spans.push(span_of(assertion.head.name, place))?;
    Ok(())
}
