// A declaration and its partner.
ghost use Rattle.std.specs.Prelude.{◌≡◌, ◌≤◌, ◌↔◌, ℕ, Bool, IsTrue, List, OnErr, drop, length, false, true};
ghost use Rattle.mz_base.specs.Checks.{Judges};
ghost use Rattle.mz_logic_theory.specs.Declaration.{Assertion, Declaration, Term, is_defined, sort_decl};
ghost use Rattle.mz_cmd.specs.Codes.{statement_byte};
ghost use Rattle.mz_logic_theory.specs.DeclView.{assertion_of, assertion_view, declaration, form as form_lem, is_axiom, term_of};
ghost use Rattle.mz_logic_theory.specs.LegalLists.{Statement as Declared};
ghost use Rattle.mz_spec_theory.specs.State.{env_of};
ghost use Rattle.mz_layout_tables.specs.Tables.{term_row};
ghost use Rattle.mz_binary_theory.specs.Standards.{Standard};
ghost use Rattle.mz_spec_proved_theory.specs.Match.{assertion_checks, form_checks, is_plain as plain_lem, match_checks, partner_checks, partner_of};
ghost use Rattle.mz_match_rows.specs.ReportedRow.{IsRowOf, IsTermRow, IsThmRow, assertion_code};
ghost use Rattle.mz_match.specs.Reported.{IsReported};

use mz_binary_theory::Statement;
use mz_cmd::StatementCode;
use mz_layout_tables::{Mmb, Row};
use mz_logic_theory::{Decl, SortMods, TermDecl, TermForm, Terms, ThmDecl, ThmForm};
use mz_match_rows::{
    Publics, Sides, kept_marks, match_params, match_signature, same_body, same_first, same_hyps,
};
use mz_spec_proved_theory::M;
use mz_spec_theory::Spec;
use std::alloc::Global;

/// Compares a public statement, which a checker of the binary reported, with the i-th declaration, its
/// partner. `publics` holds the public terms before it.
///
/// # Errors
///
/// The first rule that fails; `M::Extra` where no declaration is left.
pub fn match_statement(
    alloc: Global,
    spec: &Spec,
    i: u32,
    mmb: &Mmb,
    statement: &Statement,
    publics: &Publics,
) -> Result<(), M>
    requires place { i ≤ length spec.now }
    requires told { (standard : Standard) × (ss : List Declared) × (env : List Declaration) × (s : Declared) × (next : ℕ) × IsReported standard mmb.now publics.now statement.now ss env s next }
    requires public_ { statement.now.local ≡ false }
    ensures { (standard : Standard) (ss : List Declared) (env : List Declaration) (s : Declared) (next : ℕ) → IsReported standard mmb.now publics.now statement.now ss env s next
        → Judges result (partner_checks (drop i (env_of spec.now)) (partner_of ss s)) }
{
    if i == spec.len() {
        return Err(M::Extra);
    }
    match_declaration(alloc, spec.decl(i), mmb, statement, publics)
}

/// Whether the statement's kind is that of public statements with this code.
pub fn has_kind(statement: &Statement, code: StatementCode) -> bool
    ensures { IsTrue result ↔ (statement.now.kind ≡ statement_byte code) }
{
    statement.kind == u8::from(code)
}

/// Compares the statement with a declaration.
fn match_declaration(
    alloc: Global,
    decl: &Decl,
    mmb: &Mmb,
    statement: &Statement,
    publics: &Publics,
) -> Result<(), M>
    requires { (p : Declaration) × IsRowOf mmb.now statement.now p }
    ensures { (p : Declaration) → IsRowOf mmb.now statement.now p → Judges result (match_checks (declaration decl.now) (record { rows = publics.now; decl = p })) }
{
    match decl {
        Decl::Sort(mods) => match_sort(*mods, mmb, statement, publics),
        Decl::Term(term) => match_term(alloc, term, mmb, statement, publics),
        Decl::Thm(thm) => match_assertion(alloc, thm, mmb, statement, publics),
    }
}

fn match_sort(mods: SortMods, mmb: &Mmb, statement: &Statement, publics: &Publics) -> Result<(), M>
    requires { (p : Declaration) × IsRowOf mmb.now statement.now p }
    ensures { (p : Declaration) → IsRowOf mmb.now statement.now p → Judges result (match_checks (sort_decl mods) (record { rows = publics.now; decl = p })) }
{
    if !has_kind(statement, StatementCode::Sort) {
        return Err(M::Kind);
    }
    if mods != mmb.mods(statement.row) {
        return Err(M::Modifiers);
    }
    Ok(())
}

fn match_term(
    alloc: Global,
    term: &TermDecl,
    mmb: &Mmb,
    statement: &Statement,
    publics: &Publics,
) -> Result<(), M>
    requires { (p : Declaration) × IsRowOf mmb.now statement.now p }
    ensures { (p : Declaration) → IsRowOf mmb.now statement.now p → Judges result (match_checks (term_of term.now) (record { rows = publics.now; decl = p })) }
{
    if !has_kind(statement, StatementCode::Term) {
        return Err(M::Kind);
    }
    let plain = is_plain(&term.form);
    let has_body = mmb.has_body(statement.row);
    if is_same(plain, has_body) {
        return Err(M::Kind);
    }
    if let Err(rule) = match_signature(term.params.as_slice(), &term.result, mmb, statement.row) {
        return Err(rule);
    }
    match_body(alloc, term, mmb, statement.row, publics)
}

fn is_same(one: bool, other: bool) -> bool
    ensures { IsTrue result ↔ (one ≡ other) }
{
    one == other
}

fn is_plain(form: &TermForm) -> bool
    ensures { result ≡ plain_lem (form_lem form.now) }
{
    match form {
        TermForm::Plain => true,
        TermForm::Abstract => false,
        TermForm::Body { .. } => false,
    }
}

/// Compares the body that the specification gives with that of the row.
fn match_body(
    alloc: Global,
    term: &TermDecl,
    mmb: &Mmb,
    row: u32,
    publics: &Publics,
) -> Result<(), M>
    requires { (e : Term) × IsTermRow mmb.now row e × (is_defined (form_lem term.now.form) ≡ true → is_defined e.form ≡ true) }
    ensures body { (e : Term) → IsTermRow mmb.now row e → is_defined (form_lem term.now.form) ≡ true → is_defined e.form ≡ true
        → Judges result (form_checks publics.now (length (term_row mmb.now row).words.params) (form_lem term.now.form) e.form) }
    ensures open { is_defined (form_lem term.now.form) ≡ false → OnErr result ⊥ }
{
    let TermForm::Body { dummies, body } = &term.form else {
        return Ok(());
    };
    let start = mmb.unify_of_term(row).0;
    let sides = Sides {
        mmb,
        publics,
        dummies: dummies.as_slice(),
        start,
        places: kept_marks(alloc, mmb, start),
        params: mmb.arity(row),
    };
    if !same_body(&sides, body) {
        return Err(M::Body);
    }
    Ok(())
}

fn match_assertion(
    alloc: Global,
    thm: &ThmDecl,
    mmb: &Mmb,
    statement: &Statement,
    publics: &Publics,
) -> Result<(), M>
    requires { (p : Declaration) × IsRowOf mmb.now statement.now p }
    ensures { (p : Declaration) → IsRowOf mmb.now statement.now p → Judges result (match_checks (assertion_of thm.now) (record { rows = publics.now; decl = p })) }
{
    if !has_kind(statement, code_of(thm.form)) {
        return Err(M::Kind);
    }
    match_claims(alloc, thm, mmb, statement.row, publics)
}

/// The code of an axiom's or a theorem's public statement.
fn code_of(form: ThmForm) -> StatementCode
    ensures { result ≡ assertion_code (is_axiom form) }
{
    match form {
        ThmForm::Axiom => StatementCode::Axiom,
        ThmForm::Theorem => StatementCode::Theorem,
    }
}

/// Compares parameters, hypotheses and conclusion with those of the row.
fn match_claims(
    alloc: Global,
    thm: &ThmDecl,
    mmb: &Mmb,
    row: u32,
    publics: &Publics,
) -> Result<(), M>
    requires { (b : Assertion) × IsThmRow mmb.now row b }
    ensures { (b : Assertion) → IsThmRow mmb.now row b → Judges result (assertion_checks publics.now (assertion_view thm.now) b) }
{
    if !match_params(thm.params.as_slice(), mmb, Row::Thm(row)) {
        return Err(M::Binders);
    }
    let start = mmb.unify_of_thm(row).0;
    let sides = Sides {
        mmb,
        publics,
        dummies: &[],
        start,
        places: kept_marks(alloc, mmb, start),
        params: mmb.thm_arity(row),
    };
    if !same_hyps(&sides, &thm.hyps) {
        return Err(M::Hypotheses);
    }
    if !same_first(&sides, &thm.conclusion) {
        return Err(M::Conclusion);
    }
    Ok(())
}
