//! What is asked of statements.
ghost use Rattle.std.specs.Prelude.{◌≡◌, ◌↔◌, ◌++◌, ◌<◌, [], IsTrue, All, drop, length, Some, None};
ghost use Rattle.mz_base.specs.Checks.{Judges};
ghost use Rattle.mz_sexpr.specs.Node.{parts};
ghost use Rattle.mz_sexpr.specs.Number.{first};
ghost use Rattle.mz_logic_theory.specs.Declaration.{signatures, assertions, sorts, defined};
ghost use Rattle.mz_logic_theory.specs.DeclView.{declaration, form, signature, term_view, term_of, assertion_view};
ghost use Rattle.mz_logic_theory.specs.Modifiers.{MayBeResultSort};
ghost use Rattle.mz_logic_theory.specs.Tree.{none, listed};
ghost use Rattle.mz_logic_theory.specs.Variables.{IsBoundAt};
ghost use Rattle.mz_logic_theory.specs.View.{tree};
ghost use Rattle.mz_mmu_theory.specs.ProofView.{proof_view};
ghost use Rattle.mz_mmu_theory.specs.StatementView.{option_proof, stated as statement};
ghost use Rattle.mz_mmu_theory.specs.Statements.{is_local_word};
ghost use Rattle.mz_type_rules.specs.Answers.{Judged, stated, proves_rules};
ghost use Rattle.mz_mmu_theory.specs.Names.{ExprThere, ProofThere, DeclThere, StatementThere, StatedProofThere, TermThere};
ghost use Rattle.mz_mmu_theory.specs.Parts;
ghost use Rattle.mz_mmu_theory.specs.Rules;
ghost use Rattle.mz_mmu_theory.specs.Rules.{claim_rules, claims_rules, body_rules, assertion_rules, theorem_rules, decl_rules, statement_rules};

use crate::binders::{are_bound, check_dummies, check_params};
use crate::claim::{Claim, same_claim};
use crate::convs::{Checker, refuse};
use crate::cursor::Cursor;
use crate::exprs::{check_claim, check_expr};
use crate::lets::Lets;
use crate::proofs::claim_at;
use mz_logic::{may_be_result_sort, sort_of as sort_of_expr};
use mz_logic_free::free_vars_are_among;
use mz_logic_theory::{
    Binder, Context, Decl, Env, Expr, Hyps, TermDecl, TermForm, ThmDecl, ThmForm,
};
use mz_mmu_theory::{Declared, Fault, Proof, ProofBox, Stop};
use mz_sexpr::U;
use std::alloc::Global;

/// The node of a hypothesis: in a theorem a name stands before it.
fn hyp_node<'n, 'a>(is_axiom: bool, nodes: &Cursor<'n, 'a>) -> Cursor<'n, 'a>
    ensures { first result ≡ Rules.hyp_node is_axiom (first nodes.now) }
{
    if is_axiom {
        nodes.after(0)
    } else {
        nodes.part(1)
    }
}

/// The rules of hypotheses, each at its node.
fn check_hyps(
    env: &Env,
    ctx: &Context,
    is_axiom: bool,
    hyps: &Hyps,
    nodes: &Cursor,
) -> Result<(), Fault>
    ensures { Judges result (claims_rules env.now ctx.now is_axiom hyps.now nodes.now) }
{
    let mut left = nodes.after(0);
    for i in 0..hyps.len() {
        check_claim(env, ctx, hyps.at(i), &hyp_node(is_axiom, &left))?;
        left = left.rest();
    }
    Ok(())
}

/// The rules of a definition's dummies and body. The parts are the statement's, from the keyword of
/// its kind on.
fn check_body(
    alloc: Global,
    env: &Env,
    term: &TermDecl,
    dummies: &[Binder],
    body: &Expr,
    parts: &Cursor,
) -> Result<(), Stop>
    requires { ExprThere (length (signatures env.now)) (length (term.now.params ++ dummies.now)) (tree body.now) }
    ensures { Judged result (body_rules env.now (signature term.now) (defined dummies.now (tree body.now)) parts.now) }
{
    refuse(check_dummies(env, dummies, &parts.after(4).parts()))?;
    let ctx = Context::new(term.params.as_slice(), dummies);
    let node = parts.after(5);
    refuse(check_expr(env, &ctx, body, &node))?;
    let right = free_vars_are_among(alloc, env, &ctx, body, &term.result.deps)?;
    if !right {
        return Err(Stop::Refused(node.fault(U::Declaration)));
    }
    if sort_of_expr(env, &ctx, body) != term.result.sort {
        return Err(Stop::Refused(node.fault(U::Sort)));
    }
    Ok(())
}

/// The rules of a definition's dummies and body; a term without a body has none.
fn check_form(alloc: Global, env: &Env, term: &TermDecl, parts: &Cursor) -> Result<(), Stop>
    requires { TermThere env.now (term_view term.now) }
    ensures { Judged result (body_rules env.now (signature term.now) (form term.now.form) parts.now) }
{
    match &term.form {
        TermForm::Plain => Ok(()),
        TermForm::Abstract => Ok(()),
        TermForm::Body { dummies, body } => {
            check_body(alloc, env, term, dummies.as_slice(), body, parts)
        }
    }
}

/// May the term have its result: is the sort not pure, and does it depend on bound parameters alone?
fn is_result_right(env: &Env, term: &TermDecl) -> bool
    ensures { IsTrue result ↔ (MayBeResultSort (sorts env.now) term.now.result.sort × All (IsBoundAt term.now.params) term.now.result.deps) }
{
    may_be_result_sort(env, term.result.sort)
        && are_bound(term.params.as_slice(), &term.result.deps)
}

/// The rules of a term or a definition.
fn check_term(alloc: Global, env: &Env, term: &TermDecl, parts: &Cursor) -> Result<(), Stop>
    requires { TermThere env.now (term_view term.now) }
    ensures { Judged result (decl_rules env.now (term_of term.now) [] None parts.now) }
{
    refuse(check_params(env, term.params.as_slice(), &parts.after(2).parts()))?;
    if !is_result_right(env, term) {
        return Err(Stop::Refused(parts.after(3).fault(U::Declaration)));
    }
    check_form(alloc, env, term, parts)
}

/// The rules of a theorem's proof, and whether it proves the conclusion.
fn check_proves<'t>(
    checker: &Checker<'t, '_>,
    lets: &mut Lets<'t>,
    claims: &mut Vec<Claim<'t>>,
    thm: &'t ThmDecl,
    proof: &'t Proof,
    parts: &Cursor,
) -> Result<(), Stop>
    requires over { (lets.old.env ≡ checker.now.env.now) × (lets.old.hyps ≡ checker.now.hyps.now) }
    requires lets { lets.old.lets ≡ none }
    requires claims { claims.old.items ≡ [] }
    requires there { ProofThere (length (signatures checker.now.env.now)) (length checker.now.ctx.now) (length (assertions checker.now.env.now)) (length (listed checker.now.hyps.now)) 0 (proof_view proof.now) }
    ensures { Judged result (proves_rules checker.now.env.now checker.now.ctx.now checker.now.hyps.now (proof_view proof.now) (tree thm.now.conclusion) parts.now) }
{
    checker.check_proof(lets, claims, proof, &parts.after(6))?;
    let same = same_claim(
        checker.alloc,
        claim_at(claims, 0),
        Claim::of(&thm.conclusion),
    )?;
    if same {
        Ok(())
    } else {
        Err(Stop::Refused(parts.after(4).fault(U::Conclusion)))
    }
}

/// The rules of a theorem's dummies, its proof and its conclusion.
fn check_stated_proof(
    alloc: Global,
    env: &Env,
    thm: &ThmDecl,
    dummies: &[Binder],
    proof: &Proof,
    parts: &Cursor,
) -> Result<(), Stop>
    requires { StatedProofThere env.now (assertion_view thm.now) dummies.now (Some (proof_view proof.now)) }
    ensures { Judged result (theorem_rules env.now (assertion_view thm.now) dummies.now (Some (proof_view proof.now)) parts.now) }
{
    refuse(check_dummies(env, dummies, &parts.after(5).parts()))?;
    let ctx = Context::new(thm.params.as_slice(), dummies);
    let checker = Checker {
        alloc,
        env,
        ctx: &ctx,
        hyps: &thm.hyps,
    };
    let mut lets = Lets::new(alloc, env, &thm.hyps);
    let mut claims: Vec<Claim> = Vec::new(alloc);
    check_proves(&checker, &mut lets, &mut claims, thm, proof, parts)
}

/// Is it an axiom?
fn is_axiom(thm: &ThmDecl) -> bool
    ensures { result ≡ (assertion_view thm.now).is_axiom }
{
    match thm.form {
        ThmForm::Axiom => true,
        ThmForm::Theorem => false,
    }
}

/// The rules of the parameters, hypotheses and conclusion of an axiom or theorem.
fn check_assertion_parts(env: &Env, thm: &ThmDecl, parts: &Cursor) -> Result<(), Fault>
    ensures { Judges result (assertion_rules env.now (assertion_view thm.now) parts.now) }
{
    check_params(env, thm.params.as_slice(), &parts.after(2).parts())?;
    let ctx = Context::of(&thm.params);
    check_hyps(env, &ctx, is_axiom(thm), &thm.hyps, &parts.after(3).parts())?;
    check_claim(env, &ctx, &thm.conclusion, &parts.after(4))
}

/// The rules of what a statement declares and of its proof.
fn check_decl(
    alloc: Global,
    env: &Env,
    decl: &Decl,
    dummies: &[Binder],
    proof: Option<&Proof>,
    parts: &Cursor,
) -> Result<(), Stop>
    requires { DeclThere env.now (declaration decl.now) dummies.now (stated proof) }
    ensures { Judged result (decl_rules env.now (declaration decl.now) dummies.now (stated proof.entry) parts.now) }
{
    match decl {
        Decl::Sort(_) => Ok(()),
        Decl::Term(term) => check_term(alloc, env, term, parts),
        Decl::Thm(thm) => {
            refuse(check_assertion_parts(env, thm, parts))?;
            match proof {
                None => Ok(()),
                Some(proof) => check_stated_proof(alloc, env, thm, dummies, proof, parts),
            }
        }
    }
}

/// The proof in the box, if there is one.
pub fn proof_in(proof: &Option<ProofBox>) -> Option<&Proof>
    ensures { stated result ≡ option_proof proof.now }
{
    match proof {
        None => None,
        Some(proof) => Some(proof.get()),
    }
}

/// A statement's parts from the keyword of its kind on.
fn declared_parts<'n, 'a>(nodes: &Cursor<'n, 'a>, is_local: bool) -> Cursor<'n, 'a>
    requires { is_local_word (first (parts (first nodes.now))) ≡ is_local }
    ensures { result ≡ Parts.declared_parts (first nodes.now) }
{
    if is_local {
        nodes.parts().rest()
    } else {
        nodes.parts()
    }
}

/// The rules of a statement with this visibility, whose node is the first, over those before it.
///
/// # Errors
///
/// The first type rule that the statement breaks, at the node that breaks it; or where there is no
/// memory.
pub fn check_statement(
    alloc: Global,
    env: &Env,
    is_local: bool,
    declared: &Declared,
    nodes: &Cursor,
) -> Result<(), Stop>
    requires there { StatementThere env.now (statement is_local declared.now) }
    requires marked { is_local_word (first (parts (first nodes.now))) ≡ is_local }
    ensures { Judged result (statement_rules env.now (statement is_local declared.now) (first nodes.now)) }
{
    check_decl(
        alloc,
        env,
        &declared.decl,
        declared.dummies.as_slice(),
        proof_in(&declared.proof),
        &declared_parts(nodes, is_local),
    )
}
