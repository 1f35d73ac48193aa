//! The weight of a well-typed text.
ghost use Rattle.std.specs.Prelude.{◌≡◌, ◌<◌, ◌^◌, ◌+◌};
ghost use Rattle.mz_logic_theory.specs.DeclView.{declaration, term_of, assertion_of};
ghost use Rattle.mz_logic_theory.specs.Tree.{var, size, trees_size, instance, instances, followed_by, variables};
ghost use Rattle.mz_logic_theory.specs.View.{tree};
ghost use Rattle.mz_mmu_theory.specs.ConvView.{conversion};
ghost use Rattle.mz_mmu_theory.specs.ProofView.{proof_view};
ghost use Rattle.mz_mmu.specs.EntryView.{entry as statement};
ghost use Rattle.mz_type_rules.specs.Answers.{stated};
ghost use Rattle.mz_mmu_theory.specs.Sides;
ghost use Rattle.mz_mmu_theory.specs.Weight;
ghost use Rattle.mz_mmu_theory.specs.Weight.{weight_of};

use crate::instance_sizes::Shaped;
use crate::sizes::{size_of, sizes_of_hyps};
use crate::typed::Typed;
use mz_logic_theory::{Decl, TermDecl, ThmDecl};
use mz_mmu::Entry;
use mz_mmu_theory::{Conv, Convs, Proof, Proofs};
use mz_type_rules::proof_in;

/// The weight of a conversion.
#[cycle(conv_weight)]
#[tactic(auto, using(crate::proofs::Weighing::same_size))]
fn conv_weight(env: &Shaped, conv: &Conv) -> u128
    requires { Weight.conv_weight env.now (conversion conv.now) < 2 ^ 128 }
    ensures { result ≡ Weight.conv_weight env.now (conversion conv.now) }
{
    match conv {
        Conv::Refl(_) => 1,
        Conv::Sym(part) => 1 + conv_weight(env, part.get()),
        Conv::Cong(_, parts) => 1 + convs_weight(env, parts),
        Conv::Unfold(t, es, _, part) => {
            1 + env.body_weight(*t, es) + conv_weight(env, part.get())
        }
        Conv::Gap(left, right) => 1 + size_of(left) + size_of(right),
    }
}

/// The weight of conversions.
#[cycle(conv_weight)]
fn convs_weight(env: &Shaped, convs: &Convs) -> u128
    requires { Weight.convs_weight env.now convs.now < 2 ^ 128 }
    ensures { result ≡ Weight.convs_weight env.now convs.now }
{
    let mut total: u128 = 0;
    for conv in convs.as_slice() {
        total += conv_weight(env, conv);
    }
    total
}

/// The weight of a proof.
#[cycle(proof_weight)]
fn proof_weight(env: &Shaped, proof: &Proof) -> u128
    requires { Weight.proof_weight env.now (proof_view proof.now) < 2 ^ 128 }
    ensures { result ≡ Weight.proof_weight env.now (proof_view proof.now) }
{
    match proof {
        Proof::Hyp(_) => 1,
        Proof::Name(_) => 1,
        Proof::Cite(number, es, proofs) => {
            1 + env.conclusion_weight(*number, es) + proofs_weight(env, proofs)
        }
        Proof::Conv(e, conv, part) => {
            1 + size_of(e) + conv_weight(env, conv.get()) + proof_weight(env, part.get())
        }
        Proof::Let(first, second) => {
            1 + proof_weight(env, first.get()) + proof_weight(env, second.get())
        }
        Proof::Gap(e) => 1 + size_of(e),
    }
}

/// The weight of proofs.
#[cycle(proof_weight)]
fn proofs_weight(env: &Shaped, proofs: &Proofs) -> u128
    requires { Weight.proofs_weight env.now proofs.now < 2 ^ 128 }
    ensures { result ≡ Weight.proofs_weight env.now proofs.now }
{
    let mut total: u128 = 0;
    for proof in proofs.as_slice() {
        total += proof_weight(env, proof);
    }
    total
}

/// The binders of a term and what stands in its body.
fn term_weight(term: &TermDecl) -> u128
    requires { Weight.declaration_weight (term_of term.now) < 2 ^ 128 }
    ensures { result ≡ Weight.declaration_weight (term_of term.now) }
{
    let binders = term.params.len() as u128 + term.form.dummies().len() as u128;
    match term.form.body() {
        None => binders,
        Some(body) => binders + size_of(body),
    }
}

/// The binders of an axiom or theorem and what stands in its hypotheses and its conclusion.
fn thm_weight(thm: &ThmDecl) -> u128
    requires { Weight.declaration_weight (assertion_of thm.now) < 2 ^ 128 }
    ensures { result ≡ Weight.declaration_weight (assertion_of thm.now) }
{
    thm.params.len() as u128 + sizes_of_hyps(&thm.hyps) + size_of(&thm.conclusion)
}

/// The binders of a declaration, and what stands in its expressions.
fn declaration_weight(decl: &Decl) -> u128
    requires { Weight.declaration_weight (declaration decl.now) < 2 ^ 128 }
    ensures { result ≡ Weight.declaration_weight (declaration decl.now) }
{
    match decl {
        Decl::Sort(_) => 0,
        Decl::Term(term) => term_weight(term),
        Decl::Thm(thm) => thm_weight(thm),
    }
}

/// The weight of the proof that a statement states, if it states one.
fn stated_weight(env: &Shaped, proof: Option<&Proof>) -> u128
    requires { Weight.stated_weight env.now (stated proof) < 2 ^ 128 }
    ensures { result ≡ Weight.stated_weight env.now (stated proof.entry) }
{
    match proof {
        None => 0,
        Some(proof) => proof_weight(env, proof),
    }
}

/// The weight of a statement, over those before it.
pub(crate) fn statement_weight(env: &Shaped, entry: &Entry) -> u128
    requires { Weight.statement_weight env.now (statement entry.now) < 2 ^ 128 }
    ensures { result ≡ Weight.statement_weight env.now (statement entry.now) }
{
    1 + declaration_weight(&entry.declared.decl)
        + entry.declared.dummies.len() as u128
        + stated_weight(env, proof_in(&entry.declared.proof))
}

/// The weight of a text.
pub fn weight(typed: &Typed) -> u128
    ensures weight { result ≡ weight_of typed.now.statements }
    ensures small { result < 2 ^ 64 }
{
    typed.weight
}
