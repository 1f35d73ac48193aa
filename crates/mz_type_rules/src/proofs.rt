//! What is asked of proofs.
ghost use Rattle.std.specs.Prelude.{◌≡◌, ◌↔◌, ◌<◌, ◌≤◌, ◌+◌, IfOk, IsTrue, OnOk, drop, take, length};
ghost use Rattle.mz_base.specs.Checks.{AllHold, nothing};
ghost use Rattle.mz_sexpr.specs.Node.{parts};
ghost use Rattle.mz_sexpr.specs.Number.{first};
ghost use Rattle.mz_logic_theory.specs.Declaration.{signatures, assertions};
ghost use Rattle.mz_logic_theory.specs.DeclView.{assertion_view};
ghost use Rattle.mz_logic_theory.specs.Tree.{listed, operand, instance, instances};
ghost use Rattle.mz_logic_theory.specs.View.{tree};
ghost use Rattle.mz_mmu_theory.specs.ConvView.{conversion};
ghost use Rattle.mz_mmu_theory.specs.Proof.{by_citation, by_conv, by_let};
ghost use Rattle.mz_mmu_theory.specs.ProofView.{proof_view, proofs_view};
ghost use Rattle.mz_type_rules.specs.Answers.{Judged, IsProved, converted_rules};
ghost use Rattle.mz_type_rules.specs.Claims.{claim_tree, claim_trees};
ghost use Rattle.mz_mmu_theory.specs.Names.{ProofThere, ProofsThere, ConvThere, ExprThere, ExprsThere};
ghost use Rattle.mz_mmu_theory.specs.Parts.{part};
ghost use Rattle.mz_mmu_theory.specs.Rules.{proof_rules, citation_rules, subproof_rules, exprs_rules, claim_rules};
ghost use Rattle.mz_mmu_theory.specs.Sides.{left, right, assertion_at, proved, all_proved, with_fact};
ghost use Rattle.mz_type_rules.specs.Scopes.{with_let};

use crate::claim::{Claim, is_side};
use crate::convs::{Checker, refuse};
use crate::cursor::Cursor;
use crate::exprs::{check_claim, check_expr, check_operands};
use crate::lets::Lets;
use mz_logic::are_disjoint;
use mz_logic_theory::{Expr, Exprs, Hyps, ThmDecl};
use mz_mmu_theory::{Conv, Proof, Proofs, Stop};
use mz_sexpr::U;
use std::alloc::{AllocError, Global};

/// Whether the conversion goes from the expression to the claim at the place.
#[inline(never)]
fn goes_between(
    alloc: Global,
    conv: &Conv,
    from: &Expr,
    claims: &[Claim],
    to: usize,
) -> Result<bool, AllocError>
    requires { to < length claims.now }
    ensures { IfOk result (λ goes. IsTrue goes ↔ ((left (conversion conv.now) ≡ tree from.now) × (right (conversion conv.now) ≡ operand (claim_trees claims.now) to))) }
{
    let leaves = is_side(alloc, conv, false, Claim::of(from))?;
    if !leaves {
        return Ok(false);
    }
    is_side(alloc, conv, true, claim_at(claims, to))
}

/// The claim at the place.
pub(crate) fn claim_at<'t>(claims: &[Claim<'t>], place: usize) -> Claim<'t>
    requires { place < length claims.now }
    ensures { claim_tree result ≡ operand (claim_trees claims.now) place }
{
    claims[place]
}

/// The claims from a place on.
fn claims_from<'s, 't>(claims: &'s [Claim<'t>], from: usize) -> &'s [Claim<'t>]
    requires { from ≤ length claims.now }
    ensures { result.now ≡ drop from claims.now }
{
    &claims[from..]
}

/// Puts the claim behind the others.
fn push_claim<'t>(claims: &mut Vec<Claim<'t>>, claim: Claim<'t>) -> Result<(), Stop>
    ensures stops { Judged result nothing }
    ensures claims { OnOk result (claim_trees claims.new.items ≡ with_fact (claim_trees claims.old.items) (claim_tree claim.entry)) }
{
    claims.push(claim)?;
    Ok(())
}

/// Puts the expression in place of the claims from a place on.
#[inline(never)]
fn claim_instead<'t>(claims: &mut Vec<Claim<'t>>, from: usize, expr: &'t Expr) -> Result<(), Stop>
    ensures stops { Judged result nothing }
    ensures claims { OnOk result (claim_trees claims.new.items ≡ with_fact (claim_trees (take from claims.old.items)) (tree expr.now)) }
{
    claims.truncate(from);
    push_claim(claims, Claim::of(expr))
}

/// Puts what a visible let proves behind the claims.
#[inline(never)]
fn claim_let<'t>(lets: &Lets<'t>, claims: &mut Vec<Claim<'t>>, place: u32) -> Result<(), Stop>
    requires { place < length (listed lets.now.lets) }
    ensures stops { Judged result nothing }
    ensures claims { OnOk result (claim_trees claims.new.items ≡ with_fact (claim_trees claims.old.items) (operand lets.now.lets place)) }
{
    push_claim(claims, lets.at(place))
}

/// Takes the claims from a place on away, and lets the first of them, which the proof proves, be visible.
#[inline(never)]
fn name_claim<'t>(
    alloc: Global,
    lets: &mut Lets<'t>,
    claims: &mut Vec<Claim<'t>>,
    from: usize,
    stated: &Proof,
) -> Result<(), Stop>
    requires within { from < length claims.old.items }
    requires stated { operand (claim_trees claims.old.items) from ≡ proved lets.old.env lets.old.hyps lets.old.lets (proof_view stated.now) }
    ensures stops { Judged result nothing }
    ensures lets { OnOk result (lets.new ≡ with_let lets.old (operand (claim_trees claims.old.items) from)) }
    ensures claims { OnOk result (claims.new.items ≡ take from claims.old.items) }
{
    lets.open(alloc, claim_at(claims, from), stated)?;
    claims.truncate(from);
    Ok(())
}

impl<'t, 'c> Checker<'t, 'c> {
    /// Whether each claim, which the subproof at its place proves, is the instance of its hypothesis of
    /// the axiom or theorem with this number.
    fn check_claims(
        &self,
        lets: &mut Lets<'t>,
        claims: &[Claim<'t>],
        proofs: &[Proof],
        number: u32,
        es: &'t Exprs,
        hyps: &Hyps,
        nodes: &Cursor,
    ) -> Result<(), Stop>
        requires many { length claims.now ≡ length (listed hyps.now) }
        requires proved { claim_trees claims.now ≡ all_proved lets.old.env lets.old.hyps lets.old.lets (proofs_view proofs.now) }
        requires hyps { hyps.now ≡ (assertion_at lets.old.env number).hyps }
        ensures judged { Judged result (subproof_rules (claim_trees claims.now) nodes.now (instances es.now hyps.now)) }
        ensures same { lets.new ≡ lets.old }
    {
        let mut left = nodes.after(0);
        for i in 0..claims.len() {
            let hyp = hyps.at(i);
            let same = lets.is_hyp(self.alloc, claims[i], &proofs[i], number, i, hyp, es)?;
            if !same {
                return Err(Stop::Refused(left.fault(U::Hypothesis)));
            }
            left = left.rest();
        }
        Ok(())
    }

    /// The own rules of a citation, and what it proves, after the rules of its parts.
    fn check_assertion(
        &self,
        lets: &mut Lets<'t>,
        thm: &'t ThmDecl,
        claims: &[Claim<'t>],
        number: u32,
        es: &'t Exprs,
        proofs: &[Proof],
        nodes: &Cursor,
    ) -> Result<Claim<'t>, Stop>
        requires thm { assertion_at lets.old.env number ≡ assertion_view thm.now }
        requires proved { claim_trees claims.now ≡ all_proved lets.old.env lets.old.hyps lets.old.lets (proofs_view proofs.now) }
        requires there { ExprsThere (length (signatures self.now.env.now)) (length self.now.ctx.now) es.now }
        requires sorted { AllHold (exprs_rules (signatures self.now.env.now) self.now.ctx.now es.now (parts (part (parts (first nodes.now)) 1))) }
        ensures proved { IsProved result (citation_rules (signatures self.now.env.now) self.now.ctx.now (assertion_view thm.now) es.now (claim_trees claims.now) (first nodes.now)) (instance es.now (tree thm.now.conclusion)) }
        ensures same { lets.new ≡ lets.old }
    {
        let params = thm.params.as_slice();
        if es.len() != params.len() || claims.len() != thm.hyps.len() {
            return Err(Stop::Refused(nodes.fault(U::Arity)));
        }
        refuse(check_operands(self.env, self.ctx, es, &nodes.parts_of(1), params))?;
        let apart = are_disjoint(self.alloc, self.env, self.ctx, es, params)?;
        if !apart {
            return Err(Stop::Refused(nodes.fault(U::Disjoint)));
        }
        self.check_claims(
            lets,
            claims,
            proofs,
            number,
            es,
            &thm.hyps,
            &nodes.parts_after(2),
        )?;
        Ok(Claim::instance(&thm.conclusion, es))
    }

    /// The own rules of a citation of the assertion, after those of its parts: its subproofs prove the
    /// claims from a place on, and what it proves is put in their place.
    fn conclude(
        &self,
        lets: &mut Lets<'t>,
        thm: &'t ThmDecl,
        claims: &mut Vec<Claim<'t>>,
        from: usize,
        number: u32,
        es: &'t Exprs,
        proofs: &[Proof],
        nodes: &Cursor,
    ) -> Result<(), Stop>
        requires thm { assertion_at lets.old.env number ≡ assertion_view thm.now }
        requires proved { claim_trees (drop from claims.old.items) ≡ all_proved lets.old.env lets.old.hyps lets.old.lets (proofs_view proofs.now) }
        requires there { ExprsThere (length (signatures self.now.env.now)) (length self.now.ctx.now) es.now }
        requires sorted { AllHold (exprs_rules (signatures self.now.env.now) self.now.ctx.now es.now (parts (part (parts (first nodes.now)) 1))) }
        requires within { from ≤ length claims.old.items }
        ensures judged { Judged result (citation_rules (signatures self.now.env.now) self.now.ctx.now (assertion_view thm.now) es.now (claim_trees (drop from claims.old.items)) (first nodes.now)) }
        ensures claims { OnOk result (claim_trees claims.new.items ≡ with_fact (claim_trees (take from claims.old.items)) (instance es.now (tree thm.now.conclusion))) }
        ensures same { lets.new ≡ lets.old }
    {
        let own = claims_from(claims, from);
        let claim = self.check_assertion(lets, thm, own, number, es, proofs, nodes)?;
        claims.truncate(from);
        push_claim(claims, claim)
    }

    /// The same of a citation by its number.
    #[inline(never)]
    fn check_cited(
        &self,
        lets: &mut Lets<'t>,
        claims: &mut Vec<Claim<'t>>,
        from: usize,
        number: u32,
        es: &'t Exprs,
        proofs: &[Proof],
        nodes: &Cursor,
    ) -> Result<(), Stop>
        requires env { lets.old.env ≡ self.now.env.now }
        requires proved { claim_trees (drop from claims.old.items) ≡ all_proved lets.old.env lets.old.hyps lets.old.lets (proofs_view proofs.now) }
        requires number { number < length (assertions self.now.env.now) }
        requires there { ExprsThere (length (signatures self.now.env.now)) (length self.now.ctx.now) es.now }
        requires sorted { AllHold (exprs_rules (signatures self.now.env.now) self.now.ctx.now es.now (parts (part (parts (first nodes.now)) 1))) }
        requires within { from ≤ length claims.old.items }
        ensures judged { Judged result (citation_rules (signatures self.now.env.now) self.now.ctx.now (assertion_at self.now.env.now number) es.now (claim_trees (drop from claims.old.items)) (first nodes.now)) }
        ensures claims { OnOk result (claim_trees claims.new.items ≡ with_fact (claim_trees (take from claims.old.items)) (instance es.now (assertion_at self.now.env.now number).conclusion)) }
        ensures same { lets.new ≡ lets.old }
    {
        match self.env.thm(number) {
            None => unreachable!(),
            Some(thm) => self.conclude(lets, thm, claims, from, number, es, proofs, nodes),
        }
    }

    /// Puts a hypothesis behind the claims.
    #[inline(never)]
    fn claim_hyp(&self, claims: &mut Vec<Claim<'t>>, place: u32) -> Result<(), Stop>
        requires { place < length (listed self.now.hyps.now) }
        ensures stops { Judged result nothing }
        ensures claims { OnOk result (claim_trees claims.new.items ≡ with_fact (claim_trees claims.old.items) (operand self.now.hyps.now place)) }
    {
        match self.hyps.get(place as usize) {
            None => unreachable!(),
            Some(hyp) => push_claim(claims, Claim::of(hyp)),
        }
    }

    /// The rules of a gap, at the first node; what it stands for a proof of is put behind the claims.
    #[inline(never)]
    fn check_gap(
        &self,
        claims: &mut Vec<Claim<'t>>,
        e: &'t Expr,
        nodes: &Cursor,
    ) -> Result<(), Stop>
        ensures judged { Judged result (claim_rules self.now.env.now self.now.ctx.now (tree e.now) (part (parts (first nodes.now)) 1)) }
        ensures claims { OnOk result (claim_trees claims.new.items ≡ with_fact (claim_trees claims.old.items) (tree e.now)) }
    {
        refuse(check_claim(self.env, self.ctx, e, &nodes.part(1)))?;
        push_claim(claims, Claim::of(e))
    }

    /// The rules of the expression and of the conversion of a converted proof, at the first node.
    #[inline(never)]
    fn check_converted(&self, e: &Expr, conv: &Conv, nodes: &Cursor) -> Result<(), Stop>
        requires { ConvThere (length (signatures self.now.env.now)) (length self.now.ctx.now) (conversion conv.now) }
        ensures { Judged result (converted_rules self.now.env.now self.now.ctx.now (tree e.now) (conversion conv.now) (first nodes.now)) }
    {
        refuse(check_expr(self.env, self.ctx, e, &nodes.part(1)))?;
        self.check_conv(conv, &nodes.part(2))
    }

    /// The rules of a proof, at the first node; what it proves is put behind the claims. The lets are
    /// what the visible ones prove, the outermost first; they are the same afterwards.
    #[cycle(check_proof)]
    pub(crate) fn check_proof(
        &self,
        lets: &mut Lets<'t>,
        claims: &mut Vec<Claim<'t>>,
        proof: &'t Proof,
        nodes: &Cursor,
    ) -> Result<(), Stop>
        requires over { (lets.old.env ≡ self.now.env.now) × (lets.old.hyps ≡ self.now.hyps.now) }
        requires there { ProofThere (length (signatures self.now.env.now)) (length self.now.ctx.now) (length (assertions self.now.env.now)) (length (listed self.now.hyps.now)) (length (listed lets.old.lets)) (proof_view proof.now) }
        ensures judged { Judged result (proof_rules self.now.env.now self.now.ctx.now self.now.hyps.now lets.old.lets (proof_view proof.now) (first nodes.now)) }
        ensures claims { OnOk result (claim_trees claims.new.items ≡ with_fact (claim_trees claims.old.items) (proved self.now.env.now self.now.hyps.now lets.old.lets (proof_view proof.now))) }
        ensures same { OnOk result (lets.new ≡ lets.old) }
    {
        match proof {
            Proof::Hyp(i) => self.claim_hyp(claims, *i),
            Proof::Name(i) => claim_let(lets, claims, *i),
            Proof::Cite(number, es, proofs) => {
                self.check_citation(lets, claims, *number, es, proofs, nodes)
            }
            Proof::Conv(e, conv, proof) => {
                self.check_conversion(lets, claims, e, conv.get(), proof.get(), nodes)
            }
            Proof::Let(first, second) => {
                self.check_let(lets, claims, first.get(), second.get(), nodes)
            }
            Proof::Gap(e) => self.check_gap(claims, e, nodes),
        }
    }

    /// The rules of a citation, at the first node; what it proves is put behind the claims.
    #[cycle(check_proof)]
    #[inline(never)]
    fn check_citation(
        &self,
        lets: &mut Lets<'t>,
        claims: &mut Vec<Claim<'t>>,
        number: u32,
        es: &'t Exprs,
        proofs: &'t Proofs,
        nodes: &Cursor,
    ) -> Result<(), Stop>
        requires over { (lets.old.env ≡ self.now.env.now) × (lets.old.hyps ≡ self.now.hyps.now) }
        requires number { number < length (assertions self.now.env.now) }
        requires operands { ExprsThere (length (signatures self.now.env.now)) (length self.now.ctx.now) es.now }
        requires subproofs { ProofsThere (length (signatures self.now.env.now)) (length self.now.ctx.now) (length (assertions self.now.env.now)) (length (listed self.now.hyps.now)) (length (listed lets.old.lets)) proofs.now }
        ensures judged { Judged result (proof_rules self.now.env.now self.now.ctx.now self.now.hyps.now lets.old.lets (by_citation number es.now proofs.now) (first nodes.now)) }
        ensures claims { OnOk result (claim_trees claims.new.items ≡ with_fact (claim_trees claims.old.items) (proved self.now.env.now self.now.hyps.now lets.old.lets (by_citation number es.now proofs.now))) }
        ensures same { OnOk result (lets.new ≡ lets.old) }
    {
        let from = claims.len();
        self.check_part_exprs(es, 1, nodes)?;
        let mut left = nodes.parts_after(2);
        for proof in proofs.as_slice() {
            self.check_proof(lets, claims, proof, &left)?;
            left = left.rest();
        }
        self.check_cited(lets, claims, from, number, es, proofs.as_slice(), nodes)
    }

    /// The rules of a converted proof, at the first node; what it proves is put behind the claims.
    #[cycle(check_proof)]
    #[inline(never)]
    fn check_conversion(
        &self,
        lets: &mut Lets<'t>,
        claims: &mut Vec<Claim<'t>>,
        e: &'t Expr,
        conv: &Conv,
        proof: &'t Proof,
        nodes: &Cursor,
    ) -> Result<(), Stop>
        requires over { (lets.old.env ≡ self.now.env.now) × (lets.old.hyps ≡ self.now.hyps.now) }
        requires conv { ConvThere (length (signatures self.now.env.now)) (length self.now.ctx.now) (conversion conv.now) }
        requires proof { ProofThere (length (signatures self.now.env.now)) (length self.now.ctx.now) (length (assertions self.now.env.now)) (length (listed self.now.hyps.now)) (length (listed lets.old.lets)) (proof_view proof.now) }
        ensures judged { Judged result (proof_rules self.now.env.now self.now.ctx.now self.now.hyps.now lets.old.lets (by_conv (tree e.now) (conversion conv.now) (proof_view proof.now)) (first nodes.now)) }
        ensures claims { OnOk result (claim_trees claims.new.items ≡ with_fact (claim_trees claims.old.items) (tree e.now)) }
        ensures same { OnOk result (lets.new ≡ lets.old) }
    {
        let from = claims.len();
        self.check_converted(e, conv, nodes)?;
        self.check_proof(lets, claims, proof, &nodes.part(3))?;
        let goes = goes_between(self.alloc, conv, e, claims, from)?;
        if !goes {
            return Err(Stop::Refused(nodes.fault(U::Conversion)));
        }
        claim_instead(claims, from, e)
    }

    /// The rules of a let, at the first node; what it proves is put behind the claims.
    #[cycle(check_proof)]
    #[inline(never)]
    fn check_let(
        &self,
        lets: &mut Lets<'t>,
        claims: &mut Vec<Claim<'t>>,
        stated: &'t Proof,
        proof: &'t Proof,
        nodes: &Cursor,
    ) -> Result<(), Stop>
        requires over { (lets.old.env ≡ self.now.env.now) × (lets.old.hyps ≡ self.now.hyps.now) }
        requires stated { ProofThere (length (signatures self.now.env.now)) (length self.now.ctx.now) (length (assertions self.now.env.now)) (length (listed self.now.hyps.now)) (length (listed lets.old.lets)) (proof_view stated.now) }
        requires proof { ProofThere (length (signatures self.now.env.now)) (length self.now.ctx.now) (length (assertions self.now.env.now)) (length (listed self.now.hyps.now)) (length (listed lets.old.lets) + 1) (proof_view proof.now) }
        ensures judged { Judged result (proof_rules self.now.env.now self.now.ctx.now self.now.hyps.now lets.old.lets (by_let (proof_view stated.now) (proof_view proof.now)) (first nodes.now)) }
        ensures claims { OnOk result (claim_trees claims.new.items ≡ with_fact (claim_trees claims.old.items) (proved self.now.env.now self.now.hyps.now lets.old.lets (by_let (proof_view stated.now) (proof_view proof.now)))) }
        ensures same { OnOk result (lets.new ≡ lets.old) }
    {
        let from = claims.len();
        self.check_proof(lets, claims, stated, &nodes.part(2))?;
        name_claim(self.alloc, lets, claims, from, stated)?;
        self.check_proof(lets, claims, proof, &nodes.part(3))?;
        lets.close();
        Ok(())
    }
}
