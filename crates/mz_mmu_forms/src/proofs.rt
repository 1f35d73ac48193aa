//! Reading a proof.
ghost use Rattle.std.specs.Prelude.{ℕ, List, ◌≡◌, ◌<◌, ◌+◌, ◌*◌, ◌^◌, ◌++◌, length, true, IfOk, IfErr, OnOk};
ghost use Rattle.mz_sexpr.specs.Node.{Node, is_atom, place};
ghost use Rattle.mz_sexpr.specs.Number.{node_count, node_at};
ghost use Rattle.mz_mmu_theory.specs.ProofView.{proof_view};
ghost use Rattle.mz_mmu_theory.specs.Cursor.{nodes_from, IsThere, node_size, nodes_size};
ghost use Rattle.mz_mmu_theory.specs.Name.{Scope as Visible, IsNewName};
ghost use Rattle.mz_mmu_theory.specs.Proofs.{IsProof, proof_keyword};
ghost use Rattle.mz_mmu_theory.specs.declared.keyword.Keyword.TheVariants.{Conv as conv_word, Let as let_word, Sorry as sorry_word, Other as no_word};
ghost use Rattle.mz_mmu_theory.specs.FormOrder.{proof_asked, proof_asked_by, new_asked};
ghost use Rattle.mz_mmu_forms.specs.ProofSteps.{ProofWaits, CanGoOn, SaysOfProof, ProofSaysBy, IsNextProof, size_behind, proof_turns};
ghost use Rattle.mz_mmu_forms.specs.ScopeView.{scope};
ghost use Rattle.mz_mmu_theory.specs.Stops.{Stops};
ghost use Rattle.mz_mmu_theory.specs.declared.fault.Stop.TheVariants.{Mem};

use crate::reader::Reader;
use crate::scope::Scope;
use crate::space::Space;
use mz_logic_theory::{Expr, Exprs, push_tightly};
use mz_mmu_theory::{ConvBox, Keyword, Proof, ProofBox, Proofs, Stop};
use mz_sexpr::U;

/// What a proof is read for.
#[derive(Drop)]
pub enum ProofOuter<'a> {
    /// An expression, which converts to what is proved.
    Conv(Expr, ConvBox),
    /// A let of this name; the node is that of the proof in which it is visible.
    Let(&'a [u8], u32),
    /// A let whose first proof is this one.
    Scope(ProofBox),
    /// A citation: its number, operands, the proofs that have been read, and the node behind the one
    /// that is being read.
    Cite(u32, Exprs, Vec<Proof>, Option<u32>),
}

/// How far a proof has been read.
#[derive(Drop)]
pub enum ProofStep<'a> {
    /// Up to a proof within it, which this node is.
    Inner(ProofOuter<'a>, u32),
    /// The whole.
    Whole(Proof),
}

impl<'r, 'a> Reader<'r, 'a> {
    /// The hypothesis or the let that an atom is.
    fn fact(&self, hyps: &Space<'a>, lets: &Space<'a>, n: u32) -> Result<Proof, Stop>
        requires within { n < node_count self.now.nodes.now }
        requires atom { is_atom (node_at self.now.nodes.now n) ≡ true }
        ensures read { (sc : Visible) → IfOk result (λ p. IsProof sc hyps.now lets.now (node_at self.now.nodes.now n) (proof_view p)) }
        ensures stops { (sc : Visible) → IfErr result (λ stop. Stops stop (proof_asked sc hyps.now lets.now (node_at self.now.nodes.now n))) }
    {
        let name = self.name(n)?;
        if let Some(i) = hyps.number_of(name) {
            return Ok(Proof::Hyp(i));
        }
        match lets.number_of(name) {
            Some(i) => Ok(Proof::Name(i)),
            None => Err(self.wrong(n, U::UnknownName)),
        }
    }

    /// A let's name: no hypothesis's and no visible let's.
    fn let_name(&self, hyps: &Space<'a>, lets: &Space<'a>, n: u32) -> Result<&'a [u8], Stop>
        requires { n < node_count self.now.nodes.now }
        ensures read { IfOk result (λ w. IsNewName (hyps.now ++ lets.now) (node_at self.now.nodes.now n) w.now) }
        ensures stops { IfErr result (λ stop. Stops stop (new_asked (hyps.now ++ lets.now) (node_at self.now.nodes.now n))) }
    {
        let name = self.new_name(hyps, n)?;
        match lets.number_of(name) {
            Some(_) => Err(self.wrong(n, U::NameTwice)),
            None => Ok(name),
        }
    }

    /// A box of the proof that the node is.
    ///
    /// # Errors
    ///
    /// The first of the rules on forms, gaps and names that the node breaks, at its place; or where there is
    /// no memory.
    pub fn boxed_proof(
        &self,
        sc: &Scope<'_, 'a>,
        hyps: &Space<'a>,
        lets: &mut Space<'a>,
        n: u32,
    ) -> Result<ProofBox, Stop>
        requires within { n < node_count self.now.nodes.now }
        requires few { length lets.old + node_size (node_at self.now.nodes.now n) < 2 ^ 32 }
        ensures read { IfOk result (IsProof (scope sc.now) hyps.now lets.old (node_at self.now.nodes.now n)) }
        ensures same { OnOk result (lets.new ≡ lets.old) }
        ensures stops { IfErr result (λ stop. Stops stop (proof_asked (scope sc.now) hyps.now lets.old (node_at self.now.nodes.now n))) }
    {
        let proof = self.proof(sc, hyps, lets, n)?;
        let proof = ProofBox::new(self.alloc, proof)?;
        Ok(proof)
    }

    /// The proof that the node is.
    ///
    /// Proofs may stand deep in one another. Those around the one that is being read are kept in a
    /// list, and not on the stack.
    fn proof(
        &self,
        sc: &Scope<'_, 'a>,
        hyps: &Space<'a>,
        lets: &mut Space<'a>,
        n: u32,
    ) -> Result<Proof, Stop>
        requires within { n < node_count self.now.nodes.now }
        requires few { length lets.old + node_size (node_at self.now.nodes.now n) < 2 ^ 32 }
        ensures read { IfOk result (λ p. IsProof (scope sc.now) hyps.now lets.old (node_at self.now.nodes.now n) (proof_view p)) }
        ensures same { OnOk result (lets.new ≡ lets.old) }
        ensures stops { IfErr result (λ stop. Stops stop (proof_asked (scope sc.now) hyps.now lets.old (node_at self.now.nodes.now n))) }
    {
        let mut outers: Vec<ProofOuter> = Vec::new(self.alloc);
        let mut step = self.begun_proof(sc, hyps, lets, n)?;
        'reading: loop {
            match step {
                ProofStep::Inner(outer, inner) => {
                    outers.push(outer)?;
                    step = self.begun_proof(sc, hyps, lets, inner)?;
                }
                ProofStep::Whole(proof) => match outers.pop() {
                    None => return Ok(proof),
                    Some(outer) => step = self.proof_back(lets, outer, proof)?,
                },
            }
        }
    }

    /// What is read first of a proof.
    fn begun_proof(
        &self,
        sc: &Scope<'_, 'a>,
        hyps: &Space<'a>,
        lets: &Space<'a>,
        n: u32,
    ) -> Result<ProofStep<'a>, Stop>
        requires within { n < node_count self.now.nodes.now }
        requires few { length lets.now + node_size (node_at self.now.nodes.now n) < 2 ^ 32 }
        ensures says { IfOk result (SaysOfProof (scope sc.now) hyps.now self.now.nodes.now lets.now (node_at self.now.nodes.now n) lets.now) }
        ensures less { IfOk result (λ step. proof_turns self.now.nodes.now step + 1 < 2 * node_size (node_at self.now.nodes.now n)) }
        ensures stops { IfErr result (λ stop. Stops stop (proof_asked (scope sc.now) hyps.now lets.now (node_at self.now.nodes.now n))) }
    {
        if self.nodes.is_atom(n) {
            let fact = self.fact(hyps, lets, n)?;
            return Ok(ProofStep::Whole(fact));
        }
        let Some(head) = self.nodes.first(n) else {
            return Err(self.wrong(n, U::Form));
        };
        self.proof_by(sc, hyps, lets, n, head, self.nodes.next(head))
    }

    /// What is read first behind the keyword with which a proof begins.
    fn proof_by(
        &self,
        sc: &Scope<'_, 'a>,
        hyps: &Space<'a>,
        lets: &Space<'a>,
        n: u32,
        head: u32,
        rest: Option<u32>,
    ) -> Result<ProofStep<'a>, Stop>
        requires within { n < node_count self.now.nodes.now }
        requires head { head < node_count self.now.nodes.now }
        requires there { IsThere self.now.nodes.now rest }
        requires few { length lets.now + nodes_size (nodes_from self.now.nodes.now rest) < 2 ^ 32 }
        ensures says { IfOk result (ProofSaysBy (scope sc.now) hyps.now self.now.nodes.now lets.now (proof_keyword (node_at self.now.nodes.now head)) (place (node_at self.now.nodes.now n)) (node_at self.now.nodes.now head) rest) }
        ensures less { IfOk result (λ step. proof_turns self.now.nodes.now step < 2 * nodes_size (nodes_from self.now.nodes.now rest) + 2) }
        ensures stops { IfErr result (λ stop. Stops stop (proof_asked_by (scope sc.now) hyps.now lets.now (proof_keyword (node_at self.now.nodes.now head)) (place (node_at self.now.nodes.now n)) (node_at self.now.nodes.now head) (nodes_from self.now.nodes.now rest))) }
    {
        match Keyword::of_proof(self.word(head)) {
            Keyword::Conv => self.conv_proof(sc, n, rest),
            Keyword::Let => self.let_proof(hyps, lets, n, rest),
            Keyword::Sorry => self.gap(sc, n, rest),
            _ => self.citation(sc, n, head, rest),
        }
    }

    /// What is left of `(:conv expr conv proof)`.
    fn conv_proof(
        &self,
        sc: &Scope<'_, 'a>,
        n: u32,
        rest: Option<u32>,
    ) -> Result<ProofStep<'a>, Stop>
        requires within { n < node_count self.now.nodes.now }
        requires there { IsThere self.now.nodes.now rest }
        ensures says { (hyps lets : List (List ℕ)) (h : Node) → length lets + nodes_size (nodes_from self.now.nodes.now rest) < 2 ^ 32
            → IfOk result (ProofSaysBy (scope sc.now) hyps self.now.nodes.now lets conv_word (place (node_at self.now.nodes.now n)) h rest) }
        ensures less { IfOk result (λ step. proof_turns self.now.nodes.now step < 2 * nodes_size (nodes_from self.now.nodes.now rest) + 2) }
        ensures stops { (hyps lets : List (List ℕ)) (h : Node) → IfErr result (λ stop. Stops stop (proof_asked_by (scope sc.now) hyps lets conv_word (place (node_at self.now.nodes.now n)) h (nodes_from self.now.nodes.now rest))) }
    {
        let Some((expr, conv, part)) = self.three(rest) else {
            return Err(self.wrong(n, U::Form));
        };
        let expr = self.expr(sc, expr)?;
        let read = self.conv(sc, conv)?;
        let boxed = ConvBox::new(self.alloc, read)?;
        Ok(ProofStep::Inner(ProofOuter::Conv(expr, boxed), part))
    }

    /// What is left of `(:let h proof proof)`.
    fn let_proof(
        &self,
        hyps: &Space<'a>,
        lets: &Space<'a>,
        n: u32,
        rest: Option<u32>,
    ) -> Result<ProofStep<'a>, Stop>
        requires within { n < node_count self.now.nodes.now }
        requires there { IsThere self.now.nodes.now rest }
        requires few { length lets.now + nodes_size (nodes_from self.now.nodes.now rest) < 2 ^ 32 }
        ensures says { (sc : Visible) (h : Node) → IfOk result (ProofSaysBy sc hyps.now self.now.nodes.now lets.now let_word (place (node_at self.now.nodes.now n)) h rest) }
        ensures less { IfOk result (λ step. proof_turns self.now.nodes.now step < 2 * nodes_size (nodes_from self.now.nodes.now rest) + 2) }
        ensures stops { (sc : Visible) (h : Node) → IfErr result (λ stop. Stops stop (proof_asked_by sc hyps.now lets.now let_word (place (node_at self.now.nodes.now n)) h (nodes_from self.now.nodes.now rest))) }
    {
        let Some((name, first, second)) = self.three(rest) else {
            return Err(self.wrong(n, U::Form));
        };
        let name = self.let_name(hyps, lets, name)?;
        Ok(ProofStep::Inner(ProofOuter::Let(name, second), first))
    }

    /// What is left of `(:sorry expr)`, which only a draft may have.
    fn gap(&self, sc: &Scope<'_, 'a>, n: u32, rest: Option<u32>) -> Result<ProofStep<'a>, Stop>
        requires within { n < node_count self.now.nodes.now }
        requires there { IsThere self.now.nodes.now rest }
        ensures says { (hyps lets : List (List ℕ)) (h : Node) → IfOk result (ProofSaysBy (scope sc.now) hyps self.now.nodes.now lets sorry_word (place (node_at self.now.nodes.now n)) h rest) }
        ensures less { IfOk result (λ step. proof_turns self.now.nodes.now step < 2 * nodes_size (nodes_from self.now.nodes.now rest) + 2) }
        ensures stops { (hyps lets : List (List ℕ)) (h : Node) → IfErr result (λ stop. Stops stop (proof_asked_by (scope sc.now) hyps lets sorry_word (place (node_at self.now.nodes.now n)) h (nodes_from self.now.nodes.now rest))) }
    {
        if !sc.names.mode.allows_gaps() {
            return Err(self.wrong(n, U::Sorry));
        }
        let Some(expr) = self.one(rest) else {
            return Err(self.wrong(n, U::Form));
        };
        let expr = self.expr(sc, expr)?;
        Ok(ProofStep::Whole(Proof::Gap(expr)))
    }

    /// `(T (expr ..) proof ..)`.
    fn citation(
        &self,
        sc: &Scope<'_, 'a>,
        n: u32,
        head: u32,
        rest: Option<u32>,
    ) -> Result<ProofStep<'a>, Stop>
        requires within { n < node_count self.now.nodes.now }
        requires head { head < node_count self.now.nodes.now }
        requires there { IsThere self.now.nodes.now rest }
        ensures says { (hyps lets : List (List ℕ)) → length lets + nodes_size (nodes_from self.now.nodes.now rest) < 2 ^ 32
            → IfOk result (ProofSaysBy (scope sc.now) hyps self.now.nodes.now lets no_word (place (node_at self.now.nodes.now n)) (node_at self.now.nodes.now head) rest) }
        ensures less { IfOk result (λ step. proof_turns self.now.nodes.now step < 2 * nodes_size (nodes_from self.now.nodes.now rest) + 2) }
        ensures stops { (hyps lets : List (List ℕ)) → IfErr result (λ stop. Stops stop (proof_asked_by (scope sc.now) hyps lets no_word (place (node_at self.now.nodes.now n)) (node_at self.now.nodes.now head) (nodes_from self.now.nodes.now rest))) }
    {
        let Some(operands) = rest else {
            return Err(self.wrong(n, U::Form));
        };
        let assertion = self.number(&sc.names.assertions, head)?;
        let exprs = self.expr_list(sc, operands)?;
        let proofs: Vec<Proof> = Vec::new(self.alloc);
        let left = self.nodes.next(operands);
        Ok(self.next_proof(assertion, exprs, proofs, left))
    }

    /// A citation with its proofs so far, and the node of the next one.
    fn next_proof(
        &self,
        assertion: u32,
        exprs: Exprs,
        proofs: Vec<Proof>,
        left: Option<u32>,
    ) -> ProofStep<'a>
        requires { IsThere self.now.nodes.now left }
        ensures { IsNextProof self.now.nodes.now assertion exprs proofs.items left result }
    {
        match left {
            None => ProofStep::Whole(Proof::Cite(assertion, exprs, Proofs::from_vec(proofs))),
            Some(n) => {
                let outer = ProofOuter::Cite(assertion, exprs, proofs, self.nodes.next(n));
                ProofStep::Inner(outer, n)
            }
        }
    }

    /// What a proof was read for, with it. A let's name is visible from the end of its first proof to
    /// that of its second.
    fn proof_back(
        &self,
        lets: &mut Space<'a>,
        outer: ProofOuter<'a>,
        proof: Proof,
    ) -> Result<ProofStep<'a>, Stop>
        requires { CanGoOn self.now.nodes.now lets.old outer }
        ensures says { (sc : Visible) (hyps around : List (List ℕ)) (m inner : Node) → IfOk result (λ step.
            ProofWaits sc hyps self.now.nodes.now (IsProof sc hyps around m) (proof_asked sc hyps around m) around inner lets.old outer.entry
            → IsProof sc hyps lets.old inner (proof_view proof) → SaysOfProof sc hyps self.now.nodes.now around m lets.new step) }
        ensures less { IfOk result (λ step. proof_turns self.now.nodes.now step < 2 * size_behind self.now.nodes.now outer.entry + 2) }
        ensures mem { IfErr result (λ stop. stop ≡ Mem) }
    {
        match outer {
            ProofOuter::Conv(expr, conv) => {
                let part = ProofBox::new(self.alloc, proof)?;
                Ok(ProofStep::Whole(Proof::Conv(expr, conv, part)))
            }
            ProofOuter::Let(name, second) => {
                let first = ProofBox::new(self.alloc, proof)?;
                lets.push(name)?;
                Ok(ProofStep::Inner(ProofOuter::Scope(first), second))
            }
            ProofOuter::Scope(first) => {
                let second = ProofBox::new(self.alloc, proof)?;
                lets.pop();
                Ok(ProofStep::Whole(Proof::Let(first, second)))
            }
            ProofOuter::Cite(assertion, exprs, mut proofs, left) => {
                push_tightly(&mut proofs, proof)?;
                Ok(self.next_proof(assertion, exprs, proofs, left))
            }
        }
    }
}
