//! What a body has made between two of its commands, and what each command makes.
ghost use Rattle.std.specs.Prelude.{ℕ, ◌≡◌, ◌≤◌, ◌<◌, ◌+◌, ◌^◌, ◌++◌, ◌∷◌, [], List, IfOk, OnOk, length, map, reverse, drop};
ghost use Rattle.mz_cmd.specs.declared.code.ProofCode.TheVariants as code;
ghost use Rattle.mz_layout_tables.specs.Tables.{thm_count};
ghost use Rattle.mz_trace.specs.Nodes.{IsConversion};
ghost use Rattle.mz_trace.specs.Entries.{HasOwed};
ghost use Rattle.mz_trace.specs.Commands.{stage_of, Stage, IsAny, IsRead, Goes, Leads, with_variable, with_kept, on_stack, with_name, MayBuild, IsBuilt, MayCite, IsCited, MayPay, Pays, PaysOne, no_stage};
ghost use Rattle.mz_trace.specs.Sides.{paired, AreApplications, HaveSides};
ghost use Rattle.mz_trace.specs.declared.node.RunNode.TheVariants as node;
ghost use Rattle.mz_trace.specs.declared.entry.Entry.TheVariants.{Held, ForOperand};

use crate::entry::{Entry, Item};
use crate::node::{RunNode, add, application, number};
use crate::stack::{
    keep, kept, pop_conversion, pop_expr, pop_exprs, pop_held, pop_owed, pop_pair, pop_proof,
    pop_proofs, pop_sides, push,
};
use crate::streams::{hypotheses, met_variables};
use mz_cmd::{ProofCode, Steps};
use mz_layout_tables::Mmb;
use mz_logic_theory::Terms;
use std::alloc::{AllocError, Global};
use std::sync::ledger::Ledger;

/// What a body has made so far: nodes, by whose numbers stand the heap, the stack with its top last, the
/// hypotheses and the proofs with names; how many variables there are, and the sorts of the dummies.
#[derive(Drop)]
pub(crate) struct Making {
    pub alloc: Global,
    pub nodes: Vec<RunNode>,
    pub heap: Vec<Item>,
    pub stack: Vec<Entry>,
    pub hyps: Vec<u32>,
    pub lets: Vec<u32>,
    pub variables: usize,
    pub dummies: Vec<u32>,
}

impl Making {
    /// Nothing.
    pub(crate) fn new(alloc: Global) -> Making
        ensures { stage_of result ≡ no_stage }
    {
        Making {
            alloc,
            nodes: Vec::new(alloc),
            heap: Vec::new(alloc),
            stack: Vec::new(alloc),
            hyps: Vec::new(alloc),
            lets: Vec::new(alloc),
            variables: 0,
            dummies: Vec::new(alloc),
        }
    }

    /// A new variable, which is in the heap from then on.
    pub(crate) fn variable(&mut self) -> Result<u32, AllocError>
        ensures stage { OnOk result (stage_of self.new ≡ with_variable (stage_of self.old)) }
        ensures made { IfOk result (λ n. n ≡ length self.old.nodes.items) }
    {
        let place = number(self.variables)?;
        let made = add(&mut self.nodes, RunNode::Var(place))?;
        keep(&mut self.heap, Item::Expr(made))?;
        self.variables += 1;
        Ok(made)
    }

    fn hold(&mut self, item: Item) -> Result<(), AllocError>
        ensures { OnOk result (stage_of self.new ≡ on_stack (stage_of self.old) (Held item)) }
    {
        push(&mut self.stack, Entry::Held(item))
    }

    /// Executes a command other than END.
    pub(crate) fn step<L: Ledger>(
        &mut self,
        mmb: &Mmb,
        code: ProofCode,
        value: u32,
        steps: &mut Steps<L>,
    ) -> Result<(), AllocError>
        requires { Goes (IsRead mmb.now) code value (stage_of self.old) }
        ensures leads { OnOk result (Leads (IsRead mmb.now) code value (stage_of self.old) (stage_of self.new)) }
        ensures most { steps.new ≤ steps.old + length mmb.now }
    {
        match code {
            ProofCode::Term => self.term(mmb, value),
            ProofCode::TermSave => self.term_save(mmb, value),
            ProofCode::Ref | ProofCode::ConvRef => self.refer(value),
            ProofCode::Dummy => self.dummy(value),
            ProofCode::Thm => self.thm(mmb, value, steps),
            ProofCode::ThmSave => self.thm_save(mmb, value, steps),
            ProofCode::Hyp => self.hyp(),
            ProofCode::Conv => self.conv(),
            ProofCode::Refl => self.refl(),
            ProofCode::Symm => self.symm(),
            ProofCode::Cong => self.cong(),
            ProofCode::Unfold => self.unfold(mmb, steps),
            ProofCode::ConvCut => self.conv_cut(),
            ProofCode::ConvSave => self.conv_save(),
            ProofCode::Save => self.save(),
            ProofCode::Sorry => unreachable!(),
        }
    }

    /// The application of a term to the operands on top.
    fn build(&mut self, mmb: &Mmb, t: u32) -> Result<u32, AllocError>
        requires { MayBuild mmb.now t (stage_of self.old) }
        ensures { IfOk result (λ made. IsBuilt mmb.now t (stage_of self.old) (stage_of self.new) made) }
    {
        let operands = pop_exprs(self.alloc, mmb.arity(t), &mut self.stack)?;
        add(&mut self.nodes, RunNode::App(t, operands))
    }

    fn term(&mut self, mmb: &Mmb, t: u32) -> Result<(), AllocError>
        requires { Goes (IsRead mmb.now) code.Term t (stage_of self.old) }
        ensures { OnOk result (Leads (IsRead mmb.now) code.Term t (stage_of self.old) (stage_of self.new)) }
    {
        let made = self.build(mmb, t)?;
        self.hold(Item::Expr(made))
    }

    fn term_save(&mut self, mmb: &Mmb, t: u32) -> Result<(), AllocError>
        requires { Goes (IsRead mmb.now) code.TermSave t (stage_of self.old) }
        ensures { OnOk result (Leads (IsRead mmb.now) code.TermSave t (stage_of self.old) (stage_of self.new)) }
    {
        let made = self.build(mmb, t)?;
        keep(&mut self.heap, Item::Expr(made))?;
        self.hold(Item::Expr(made))
    }

    fn dummy(&mut self, sort: u32) -> Result<(), AllocError>
        ensures { OnOk result (Leads IsAny code.Dummy sort (stage_of self.old) (stage_of self.new)) }
    {
        let made = self.variable()?;
        self.dummies.push(sort)?;
        self.hold(Item::Expr(made))
    }

    /// An item of the heap: a conversion pays what is owed on top, another is pushed.
    fn refer(&mut self, place: u32) -> Result<(), AllocError>
        requires { Goes IsAny code.Ref place (stage_of self.old) }
        ensures { OnOk result (Leads IsAny code.Ref place (stage_of self.old) (stage_of self.new)) }
    {
        match kept(&self.heap, place) {
            Item::Conversion(_, _, tree) => {
                let _ = pop_owed(&mut self.stack);
                self.pay(tree)
            }
            item => self.hold(item),
        }
    }

    /// Cites an assertion for the expression on top: the expression and its proof, which take the place of
    /// the operands and of the proofs of the hypotheses.
    fn cite<L: Ledger>(
        &mut self,
        mmb: &Mmb,
        t: u32,
        steps: &mut Steps<L>,
    ) -> Result<(u32, u32), AllocError>
        requires { MayCite mmb.now t (stage_of self.old) }
        ensures cited { IfOk result (λ r. IsCited mmb.now t (stage_of self.old) (stage_of self.new) r.0 r.1) }
        ensures most { steps.new ≤ steps.old + length mmb.now }
    {
        let claim = pop_expr(&mut self.stack);
        let operands = pop_exprs(self.alloc, mmb.thm_arity(t), &mut self.stack)?;
        let (_, stream) = mmb.unify_of_thm(t);
        // That the file is a binary is reported by the call, so the length of its rest fits.
        let _ = mmb.file();
        let proofs = pop_proofs(self.alloc, hypotheses(stream, steps), &mut self.stack)?;
        let proof = add(&mut self.nodes, RunNode::Use(t, claim, operands, proofs))?;
        Ok((claim, proof))
    }

    /// The proof gets the next name, and stands by it from then on.
    fn name(&mut self, claim: u32, proof: u32) -> Result<(), AllocError>
        ensures { OnOk result (stage_of self.new ≡ with_name (stage_of self.old) claim proof) }
    {
        let name = number(self.lets.len())?;
        let named = add(&mut self.nodes, RunNode::Let(name))?;
        self.lets.push(proof)?;
        keep(&mut self.heap, Item::Proof(claim, named))?;
        self.hold(Item::Proof(claim, named))
    }

    fn thm<L: Ledger>(&mut self, mmb: &Mmb, t: u32, steps: &mut Steps<L>) -> Result<(), AllocError>
        requires { Goes (IsRead mmb.now) code.Thm t (stage_of self.old) }
        ensures leads { OnOk result (Leads (IsRead mmb.now) code.Thm t (stage_of self.old) (stage_of self.new)) }
        ensures most { steps.new ≤ steps.old + length mmb.now }
    {
        let (claim, proof) = self.cite(mmb, t, steps)?;
        self.hold(Item::Proof(claim, proof))
    }

    fn thm_save<L: Ledger>(
        &mut self,
        mmb: &Mmb,
        t: u32,
        steps: &mut Steps<L>,
    ) -> Result<(), AllocError>
        requires { Goes (IsRead mmb.now) code.ThmSave t (stage_of self.old) }
        ensures leads { OnOk result (Leads (IsRead mmb.now) code.ThmSave t (stage_of self.old) (stage_of self.new)) }
        ensures most { steps.new ≤ steps.old + length mmb.now }
    {
        let (claim, proof) = self.cite(mmb, t, steps)?;
        self.name(claim, proof)
    }

    fn hyp(&mut self) -> Result<(), AllocError>
        requires { Goes IsAny code.Hyp 0 (stage_of self.old) }
        ensures { OnOk result (Leads IsAny code.Hyp 0 (stage_of self.old) (stage_of self.new)) }
    {
        let claim = pop_expr(&mut self.stack);
        let hyp = number(self.hyps.len())?;
        let proof = add(&mut self.nodes, RunNode::Hyp(hyp))?;
        self.hyps.push(claim)?;
        keep(&mut self.heap, Item::Proof(claim, proof))
    }

    fn conv(&mut self) -> Result<(), AllocError>
        requires { Goes IsAny code.Conv 0 (stage_of self.old) }
        ensures { OnOk result (Leads IsAny code.Conv 0 (stage_of self.old) (stage_of self.new)) }
    {
        let (from, proof) = pop_proof(&mut self.stack);
        let claim = pop_expr(&mut self.stack);
        push(&mut self.stack, Entry::ForProof(claim, proof))?;
        push(&mut self.stack, Entry::Owed(claim, from))
    }

    fn refl(&mut self) -> Result<(), AllocError>
        requires { Goes IsAny code.Refl 0 (stage_of self.old) }
        ensures { OnOk result (Leads IsAny code.Refl 0 (stage_of self.old) (stage_of self.new)) }
    {
        let (left, _) = pop_owed(&mut self.stack);
        let tree = add(&mut self.nodes, RunNode::Refl(left))?;
        self.pay(tree)
    }

    fn symm(&mut self) -> Result<(), AllocError>
        requires { Goes IsAny code.Symm 0 (stage_of self.old) }
        ensures { OnOk result (Leads IsAny code.Symm 0 (stage_of self.old) (stage_of self.new)) }
    {
        let (left, right) = pop_owed(&mut self.stack);
        push(&mut self.stack, Entry::ForTurned)?;
        push(&mut self.stack, Entry::Owed(right, left))
    }

    /// What is owed between two applications becomes what is owed between their operands; where there are
    /// none, it is paid.
    fn cong(&mut self) -> Result<(), AllocError>
        requires { Goes IsAny code.Cong 0 (stage_of self.old) }
        ensures { OnOk result (Leads IsAny code.Cong 0 (stage_of self.old) (stage_of self.new)) }
    {
        let (left, right) = pop_owed(&mut self.stack);
        let (term, mut sides) = self.operands_of(left, right)?;
        match pop_pair(&mut sides) {
            Some((first, other)) => {
                let done = Vec::new(self.alloc);
                push(&mut self.stack, Entry::ForOperand(term, done, sides))?;
                push(&mut self.stack, Entry::Owed(first, other))
            }
            None => {
                let tree = add(&mut self.nodes, RunNode::Refl(left))?;
                self.pay(tree)
            }
        }
    }

    /// The term of two applications, and their operands in pairs, the first ones last.
    fn operands_of(&self, left: u32, right: u32) -> Result<(u32, Vec<(u32, u32)>), AllocError>
        requires { AreApplications self.now.nodes.items left right }
        ensures { IfOk result (λ r. HaveSides self.now.nodes.items left right r.0 r.1.items) }
    {
        let (term, ls) = application(&self.nodes, left);
        let (_, rs) = application(&self.nodes, right);
        let mut sides = pairs(self.alloc, ls, rs)?;
        sides.reverse();
        Ok((term, sides))
    }

    fn unfold<L: Ledger>(&mut self, mmb: &Mmb, steps: &mut Steps<L>) -> Result<(), AllocError>
        requires { Goes (IsRead mmb.now) code.Unfold 0 (stage_of self.old) }
        ensures leads { OnOk result (Leads (IsRead mmb.now) code.Unfold 0 (stage_of self.old) (stage_of self.new)) }
        ensures most { steps.new ≤ steps.old + length mmb.now }
    {
        let target = pop_expr(&mut self.stack);
        let (left, right) = pop_sides(&mut self.stack);
        let (term, operands) = application(&self.nodes, left);
        let operands = Vec::from_slice(self.alloc, operands)?;
        let (_, stream) = mmb.unify_of_term(term);
        // That the file is a binary is reported by the call, so the length of its rest fits.
        let _ = mmb.file();
        let met = met_variables(self.alloc, &self.nodes, stream, target, steps)?;
        push(
            &mut self.stack,
            Entry::ForUnfolded(term, target, operands, met),
        )?;
        push(&mut self.stack, Entry::Owed(target, right))
    }

    fn conv_cut(&mut self) -> Result<(), AllocError>
        requires { Goes IsAny code.ConvCut 0 (stage_of self.old) }
        ensures { OnOk result (Leads IsAny code.ConvCut 0 (stage_of self.old) (stage_of self.new)) }
    {
        let (left, right) = pop_owed(&mut self.stack);
        push(&mut self.stack, Entry::ForCut(left, right))?;
        push(&mut self.stack, Entry::Owed(left, right))
    }

    /// The conversion on top is kept, and pays what was owed where it was cut.
    fn conv_save(&mut self) -> Result<(), AllocError>
        requires { Goes IsAny code.ConvSave 0 (stage_of self.old) }
        ensures { OnOk result (Leads IsAny code.ConvSave 0 (stage_of self.old) (stage_of self.new)) }
    {
        let (left, right, tree) = pop_conversion(&mut self.stack);
        keep(&mut self.heap, Item::Conversion(left, right, tree))?;
        self.pay(tree)
    }

    /// What stands on top is kept: a proof by a name.
    fn save(&mut self) -> Result<(), AllocError>
        requires { Goes IsAny code.Save 0 (stage_of self.old) }
        ensures { OnOk result (Leads IsAny code.Save 0 (stage_of self.old) (stage_of self.new)) }
    {
        match pop_held(&mut self.stack) {
            Item::Proof(claim, proof) => self.name(claim, proof),
            item => {
                keep(&mut self.heap, item)?;
                self.hold(item)
            }
        }
    }

    /// What was owed on top is paid by the conversion, and what that makes whole pays in its turn.
    fn pay(&mut self, tree: u32) -> Result<(), AllocError>
        requires { MayPay (stage_of self.old) tree }
        ensures { OnOk result (Pays (stage_of self.old) tree (stage_of self.new)) }
    {
        let mut paid = tree;
        'frames: loop {
            match self.pay_one(paid)? {
                Some(whole) => paid = whole,
                None => return Ok(()),
            }
        }
    }

    /// The conversion goes into what waits for it. What is answered pays in its turn.
    fn pay_one(&mut self, paid: u32) -> Result<Option<u32>, AllocError>
        requires { MayPay (stage_of self.old) paid }
        ensures { IfOk result (λ whole. PaysOne (stage_of self.old) paid (stage_of self.new) whole) }
    {
        match self.stack.pop() {
            Some(Entry::ForProof(claim, from)) => {
                let proof = add(&mut self.nodes, RunNode::Conv(claim, paid, from))?;
                self.hold(Item::Proof(claim, proof))?;
                Ok(None)
            }
            Some(Entry::ForCut(left, right)) => {
                self.hold(Item::Conversion(left, right, paid))?;
                Ok(None)
            }
            Some(Entry::ForTurned) => Ok(Some(add(&mut self.nodes, RunNode::Sym(paid))?)),
            Some(Entry::ForUnfolded(term, target, operands, met)) => {
                let whole = add(
                    &mut self.nodes,
                    RunNode::Unfold(term, target, operands, met, paid),
                )?;
                Ok(Some(whole))
            }
            Some(Entry::ForOperand(term, done, left)) => self.pay_operand(term, done, left, paid),
            _ => unreachable!(),
        }
    }

    /// The conversion of an operand: the next operand's is owed, or the application's is whole.
    fn pay_operand(
        &mut self,
        term: u32,
        done: Vec<u32>,
        left: Vec<(u32, u32)>,
        paid: u32,
    ) -> Result<Option<u32>, AllocError>
        requires { MayPay (on_stack (stage_of self.old) (ForOperand term done left)) paid }
        ensures { IfOk result (λ whole. PaysOne (on_stack (stage_of self.old) (ForOperand term done left)) paid (stage_of self.new) whole) }
    {
        let mut made = done;
        made.push(paid)?;
        let mut behind = left;
        match pop_pair(&mut behind) {
            Some((first, other)) => {
                push(&mut self.stack, Entry::ForOperand(term, made, behind))?;
                push(&mut self.stack, Entry::Owed(first, other))?;
                Ok(None)
            }
            None => Ok(Some(add(&mut self.nodes, RunNode::Cong(term, made))?)),
        }
    }
}

/// The numbers side by side.
fn pairs(alloc: Global, ls: &[u32], rs: &[u32]) -> Result<Vec<(u32, u32)>, AllocError>
    requires { length ls.now ≡ length rs.now }
    ensures { IfOk result (λ ps. ps.items ≡ paired ls.now rs.now) }
{
    let mut sides = Vec::new(alloc);
    'operands: for i in 0..ls.len() {
        sides.push((ls[i], rs[i]))?;
    }
    Ok(sides)
}
