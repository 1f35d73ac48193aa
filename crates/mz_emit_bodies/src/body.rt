//! Bodies of statements.
ghost use Rattle.std.specs.Prelude.{ℕ, ◌≡◌, ◌<◌, ◌^◌, ◌+◌, ◌∷◌, [], ◌++◌, OnOk, IfOk, Option, None, length};
ghost use Rattle.mz_cmd.specs.declared.code.ProofCode.TheVariants.{Conv as conv_code, Thm, Unfold};
ghost use Rattle.mz_logic_theory.specs.Conversions.{unfold_conv};
ghost use Rattle.mz_logic_theory.specs.View.{tree};
ghost use Rattle.mz_mmu_theory.specs.ConvView.{conversion, conversions};
ghost use Rattle.mz_mmu_theory.specs.Proof.{by_name, by_conv, by_let, by_gap};
ghost use Rattle.mz_mmu_theory.specs.ProofView.{proof_view, proofs_view};
ghost use Rattle.mz_store.specs.Sharing.{head_of, tree_of};
ghost use Rattle.mz_emit_theory.specs.Steps.{command_bytes};
ghost use Rattle.mz_emit_bodies.specs.TaskInvariant.{prove, prove_all, cite, push, make, pay, pay_all, give, save, task_view, to_do};
ghost use Rattle.mz_emit_bodies.specs.Instances.{AreInstances};
ghost use Rattle.mz_emit_bodies.specs.Places.{place_of};
ghost use Rattle.mz_emit_bodies.specs.Pushing.{pushes};
ghost use Rattle.mz_emit_bodies.specs.Going.{Job, IsAfter, Does, steps_left};
ghost use Rattle.mz_emit_bodies.specs.Stages.{HasDummiesBehind, Begins, Rests, writing_too, assuming, with_hyps, Writes, WritesFrom, Assumes, AssumesAll, Proves, ProvesFrom};
ghost use Rattle.mz_emit_theory.specs.BodyWriting.{write_expr, write_hyp, write_proof};

use crate::instances::{Instances, conclusion_id};
use crate::let_scopes::{Cells, Chain};
use crate::work_list::Task;
use crate::{EnvPrefix, Heap, Shared, TermTable};
use mz_cmd::{END, Mem, ProofCode, put_cmd};
use mz_logic_theory::{Expr, Exprs};
use mz_mmu_theory::{Conv, Proof, Vars};
use mz_store::Id;
use std::alloc::Global;

/// What stands before a statement.
#[derive(Clone, Copy)]
pub struct Before<'t> {
    /// Its declarations.
    pub env: &'t EnvPrefix<'t>,
    /// Its terms.
    pub table: &'t TermTable,
}

/// A body that is being written.
#[derive(Drop)]
pub struct Body<'t> {
    pub before: Before<'t>,
    pub shared: Shared,
    pub heap: Heap,
    // where the hypotheses stand in the heap
    pub hyps: Vec<u32>,
    pub cells: Cells<'t>,
    // what is to be emitted, the next last
    pub tasks: Vec<Task<'t>>,
    pub out: Vec<u8>,
}

/// Appends a task, which is the next.
fn add<'t>(tasks: &mut Vec<Task<'t>>, task: Task<'t>) -> Result<(), Mem>
    ensures { OnOk result (to_do tasks.new.items ≡ task_view task.entry ∷ to_do tasks.old.items) }
{
    tasks.push(task)?;
    Ok(())
}

/// Appends tasks that push the expressions, the first of them next.
fn push_turned(tasks: &mut Vec<Task>, ids: &[Id]) -> Result<(), Mem>
    ensures { OnOk result (to_do tasks.new.items ≡ pushes ids.now ++ to_do tasks.old.items) }
{
    for id in ids.iter().rev() {
        tasks.push(Task::Push(*id))?;
    }
    Ok(())
}

/// Appends the tasks of a citation: the operands and the conclusion are pushed, and it is cited.
fn add_citation(
    tasks: &mut Vec<Task>,
    operands: &[Id],
    conclusion: Id,
    number: u32,
) -> Result<(), Mem>
    ensures { OnOk result (to_do tasks.new.items ≡ pushes operands.now ++ push conclusion.0 ∷ give Thm number ∷ to_do tasks.old.items) }
{
    add(tasks, Task::Do(ProofCode::Thm, number))?;
    add(tasks, Task::Push(conclusion))?;
    push_turned(tasks, operands)
}

/// Appends the tasks of a conversion: its left side is pushed, and what is proved, which is
/// converted, and that is paid for.
fn add_conversion<'t>(
    tasks: &mut Vec<Task<'t>>,
    left: Id,
    part: &'t Proof,
    chain: Chain,
    conv: &'t Conv,
) -> Result<(), Mem>
    ensures { OnOk result (to_do tasks.new.items ≡ push left.0 ∷ prove (proof_view part.entry.now) chain ∷ give conv_code 0 ∷ pay (conversion conv.entry.now) ∷ to_do tasks.old.items) }
{
    add(tasks, Task::Pay(conv))?;
    add(tasks, Task::Do(ProofCode::Conv, 0))?;
    add(tasks, Task::Prove(part, chain))?;
    add(tasks, Task::Push(left))
}

/// Appends the tasks of an unfolding: both sides are pushed, it is unfolded, and the part is paid
/// for.
fn add_unfolding<'t>(
    tasks: &mut Vec<Task<'t>>,
    left: Id,
    unfolded: Id,
    part: &'t Conv,
) -> Result<(), Mem>
    ensures { OnOk result (to_do tasks.new.items ≡ push left.0 ∷ push unfolded.0 ∷ give Unfold 0 ∷ pay (conversion part.entry.now) ∷ to_do tasks.old.items) }
{
    add(tasks, Task::Pay(part))?;
    add(tasks, Task::Do(ProofCode::Unfold, 0))?;
    add(tasks, Task::Push(unfolded))?;
    add(tasks, Task::Push(left))
}

/// Appends a command, in its shortest spelling.
fn put(out: &mut Vec<u8>, code: ProofCode, value: u32) -> Result<(), Mem>
    ensures bytes { OnOk result (out.new.items ≡ out.old.items ++ command_bytes (code, value)) }
    ensures small { OnOk result (value < 2 ^ 32) }
{
    put_cmd(out, code as u8, value)
}

/// The bytes with an end.
fn ended(mut out: Vec<u8>) -> Result<Vec<u8>, Mem>
    ensures { IfOk result (λ b. b.items ≡ out.items ++ 0 ∷ []) }
{
    out.push(END)?;
    Ok(out)
}

impl<'t> Body<'t> {
    /// A body over so many parameters, of which nothing is written yet.
    pub fn new(
        alloc: Global,
        before: Before<'t>,
        shared: Shared,
        params: u32,
    ) -> Result<Body<'t>, Mem>
        requires behind { HasDummiesBehind before.env.now params shared.store shared.variables.items }
        ensures begins { IfOk result (λ b. (o : Job) → Begins o shared.store params → Rests o b) }
        ensures before { IfOk result (λ b. b.before ≡ before.entry) }
    {
        shared.store.once();
        let heap = Heap::new(alloc, params)?;
        Ok(Body {
            before,
            shared,
            heap,
            hyps: Vec::new(alloc),
            cells: Cells::new(alloc),
            tasks: Vec::new(alloc),
            out: Vec::new(alloc),
        })
    }

    /// Leaves an expression.
    pub fn put_expr(&mut self, id: Id) -> Result<(), Mem>
        requires before { IsAfter self.old.before }
        requires can { (o : Job) × Writes o self.old id.0 }
        ensures does { OnOk result ((o : Job) → Writes o self.old id.0
            → Does (writing_too o (write_expr o.store.context (tree_of o.store id.0))) self.new []) }
        ensures done { OnOk result (self.new.tasks.items ≡ []) }
        ensures same { OnOk result (self.new.before ≡ self.old.before) }
    {
        add(&mut self.tasks, Task::Push(id))?;
        self.run()
    }

    /// Assumes an expression as the next hypothesis.
    fn put_hyp(&mut self, id: Id) -> Result<(), Mem>
        requires before { IsAfter self.old.before }
        requires can { (o : Job) × Assumes o self.old id.0 }
        ensures does { OnOk result ((o : Job) → Assumes o self.old id.0
            → Rests (writing_too (assuming o (o.count + 1)) (write_hyp o.store.context o.count (tree_of o.store id.0))) self.new) }
        ensures same { OnOk result (self.new.before ≡ self.old.before) }
    {
        self.put_expr(id)?;
        put(&mut self.out, ProofCode::Hyp, 0)?;
        let place = self.heap.push();
        self.hyps.push(place)?;
        Ok(())
    }

    /// Assumes the hypotheses, in order.
    fn put_hyps(&mut self, ids: &[Id]) -> Result<(), Mem>
        requires before { IsAfter self.old.before }
        requires can { (o : Job) × AssumesAll o self.old ids.now }
        ensures does { OnOk result ((o : Job) → AssumesAll o self.old ids.now
            → Rests (with_hyps o (length ids.now) ids.now) self.new) }
        ensures same { OnOk result (self.new.before ≡ self.old.before) }
    {
        for id in ids {
            self.put_hyp(*id)?;
        }
        Ok(())
    }

    /// Leaves a proof.
    fn put_proof(&mut self, stated: &'t Proof) -> Result<(), Mem>
        requires before { IsAfter self.old.before }
        requires can { (o : Job) × Proves o self.old (proof_view stated.now) }
        ensures does { OnOk result ((o : Job) → Proves o self.old (proof_view stated.now)
            → Does (writing_too o (write_proof self.old.before.env.now o.store.context [] (proof_view stated.now))) self.new []) }
        ensures done { OnOk result (self.new.tasks.items ≡ []) }
        ensures same { OnOk result (self.new.before ≡ self.old.before) }
    {
        add(&mut self.tasks, Task::Prove(stated, None))?;
        self.run()
    }

    /// Assumes the hypotheses, and leaves a conclusion.
    pub fn put_axiom(&mut self, hyps: &[Id], conclusion: Id) -> Result<(), Mem>
        requires before { IsAfter self.old.before }
        requires can { (o : Job) × WritesFrom o self.old hyps.now conclusion.0 }
        ensures does { OnOk result ((o : Job) → WritesFrom o self.old hyps.now conclusion.0
            → Does (writing_too (with_hyps o (length hyps.now) hyps.now) (write_expr o.store.context (tree_of o.store conclusion.0))) self.new []) }
        ensures done { OnOk result (self.new.tasks.items ≡ []) }
    {
        self.put_hyps(hyps)?;
        self.put_expr(conclusion)
    }

    /// Assumes the hypotheses, and leaves a proof.
    pub fn put_theorem(&mut self, hyps: &[Id], stated: &'t Proof) -> Result<(), Mem>
        requires before { IsAfter self.old.before }
        requires can { (o : Job) × ProvesFrom o self.old hyps.now (proof_view stated.now) }
        ensures does { OnOk result ((o : Job) → ProvesFrom o self.old hyps.now (proof_view stated.now)
            → Does (writing_too (with_hyps o (length hyps.now) hyps.now) (write_proof self.old.before.env.now o.store.context [] (proof_view stated.now))) self.new []) }
        ensures done { OnOk result (self.new.tasks.items ≡ []) }
    {
        self.put_hyps(hyps)?;
        self.put_proof(stated)
    }

    /// The bytes of the body, with its end.
    pub fn end(self) -> Result<Vec<u8>, Mem>
        ensures { IfOk result (λ b. b.items ≡ self.entry.out.items ++ 0 ∷ []) }
    {
        ended(self.out)
    }

    /// Emits what is to do.
    fn run(&mut self) -> Result<(), Mem>
        requires before { IsAfter self.old.before }
        requires can { (o : Job) × Does o self.old [] }
        ensures does { OnOk result ((o : Job) → Does o self.old [] → Does o self.new []) }
        ensures done { OnOk result (self.new.tasks.items ≡ []) }
        ensures same { OnOk result (self.new.before ≡ self.old.before) }
    {
        let mut instances = Instances::new(self.shared.alloc);
        self.run_with(&mut instances)
    }

    /// The same with these instances of conclusions.
    fn run_with(&mut self, instances: &mut Instances) -> Result<(), Mem>
        requires instances { AreInstances self.old.before.env.now self.old.shared.store instances.old.items.items }
        requires before { IsAfter self.old.before }
        requires can { (o : Job) × Does o self.old [] }
        ensures does { OnOk result ((o : Job) → Does o self.old [] → Does o self.new []) }
        ensures done { OnOk result (self.new.tasks.items ≡ []) }
        ensures same { OnOk result (self.new.before ≡ self.old.before) }
    {
        while let Some(task) = self.tasks.pop() {
            self.step(task, instances)?;
        }
        Ok(())
    }

    fn step(&mut self, task: Task<'t>, instances: &mut Instances) -> Result<(), Mem>
        requires instances { AreInstances self.old.before.env.now self.old.shared.store instances.old.items.items }
        requires before { IsAfter self.old.before }
        requires can { (o : Job) × Does o self.old (task_view task ∷ []) }
        ensures does { OnOk result ((o : Job) → Does o self.old (task_view task.entry ∷ []) → Does o self.new []) }
        ensures less { OnOk result (steps_left self.new [] < steps_left self.old (task_view task.entry ∷ [])) }
        ensures instances { OnOk result (AreInstances self.old.before.env.now self.new.shared.store instances.new.items.items) }
        ensures same { OnOk result (self.new.before ≡ self.old.before) }
    {
        match task {
            Task::Prove(proof, chain) => self.prove(proof, chain),
            Task::ProveAll(proofs, chain) => self.prove_all(proofs, chain),
            Task::Cite(number, es) => self.cite(number, es, instances),
            Task::Push(id) => self.push(id),
            Task::Make(id) => self.make(id),
            Task::Pay(conv) => self.pay(conv),
            Task::PayAll(convs) => self.pay_all(convs),
            Task::Do(code, value) => self.give(code, value),
            Task::Save(cell) => self.save(cell),
        }
    }

    /// Writes a command that changes the stack alone.
    fn give(&mut self, code: ProofCode, value: u32) -> Result<(), Mem>
        requires before { IsAfter self.old.before }
        requires can { (o : Job) × Does o self.old (give code value ∷ []) }
        ensures does { OnOk result ((o : Job) → Does o self.old (give code value ∷ []) → Does o self.new []) }
        ensures less { OnOk result (steps_left self.new [] < steps_left self.old (give code value ∷ [])) }
        ensures same { OnOk result (self.new.before ≡ self.old.before) }
    {
        put(&mut self.out, code, value)
    }

    /// Pushes an expression: from the heap, where it is there.
    fn push(&mut self, id: Id) -> Result<(), Mem>
        requires before { IsAfter self.old.before }
        requires can { (o : Job) × Does o self.old (push id.0 ∷ []) }
        ensures does { OnOk result ((o : Job) → Does o self.old (push id.0 ∷ []) → Does o self.new []) }
        ensures less { OnOk result (steps_left self.new [] < steps_left self.old (push id.0 ∷ [])) }
        ensures same { OnOk result (self.new.before ≡ self.old.before) }
    {
        self.shared.store.once();
        if let Some(place) = self.heap.place(id) {
            return put(&mut self.out, ProofCode::Ref, place);
        }
        match self.shared.store.head(id) {
            None => self.make_dummy(id),
            Some(_) => {
                add(&mut self.tasks, Task::Make(id))?;
                push_turned(&mut self.tasks, self.shared.store.args(id))
            }
        }
    }

    /// Makes a dummy, where it is first needed.
    fn make_dummy(&mut self, id: Id) -> Result<(), Mem>
        requires variable { head_of (tree_of self.old.shared.store id.0) ≡ None }
        requires fresh { place_of self.old.heap.places.items id.0 ≡ None }
        requires before { IsAfter self.old.before }
        requires can { (o : Job) × Does o self.old (push id.0 ∷ []) }
        ensures does { OnOk result ((o : Job) → Does o self.old (push id.0 ∷ []) → Does o self.new []) }
        ensures less { OnOk result (steps_left self.new [] < steps_left self.old (push id.0 ∷ [])) }
        ensures same { OnOk result (self.new.before ≡ self.old.before) }
    {
        self.shared.store.once();
        let sort = self.shared.store.sort_of(id);
        put(&mut self.out, ProofCode::Dummy, sort)?;
        self.heap.push_expr(id)?;
        Ok(())
    }

    /// Makes an expression of its operands, and keeps it.
    fn make(&mut self, id: Id) -> Result<(), Mem>
        requires before { IsAfter self.old.before }
        requires can { (o : Job) × Does o self.old (make id.0 ∷ []) }
        ensures does { OnOk result ((o : Job) → Does o self.old (make id.0 ∷ []) → Does o self.new []) }
        ensures less { OnOk result (steps_left self.new [] < steps_left self.old (make id.0 ∷ [])) }
        ensures same { OnOk result (self.new.before ≡ self.old.before) }
    {
        self.shared.store.once();
        match self.shared.store.head(id) {
            None => unreachable!(),
            Some(term) => {
                put(&mut self.out, ProofCode::TermSave, term)?;
                self.heap.push_expr(id)?;
                Ok(())
            }
        }
    }

    /// Emits a proof up to its parts.
    fn prove(&mut self, proof: &'t Proof, chain: Chain) -> Result<(), Mem>
        requires before { IsAfter self.old.before }
        requires can { (o : Job) × Does o self.old (prove (proof_view proof.now) chain ∷ []) }
        ensures does { OnOk result ((o : Job) → Does o self.old (prove (proof_view proof.now) chain ∷ []) → Does o self.new []) }
        ensures less { OnOk result (steps_left self.new [] < steps_left self.old (prove (proof_view proof.now) chain ∷ [])) }
        ensures same { OnOk result (self.new.before ≡ self.old.before) }
    {
        match proof {
            Proof::Hyp(i) => {
                let place = self.hyps[*i as usize];
                put(&mut self.out, ProofCode::Ref, place)
            }
            Proof::Name(number) => self.name(*number, chain),
            Proof::Cite(number, es, proofs) => {
                add(&mut self.tasks, Task::Cite(*number, es))?;
                add(&mut self.tasks, Task::ProveAll(proofs.as_slice(), chain))
            }
            Proof::Conv(e, conv, part) => self.convert(e, conv.get(), part.get(), chain),
            Proof::Let(first, second) => self.bind(first.get(), second.get(), chain),
            Proof::Gap(e) => self.leave_gap(e),
        }
    }

    /// Opens a let, and proves what stands over it.
    fn bind(&mut self, first: &'t Proof, second: &'t Proof, chain: Chain) -> Result<(), Mem>
        requires before { IsAfter self.old.before }
        requires can { (o : Job) × Does o self.old (prove (by_let (proof_view first.now) (proof_view second.now)) chain ∷ []) }
        ensures does { OnOk result ((o : Job) → Does o self.old (prove (by_let (proof_view first.now) (proof_view second.now)) chain ∷ []) → Does o self.new []) }
        ensures less { OnOk result (steps_left self.new [] < steps_left self.old (prove (by_let (proof_view first.now) (proof_view second.now)) chain ∷ [])) }
        ensures same { OnOk result (self.new.before ≡ self.old.before) }
    {
        let cell = self.cells.open(first, chain)?;
        add(&mut self.tasks, Task::Prove(second, Some(cell)))
    }

    fn prove_all(&mut self, proofs: &'t [Proof], chain: Chain) -> Result<(), Mem>
        requires before { IsAfter self.old.before }
        requires can { (o : Job) × Does o self.old (prove_all (proofs_view proofs.now) chain ∷ []) }
        ensures does { OnOk result ((o : Job) → Does o self.old (prove_all (proofs_view proofs.now) chain ∷ []) → Does o self.new []) }
        ensures less { OnOk result (steps_left self.new [] < steps_left self.old (prove_all (proofs_view proofs.now) chain ∷ [])) }
        ensures same { OnOk result (self.new.before ≡ self.old.before) }
    {
        match proofs {
            [] => Ok(()),
            [first, rest @ ..] => {
                add(&mut self.tasks, Task::ProveAll(rest, chain))?;
                add(&mut self.tasks, Task::Prove(first, chain))
            }
        }
    }

    /// Pushes what the let with this number proves: its part is emitted at its first use.
    fn name(&mut self, number: u32, chain: Chain) -> Result<(), Mem>
        requires before { IsAfter self.old.before }
        requires can { (o : Job) × Does o self.old (prove (by_name number) chain ∷ []) }
        ensures does { OnOk result ((o : Job) → Does o self.old (prove (by_name number) chain ∷ []) → Does o self.new []) }
        ensures less { OnOk result (steps_left self.new [] < steps_left self.old (prove (by_name number) chain ∷ [])) }
        ensures same { OnOk result (self.new.before ≡ self.old.before) }
    {
        let Some(innermost) = chain else {
            unreachable!();
        };
        let cell = self.cells.visible(innermost, number);
        match self.cells.place(cell) {
            Some(place) => put(&mut self.out, ProofCode::Ref, place),
            None => {
                let (part, outer) = self.cells.part(cell);
                add(&mut self.tasks, Task::Save(cell))?;
                add(&mut self.tasks, Task::Prove(part, outer))
            }
        }
    }

    /// Saves the proof on top as the cell's part.
    fn save(&mut self, cell: u32) -> Result<(), Mem>
        requires before { IsAfter self.old.before }
        requires can { (o : Job) × Does o self.old (save cell ∷ []) }
        ensures does { OnOk result ((o : Job) → Does o self.old (save cell ∷ []) → Does o self.new []) }
        ensures less { OnOk result (steps_left self.new [] < steps_left self.old (save cell ∷ [])) }
        ensures same { OnOk result (self.new.before ≡ self.old.before) }
    {
        put(&mut self.out, ProofCode::Save, 0)?;
        let place = self.heap.push();
        self.cells.set_place(cell, place);
        Ok(())
    }

    /// Pushes the operands and the conclusion's instance, and cites.
    fn cite(&mut self, number: u32, es: &'t Exprs, instances: &mut Instances) -> Result<(), Mem>
        requires instances { AreInstances self.old.before.env.now self.old.shared.store instances.old.items.items }
        requires before { IsAfter self.old.before }
        requires can { (o : Job) × Does o self.old (cite number es.now ∷ []) }
        ensures does { OnOk result ((o : Job) → Does o self.old (cite number es.now ∷ []) → Does o self.new []) }
        ensures less { OnOk result (steps_left self.new [] < steps_left self.old (cite number es.now ∷ [])) }
        ensures instances { OnOk result (AreInstances self.old.before.env.now self.new.shared.store instances.new.items.items) }
        ensures same { OnOk result (self.new.before ≡ self.old.before) }
    {
        let Some(thm) = self.before.env.thm(number) else {
            unreachable!();
        };
        let operands = self.shared.ids(self.before.table, es)?;
        let conclusion = conclusion_id(
            &mut self.shared,
            self.before.table,
            instances,
            number,
            &operands,
            &thm.conclusion,
        )?;
        add_citation(&mut self.tasks, &operands, conclusion, number)
    }

    /// Pushes the expression, and what is proved, converts it, and pays for that.
    fn convert(
        &mut self,
        e: &'t Expr,
        conv: &'t Conv,
        part: &'t Proof,
        chain: Chain,
    ) -> Result<(), Mem>
        requires before { IsAfter self.old.before }
        requires can { (o : Job) × Does o self.old (prove (by_conv (tree e.now) (conversion conv.now) (proof_view part.now)) chain ∷ []) }
        ensures does { OnOk result ((o : Job) → Does o self.old (prove (by_conv (tree e.now) (conversion conv.now) (proof_view part.now)) chain ∷ []) → Does o self.new []) }
        ensures less { OnOk result (steps_left self.new [] < steps_left self.old (prove (by_conv (tree e.now) (conversion conv.now) (proof_view part.now)) chain ∷ [])) }
        ensures same { OnOk result (self.new.before ≡ self.old.before) }
    {
        let id = self.shared.id(self.before.table, e)?;
        add_conversion(&mut self.tasks, id, part, chain, conv)
    }

    /// Pushes the expression, and lets it stand for a proof.
    fn leave_gap(&mut self, e: &'t Expr) -> Result<(), Mem>
        requires before { IsAfter self.old.before }
        requires can { (chain : Option ℕ) × (o : Job) × Does o self.old (prove (by_gap (tree e.now)) chain ∷ []) }
        ensures does { OnOk result ((chain : Option ℕ) (o : Job) → Does o self.old (prove (by_gap (tree e.now)) chain ∷ []) → Does o self.new []) }
        ensures less { OnOk result ((chain : Option ℕ) → steps_left self.new [] < steps_left self.old (prove (by_gap (tree e.now)) chain ∷ [])) }
        ensures same { OnOk result (self.new.before ≡ self.old.before) }
    {
        let id = self.shared.id(self.before.table, e)?;
        add(&mut self.tasks, Task::Do(ProofCode::Sorry, 0))?;
        add(&mut self.tasks, Task::Push(id))
    }

    /// Pays an obligation up to those of the parts.
    fn pay(&mut self, conv: &'t Conv) -> Result<(), Mem>
        requires before { IsAfter self.old.before }
        requires can { (o : Job) × Does o self.old (pay (conversion conv.now) ∷ []) }
        ensures does { OnOk result ((o : Job) → Does o self.old (pay (conversion conv.now) ∷ []) → Does o self.new []) }
        ensures less { OnOk result (steps_left self.new [] < steps_left self.old (pay (conversion conv.now) ∷ [])) }
        ensures same { OnOk result (self.new.before ≡ self.old.before) }
    {
        match conv {
            Conv::Refl(_) => put(&mut self.out, ProofCode::Refl, 0),
            Conv::Sym(part) => {
                add(&mut self.tasks, Task::Pay(part.get()))?;
                put(&mut self.out, ProofCode::Symm, 0)
            }
            Conv::Cong(_, parts) => {
                add(&mut self.tasks, Task::PayAll(parts.as_slice()))?;
                put(&mut self.out, ProofCode::Cong, 0)
            }
            Conv::Unfold(term, es, vars, part) => self.unfold(*term, es, vars, part.get()),
            Conv::Gap(_, _) => put(&mut self.out, ProofCode::Sorry, 0),
        }
    }

    fn pay_all(&mut self, convs: &'t [Conv]) -> Result<(), Mem>
        requires before { IsAfter self.old.before }
        requires can { (o : Job) × Does o self.old (pay_all (conversions convs.now) ∷ []) }
        ensures does { OnOk result ((o : Job) → Does o self.old (pay_all (conversions convs.now) ∷ []) → Does o self.new []) }
        ensures less { OnOk result (steps_left self.new [] < steps_left self.old (pay_all (conversions convs.now) ∷ [])) }
        ensures same { OnOk result (self.new.before ≡ self.old.before) }
    {
        match convs {
            [] => Ok(()),
            [first, rest @ ..] => {
                add(&mut self.tasks, Task::PayAll(rest))?;
                add(&mut self.tasks, Task::Pay(first))
            }
        }
    }

    /// Pushes the left side and the body's instance, unfolds, and pays for the part.
    fn unfold(&mut self, number: u32, es: &'t Exprs, vars: &Vars, part: &'t Conv) -> Result<(), Mem>
        requires before { IsAfter self.old.before }
        requires can { (o : Job) × Does o self.old (pay (unfold_conv number es.now vars.now (conversion part.now)) ∷ []) }
        ensures does { OnOk result ((o : Job) → Does o self.old (pay (unfold_conv number es.now vars.now (conversion part.now)) ∷ []) → Does o self.new []) }
        ensures less { OnOk result (steps_left self.new [] < steps_left self.old (pay (unfold_conv number es.now vars.now (conversion part.now)) ∷ [])) }
        ensures same { OnOk result (self.new.before ≡ self.old.before) }
    {
        let Some(term) = self.before.env.term(number) else {
            unreachable!();
        };
        let Some(body) = term.form.body() else {
            unreachable!();
        };
        let mut operands = self.shared.ids(self.before.table, es)?;
        let left = self.shared.app(self.before.table, number, &operands)?;
        self.shared.push_variables(&mut operands, vars)?;
        let unfolded = self.shared.instance(self.before.table, &operands, body)?;
        add_unfolding(&mut self.tasks, left, unfolded, part)
    }
}
