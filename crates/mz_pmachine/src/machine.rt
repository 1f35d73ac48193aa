//! A machine that takes the commands of one body.
ghost use Rattle.std.specs.Prelude.{◌≡◌, ◌≤◌, ◌<◌, ◌+◌, ◌^◌, ◌↔◌, ℕ, false, IfOk, IsTrue, OnOk, length, reverse};
ghost use Rattle.mz_store.specs.Bits.{bound_vars};
ghost use Rattle.mz_pmachine_unify.specs.Numbering.{AreIn, IsOver};
ghost use Rattle.mz_pmachine_unify.specs.Stored.{AreItemsIn, items_at};
ghost use Rattle.mz_machine_theory.specs.Bodies.{body_command};
ghost use Rattle.mz_machine_env.specs.OwnRow.{MayRun, byte_of, kind_of};
ghost use Rattle.mz_machine_env.specs.Before.{tables_of, signatures_of};
ghost use Rattle.mz_machine_env.specs.declared.command.Converting.TheVariants.{Cong};
ghost use Rattle.mz_machine.specs.OpenEquations.{AreSettled};
ghost use Rattle.mz_machine.specs.OverStore.{UnlessMem as OrMem};
ghost use Rattle.mz_pmachine.specs.OpenNodes.{of_nodes, whole_state, Proceeds};
ghost use Rattle.mz_pmachine.specs.declared.command.Command.TheVariants.{Converts};
ghost use Rattle.mz_pmachine.specs.Steps.{heading_for, tables_for, steps_for, row_by, steps_by, end_steps};
ghost use Rattle.mz_pmachine_theory.specs.NodeIdentity.{portable};
ghost use Rattle.mz_pmachine.specs.Running.{IsRunning, machine_of};
ghost use Rattle.mz_pmachine.specs.Stepping.{IsBegun, IsStepped, IsFinished};
ghost use Rattle.mz_machine.specs.Stepping.{UnlessEndMem};

use crate::command::{Command, decoded};
use crate::commands::execute;
use crate::end::end;
use crate::equations::{open_equation, settle};
use crate::lack::lack;
use mz_cmd::{Cmd, K, Steps};
use mz_layout_tables::{Mmb, Rows};
use mz_logic_theory::Word;
use mz_machine::{BodyEnd, Equation, Finished};
use mz_machine_env::{
    BodyKind, CommandBuffers, Converting, Environment, deps_mode, first_items, read_words,
};
use mz_pmachine_unify::Nodes;
use mz_store::{Id, Item};
use mz_unify::Stop;
use std::alloc::{AllocError, Global};
use std::sync::ledger::Ledger;

/// The statement whose body runs, and the rows before it.
#[derive(Drop)]
pub(crate) struct Setting<'a> {
    env: Environment<'a>,
    kind: BodyKind,
    row: u32,
    bound_params: u32,
}

/// What a body's commands change.
#[derive(Drop)]
pub(crate) struct Parts {
    nodes: Nodes,
    heap: Vec<Item>,
    stack: Vec<Item>,
    equations: Vec<Equation>,
    hyps: Vec<Id>,
    spare: CommandBuffers,
}

impl Parts {
    /// Nothing, which takes no memory.
    pub(crate) fn new(alloc: Global) -> Parts {
        Parts {
            nodes: Nodes::new(alloc),
            heap: Vec::new(alloc),
            stack: Vec::new(alloc),
            equations: Vec::new(alloc),
            hyps: Vec::new(alloc),
            spare: CommandBuffers::new(alloc),
        }
    }
}

impl<'a> Setting<'a> {
    /// The setting of a statement's body, which is of this kind; `row` is the next row of its table, and
    /// `before` counts the rows that were declared before. The words of the row and of those before it
    /// are right. The words become those of the row, and the parts those before the first command,
    /// whatever they were: the row's parameters are in the heap.
    ///
    /// # Errors
    ///
    /// Where there is no memory.
    pub(crate) fn begin(
        mmb: &'a Mmb<'a>,
        kind: BodyKind,
        row: u32,
        before: Rows,
        words: &mut Vec<Word>,
        parts: &mut Parts,
    ) -> Result<Setting<'a>, AllocError>
        requires { MayRun mmb.now (byte_of kind) row before }
        ensures running { IfOk result (λ setting. IsRunning setting parts.new) }
        ensures begun { IfOk result (λ setting. IsBegun mmb.now (byte_of kind) row before (machine_of setting parts.new)) }
    {
        let env = Environment::new(mmb, before);
        read_words(words, &env, kind, row)?;
        parts.nodes.begin(words.as_slice(), deps_mode(kind))?;
        first_items(&mut parts.heap, words.len())?;
        parts.stack.clear();
        parts.equations.clear();
        parts.hyps.clear();
        let bound_params = parts.nodes.bound_count();
        Ok(Setting {
            env,
            kind,
            row,
            bound_params,
        })
    }

    /// Executes the command at a place on the parts, which are in place. It is no END and comes after
    /// all that were executed. A step is counted for it, and one for each command of the stream that it
    /// runs.
    pub(crate) fn advance<L: Ledger>(
        &self,
        parts: &mut Parts,
        at: u32,
        cmd: Cmd,
        steps: &mut Steps<L>,
    ) -> Result<(), Stop>
        requires code { cmd.code ≡ 0 → ⊥ }
        requires later { parts.old.nodes.next ≤ at }
        requires running { IsRunning self.now parts.old }
        ensures running { OnOk result (IsRunning self.now parts.new) }
        ensures row { IsStepped (machine_of self.now parts.old) cmd at (machine_of self.now parts.new) result }
        ensures steps { OrMem result (steps.new ≡ steps.old + steps_for (tables_of self.now.env) (heading_for (machine_of self.now parts.old)) (machine_of self.now parts.old).state cmd) }
        ensures most { steps.new ≤ steps.old + (1 + length self.now.env.file) }
        ensures nodes { length parts.new.nodes.entries ≤ length parts.old.nodes.entries + 1 }
    {
        obey(
            &self.env,
            self.kind,
            at,
            cmd,
            &mut parts.nodes,
            &mut parts.heap,
            &mut parts.stack,
            &mut parts.equations,
            &mut parts.hyps,
            &mut parts.spare,
            steps,
        )
    }

    /// Ends the body, whose END ends its statement too. A step is counted for it, and one for each
    /// command of the row's own stream that is executed.
    pub(crate) fn finish<L: Ledger>(&self, parts: &mut Parts, steps: &mut Steps<L>) -> Finished
        requires { IsRunning self.now parts.old }
        ensures run { IsFinished (machine_of self.now parts.old) result }
        ensures steps { UnlessEndMem result (steps.new ≡ steps.old + end_steps (tables_of self.now.env) (heading_for (machine_of self.now parts.old)) (machine_of self.now parts.old).state) }
        ensures most { steps.new ≤ steps.old + (1 + length self.now.env.file) }
        ensures nodes { parts.new.nodes ≡ parts.old.nodes }
    {
        steps.tick();
        match end(
            &self.env,
            self.kind,
            self.row,
            &parts.nodes,
            &parts.stack,
            &parts.hyps,
            &mut parts.spare,
            steps,
        ) {
            Ok(()) => Finished::Body(counted(&parts.nodes, self.bound_params, &parts.hyps)),
            Err(Stop::Rule(rule)) => Finished::Refused(rule),
            Err(Stop::Mem) => Finished::Mem,
        }
    }
}

/// Executes the command at a place, which is no END, if it stands in bodies of the kind, and counts its
/// steps; over all that stands on the stack: the items that are written out, and the obligations still to
/// come. Behind it the obligation in hand is written out.
fn obey<L: Ledger>(
    env: &Environment,
    kind: BodyKind,
    at: u32,
    cmd: Cmd,
    nodes: &mut Nodes,
    heap: &mut Vec<Item>,
    stack: &mut Vec<Item>,
    equations: &mut Vec<Equation>,
    hyps: &mut Vec<Id>,
    spare: &mut CommandBuffers,
    steps: &mut Steps<L>,
) -> Result<(), Stop>
    requires code { cmd.code ≡ 0 → ⊥ }
    requires number { nodes.old.next ≤ at }
    requires over { IsOver (signatures_of env.now) nodes.old }
    requires heap { AreItemsIn nodes.old heap.old.items }
    requires stack { AreItemsIn nodes.old stack.old.items }
    requires settled { AreSettled (of_nodes nodes.old) (reverse equations.old.items) (items_at nodes.old stack.old.items) }
    requires hyps { AreIn nodes.old hyps.old.items }
    requires few { length hyps.old.items < 2 ^ 32 }
    ensures done { Proceeds (signatures_of env.now) at (row_by (tables_of env.now) at (whole_state nodes.old heap.old.items equations.old.items stack.old.items hyps.old.items) (body_command portable (kind_of kind) cmd.code cmd.value)) nodes.old nodes.new heap.new.items equations.new.items stack.new.items hyps.new.items result }
    ensures steps { OrMem result (steps.new ≡ steps.old + steps_by (tables_of env.now) (whole_state nodes.old heap.old.items equations.old.items stack.old.items hyps.old.items) (body_command portable (kind_of kind) cmd.code cmd.value)) }
    ensures nodes { length nodes.new.entries ≤ length nodes.old.entries + 1 }
    ensures most { steps.new ≤ steps.old + (1 + length env.now.file) }
{
    steps.tick();
    let Some(command) = decoded(kind, cmd.code) else {
        return Err(Stop::Rule(K::Command));
    };
    if let Some(rule) = lack(env, command, cmd.value, nodes, stack.len(), equations) {
        return Err(Stop::Rule(rule));
    }
    if is_cong(command) {
        return open_equation(nodes, stack, equations);
    }
    match execute(
        env, at, command, cmd.value, nodes, heap, stack, hyps, spare, steps,
    ) {
        Ok(()) => settle(nodes, stack, equations),
        Err(stop) => Err(stop),
    }
}

/// Whether the command opens an equation.
fn is_cong(command: Command) -> bool
    ensures { IsTrue result ↔ (command ≡ Converts Cong) }
{
    matches!(command, Command::Converts(Converting::Cong))
}

/// The hypotheses, and the bound variables that aren't parameters. No gap is left.
fn counted(nodes: &Nodes, bound_params: u32, hyps: &[Id]) -> BodyEnd
    requires few { length hyps.now < 2 ^ 32 }
    requires bound { bound_params ≤ length (bound_vars nodes.now.context) }
    ensures hyps { result.hyps ≡ length hyps.now }
    ensures dummies { result.dummies + bound_params ≡ length (bound_vars nodes.now.context) }
    ensures sorry { result.sorry ≡ false }
{
    BodyEnd {
        hyps: hyps.len() as u32,
        dummies: nodes.bound_count() - bound_params,
        sorry: false,
    }
}
