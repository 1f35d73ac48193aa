//! A machine that takes the commands of one body.
ghost use Rattle.std.specs.Prelude.{◌≡◌, ◌≤◌, ◌<◌, ◌+◌, ◌^◌, ◌||◌, ℕ, Ok, Err, IfOk, IfSome, MatchResult, OnOk, length, reverse};
ghost use Rattle.mz_base.specs.Gaps.{gaps_of};
ghost use Rattle.mz_cmd.specs.Codes.{proof_code};
ghost use Rattle.mz_store.specs.Bits.{bound_vars};
ghost use Rattle.mz_machine_theory.specs.Profile.{plain};
ghost use Rattle.mz_unify.specs.Stored.{items_at};
ghost use Rattle.mz_machine_theory.specs.Bodies.{body_command};
ghost use Rattle.mz_machine_env.specs.OwnRow.{MayRun, byte_of, kind_of, mode_for};
ghost use Rattle.mz_machine_env.specs.Before.{tables_of, signatures_of};
ghost use Rattle.mz_machine.specs.OverStore.{UnlessMem as OrMem};
ghost use Rattle.mz_machine.specs.Executing.{AreHyps, Counts, IsReady, Proceeds, StopsAs};
ghost use Rattle.mz_machine.specs.Steps.{heading_for, tables_for, steps_for, row_by, steps_by, end_steps, is_sorry, TakesNone};
ghost use Rattle.mz_machine.specs.Stepping.{reference, IsBegun, IsStepped, IsFinished, stepped_to, UnlessMem, UnlessEndMem};
ghost use Rattle.mz_machine.specs.OpenEquations.{stored, AreSettled, whole_state};
ghost use Rattle.mz_machine.specs.Running.{IsRunning, machine_of};
ghost use Rattle.mz_machine.specs.Parameters.{Remembers};

use crate::body::BodyEnd;
use crate::command::Keeping;
use crate::commands::{keep, obey, opens_none};
use crate::end::end;
use crate::equations::{Equation, resume};
use crate::lack::lack;
use crate::params::{Entered, enter};
use mz_base::Mode;
use mz_cmd::{Cmd, K, ProofCode, Steps};
use mz_layout_tables::{Mmb, Rows};
use mz_logic_theory::Word;
use mz_machine_env::{BodyKind, CommandBuffers, Environment, Heap, kind_by};
use mz_store::{Id, Item, Seed, Store};
use mz_unify::Stop;
use std::alloc::{AllocError, Global};
use std::marker::Model;
use std::sync::ledger::Ledger;

/// So many expressions beside those of its parameters a body may have whose parts the next one uses again.
const MOST_KEPT: usize = 1_000;

/// The statement whose body runs, and the rows before it.
#[derive(Drop)]
pub(crate) struct Setting<'a> {
    env: Environment<'a>,
    mode: Mode,
    kind: BodyKind,
    row: u32,
    pub(crate) entered: Entered,
}

/// What a body's commands change.
#[derive(Drop)]
pub(crate) struct Parts {
    store: Store,
    heap: Heap,
    stack: Vec<Item>,
    equations: Vec<Equation>,
    hyps: Vec<Id>,
    sorry: bool,
    spare: CommandBuffers,
}

/// A machine between two commands of a body. Its meaning is the state to which they have led, over
/// the file, the statement and the rows before it.
#[derive(Drop)]
pub struct Machine<'a> {
    pub(crate) setting: Setting<'a>,
    pub(crate) parts: Parts,
}

impl<'a> Model for Machine<'a> {
    ghost use Rattle.mz_machine.specs.Steps.{Underway};
    ghost use Rattle.mz_machine.specs.Running.{IsRunning, machine_of};
    ghost use Rattle.mz_machine.specs.UnderwayCode.{underway_code};

    ghost Value = { Underway };

    ghost coded = { underway_code };

    ghost view = { λ m. machine_of m.setting m.parts };

    ghost invariant = { λ m. IsRunning m.setting m.parts };
}

/// What became of a command.
#[derive(Drop)]
pub enum Stepped<'a> {
    /// The machine after it.
    Machine(Machine<'a>),
    /// The first rule that fails.
    Refused(K),
    /// Out of memory.
    Mem,
}

/// What became of the END.
#[derive(Clone, Copy, Debug, PartialEq, Eq)]
pub enum Finished {
    /// The body has run.
    Body(BodyEnd),
    /// The first rule that fails.
    Refused(K),
    /// Out of memory.
    Mem,
}

impl<'a> Machine<'a> {
    /// The machine before the first command of a statement's body: the row's parameters are in the
    /// heap. The statement's kind is 02 for an axiom, 05 for a definition and 06 for a theorem;
    /// `row` is the next row of its table, and `before` counts the rows that were declared before.
    /// The words of the row and of those before it are right. A draft's body may leave gaps.
    ///
    /// # Errors
    ///
    /// Where there is no memory.
    pub fn begin(
        alloc: Global,
        mmb: &'a Mmb<'a>,
        mode: Mode,
        kind: u8,
        row: u32,
        before: Rows,
    ) -> Result<Machine<'a>, AllocError>
        requires { MayRun mmb.now kind row before }
        ensures { IfOk result (λ machine. IsBegun (gaps_of mode) mmb.now kind row before machine) }
    {
        let mut words = Vec::new(alloc);
        let mut parts = Parts::new(alloc, Seed::FIXED);
        let kind = kind_by(kind);
        let setting = Setting::begin(mmb, mode, kind, row, before, None, &mut words, &mut parts);
        begun(setting, parts)
    }

    /// Executes a command other than END. A step is counted for it, and one for each command of the
    /// stream that it runs. Commands that only compare, exchange or drop take no memory, and at most
    /// one expression is made.
    pub fn step<L: Ledger>(self, cmd: Cmd, steps: &mut Steps<L>) -> Stepped<'a>
        requires { cmd.code ≡ 0 → ⊥ }
        ensures row { (at : ℕ) → IsStepped self.entry cmd at result }
        ensures steps { UnlessMem result (steps.new ≡ steps.old + steps_for self.entry.gaps (tables_for self.entry) (heading_for self.entry) self.entry.state cmd) }
        ensures most { steps.new ≤ steps.old + (1 + length self.entry.file) }
    {
        let Machine { setting, mut parts } = self;
        let answer = setting.advance(&mut parts, cmd, steps);
        answered(setting, parts, answer)
    }

    /// Ends the body, whose END ends its statement too. A step is counted for it, and one for each
    /// command of the row's own stream that is executed.
    pub fn finish<L: Ledger>(self, steps: &mut Steps<L>) -> Finished
        ensures run { IsFinished self.entry result }
        ensures steps { UnlessEndMem result (steps.new ≡ steps.old + end_steps self.entry.gaps (tables_for self.entry) (heading_for self.entry) self.entry.state) }
        ensures most { steps.new ≤ steps.old + (1 + length self.entry.file) }
    {
        let Machine { setting, mut parts } = self;
        setting.finish(&mut parts, steps)
    }
}

/// The machine of a setting that has begun on the parts.
fn begun<'a>(
    setting: Result<Setting<'a>, AllocError>,
    parts: Parts,
) -> Result<Machine<'a>, AllocError>
    requires { IfOk setting (λ setting. IsRunning setting parts) }
    ensures { MatchResult setting.entry (λ setting. result ≡ Ok (machine_of setting parts)) (λ stop. result ≡ Err stop) }
{
    match setting {
        Ok(setting) => Ok(Machine { setting, parts }),
        Err(stop) => Err(stop),
    }
}

/// What became of a command on the parts.
fn answered<'a>(setting: Setting<'a>, parts: Parts, answer: Result<(), Stop>) -> Stepped<'a>
    requires { OnOk answer (IsRunning setting parts) }
    ensures { result ≡ stepped_to (machine_of setting.entry parts) answer }
{
    match answer {
        Ok(()) => Stepped::Machine(Machine { setting, parts }),
        Err(Stop::Rule(rule)) => Stepped::Refused(rule),
        Err(Stop::Mem) => Stepped::Mem,
    }
}

impl Parts {
    /// Nothing, which takes no memory.
    pub(crate) fn new(alloc: Global, seed: Seed) -> Parts {
        Parts {
            store: Store::seeded(alloc, seed),
            heap: Heap::new(alloc),
            stack: Vec::new(alloc),
            equations: Vec::new(alloc),
            hyps: Vec::new(alloc),
            sorry: false,
            spare: CommandBuffers::new(alloc),
        }
    }

    /// Whether they are few enough to be used again for the next body: it costs as much to take them
    /// out as there are beside the parameters, which are so many.
    pub(crate) fn are_few(&self, params: usize) -> bool {
        self.store.len().saturating_sub(params) <= MOST_KEPT
    }
}

impl<'a> Setting<'a> {
    /// The setting of a statement's body, as `Machine::begin` says. The parts become those before the
    /// first command, whatever they were; `last` are the parameters that stand in their store, if it is
    /// known. The words may become those of the row.
    ///
    /// # Errors
    ///
    /// Where there is no memory.
    pub(crate) fn begin(
        mmb: &'a Mmb<'a>,
        mode: Mode,
        kind: BodyKind,
        row: u32,
        before: Rows,
        last: Option<Entered>,
        words: &mut Vec<Word>,
        parts: &mut Parts,
    ) -> Result<Setting<'a>, AllocError>
        requires may_run { MayRun mmb.now (byte_of kind) row before }
        requires last { IfSome last (λ last. Remembers mmb.now last parts.old.store) }
        ensures running { IfOk result (λ setting. IsRunning setting parts.new) }
        ensures begun { IfOk result (λ setting. IsBegun (gaps_of mode) mmb.now (byte_of kind) row before (machine_of setting parts.new)) }
    {
        // That the file is a binary, so that no row has too many words, is reported by the call.
        let _ = mmb.file();
        let env = Environment::new(mmb, before);
        let entered = enter(&env, kind, row, last, words, &mut parts.store)?;
        parts.heap.begin(entered.params as usize)?;
        parts.stack.clear();
        parts.equations.clear();
        parts.hyps.clear();
        parts.sorry = false;
        Ok(Setting {
            env,
            mode,
            kind,
            row,
            entered,
        })
    }

    /// Executes a command other than END on the parts, which are in place, and counts its steps.
    #[inline(always)]
    pub(crate) fn advance<L: Ledger>(
        &self,
        parts: &mut Parts,
        cmd: Cmd,
        steps: &mut Steps<L>,
    ) -> Result<(), Stop>
        requires code { cmd.code ≡ 0 → ⊥ }
        requires running { IsRunning self.now parts.old }
        ensures running { OnOk result (IsRunning self.now parts.new) }
        ensures row { (at : ℕ) → IsStepped (machine_of self.now parts.old) cmd at (stepped_to (machine_of self.now parts.new) result) }
        ensures steps { OrMem result (steps.new ≡ steps.old + steps_for (gaps_of self.now.mode) (tables_of self.now.env) (heading_for (machine_of self.now parts.old)) (machine_of self.now parts.old).state cmd) }
        ensures most { steps.new ≤ steps.old + (1 + length self.now.env.file) }
        ensures nodes { length parts.new.store.entries ≤ length parts.old.store.entries + 1 }
    {
        note_gap(&mut parts.sorry, cmd.code);
        proceed(
            &self.env,
            self.mode,
            self.kind,
            cmd,
            &mut parts.store,
            &mut parts.heap,
            &mut parts.stack,
            &mut parts.equations,
            &mut parts.hyps,
            &mut parts.spare,
            steps,
        )
    }

    /// Executes a reference to a place of the heap as `advance` does: it asks for no items.
    #[inline(always)]
    pub(crate) fn refer<L: Ledger>(
        &self,
        parts: &mut Parts,
        place: u32,
        steps: &mut Steps<L>,
    ) -> Result<(), Stop>
        requires { IsRunning self.now parts.old }
        ensures running { OnOk result (IsRunning self.now parts.new) }
        ensures row { (at len : ℕ) → IsStepped (machine_of self.now parts.old) (reference place len) at (stepped_to (machine_of self.now parts.new) result) }
        ensures steps { (len : ℕ) → OrMem result (steps.new ≡ steps.old + steps_for (gaps_of self.now.mode) (tables_of self.now.env) (heading_for (machine_of self.now parts.old)) (machine_of self.now parts.old).state (reference place len)) }
        ensures most { steps.new ≤ steps.old + (1 + length self.now.env.file) }
        ensures nodes { length parts.new.store.entries ≤ length parts.old.store.entries + 1 }
    {
        steps.tick();
        match opens_none(keep(
            &self.env,
            Keeping::Ref,
            place,
            &mut parts.store,
            &mut parts.heap,
            &mut parts.stack,
            &mut parts.hyps,
        )) {
            Ok(opened) => resume(&parts.store, &mut parts.stack, &mut parts.equations, opened),
            Err(stop) => Err(stop),
        }
    }

    /// Ends the body, and counts the steps of its END.
    pub(crate) fn finish<L: Ledger>(&self, parts: &mut Parts, steps: &mut Steps<L>) -> Finished
        requires { IsRunning self.now parts.old }
        ensures run { IsFinished (machine_of self.now parts.old) result }
        ensures steps { UnlessEndMem result (steps.new ≡ steps.old + end_steps (gaps_of self.now.mode) (tables_of self.now.env) (heading_for (machine_of self.now parts.old)) (machine_of self.now parts.old).state) }
        ensures most { steps.new ≤ steps.old + (1 + length self.now.env.file) }
        ensures store { parts.new.store ≡ parts.old.store }
        ensures running { IsRunning self.now parts.new }
    {
        steps.tick();
        match end(
            &self.env,
            self.kind,
            self.row,
            self.entered.params,
            &parts.store,
            &parts.stack,
            &parts.hyps,
            &mut parts.spare,
            steps,
        ) {
            Ok(()) => Finished::Body(counted(
                &parts.store,
                self.entered.bound,
                &parts.hyps,
                parts.sorry,
            )),
            Err(Stop::Rule(rule)) => Finished::Refused(rule),
            Err(Stop::Mem) => Finished::Mem,
        }
    }
}

/// Executes a command other than END, as `obey` does, over all that stands on the stack: the items that
/// are written out, and the obligations still to come. Behind it the obligation in hand is written out.
#[inline(always)]
fn proceed<L: Ledger>(
    env: &Environment,
    mode: Mode,
    kind: BodyKind,
    cmd: Cmd,
    store: &mut Store,
    heap: &mut Heap,
    stack: &mut Vec<Item>,
    equations: &mut Vec<Equation>,
    hyps: &mut Vec<Id>,
    spare: &mut CommandBuffers,
    steps: &mut Steps<L>,
) -> Result<(), Stop>
    requires code { cmd.code ≡ 0 → ⊥ }
    requires ready { IsReady (signatures_of env.now) store.old heap.old.items stack.old.items }
    requires told { store.old.mode ≡ mode_for (kind_of kind) }
    requires settled { AreSettled (stored store.old) (reverse equations.old.items) (items_at store.old stack.old.items) }
    requires hyps { AreHyps store.old hyps.old.items }
    ensures done { MatchResult result (λ _. Proceeds (signatures_of env.now) (λ at. row_by (gaps_of mode) (tables_of env.now) at (whole_state store.old heap.old.items equations.old.items stack.old.items hyps.old.items) (body_command (plain (gaps_of mode)) (kind_of kind) cmd.code cmd.value)) store.old store.new heap.new.items equations.new.items stack.new.items hyps.new.items) (StopsAs (λ at. row_by (gaps_of mode) (tables_of env.now) at (whole_state store.old heap.old.items equations.old.items stack.old.items hyps.old.items) (body_command (plain (gaps_of mode)) (kind_of kind) cmd.code cmd.value)) (TakesNone (whole_state store.old heap.old.items equations.old.items stack.old.items hyps.old.items) (body_command (plain (gaps_of mode)) (kind_of kind) cmd.code cmd.value))) }
    ensures steps { Counts result steps.old steps.new (steps_by (gaps_of mode) (tables_of env.now) (whole_state store.old heap.old.items equations.old.items stack.old.items hyps.old.items) (body_command (plain (gaps_of mode)) (kind_of kind) cmd.code cmd.value)) (1 + length env.now.file) }
    ensures nodes { length store.new.entries ≤ length store.old.entries + 1 }
{
    if let Some(rule) = lack(env, kind, cmd, store, stack.len(), equations) {
        steps.tick();
        return Err(Stop::Rule(rule));
    }
    match obey(env, mode, kind, cmd, store, heap, stack, hyps, spare, steps) {
        Ok(opened) => resume(store, stack, equations, opened),
        Err(stop) => Err(stop),
    }
}

/// Notes that a gap is left, where the command with this code leaves one.
#[inline(always)]
fn note_gap(sorry: &mut bool, code: u8)
    ensures { sorry.new ≡ (sorry.old || is_sorry (proof_code code)) }
{
    if is_sorry(code) {
        *sorry = true;
    }
}

/// Whether the command with this code leaves a gap.
#[inline(always)]
fn is_sorry(code: u8) -> bool
    ensures { result ≡ is_sorry (proof_code code) }
{
    code == u8::from(ProofCode::Sorry)
}

/// The hypotheses, and the bound variables that aren't parameters.
fn counted(store: &Store, bound_params: u32, hyps: &[Id], sorry: bool) -> BodyEnd
    requires few { length hyps.now < 2 ^ 32 }
    requires bound { bound_params ≤ length (bound_vars store.now.context) }
    ensures hyps { result.hyps ≡ length hyps.now }
    ensures dummies { result.dummies + bound_params ≡ length (bound_vars store.now.context) }
    ensures sorry { result.sorry ≡ sorry }
{
    BodyEnd {
        hyps: hyps.len() as u32,
        dummies: store.bound_count() - bound_params,
        sorry,
    }
}
