//! A whole body, read in place.
ghost use Rattle.std.specs.Prelude.{ℕ, Some, slice_get, ◌≡◌, ◌≤◌, ◌<◌, ◌+◌, ◌-◌, ◌*◌, ◌^◌, IfOk, List, length};
ghost use Rattle.mz_layout_tables.specs.Tables.{thm_count, thm_row};
ghost use Rattle.mz_logic_theory.specs.Declaration.{Declaration};
ghost use Rattle.mz_machine_theory.specs.MachineState.{Declares};
ghost use Rattle.mz_layout_tables.specs.Heads.{body_bytes};
ghost use Rattle.mz_machine_theory.specs.Headings.{heading_of};
ghost use Rattle.mz_machine_env.specs.Before.{tables_before};
ghost use Rattle.mz_layout_tables.specs.declared.rows_so_far.Rows.{Rows};
ghost use Rattle.mz_trace.specs.Commands.{stage_of, begun};
ghost use Rattle.mz_trace.specs.Numbered.{Numbered, IsWhole};
ghost use Rattle.mz_trace.specs.Runs.{IsTraced, ClaimsIn, IsTheoremAt, RunsOver, IsRunOf, RunsFrom, LeadsToEnd, HasRoot, IsFinished};

use crate::entry::{Entry, Item};
use crate::node::RunNode;
use crate::state::Making;
use mz_binary_theory::Statement;
use mz_cmd::{ProofCode, Steps, StmtAt, cmd_at, stmt_at};
use mz_layout_tables::Mmb;
use std::alloc::{AllocError, Global};
use std::marker::Model;
use std::sync::ledger::Ledger;

/// The proof that a body makes: its nodes, of which each has earlier ones as its parts; the proofs that got
/// a name, in order, and the one that is left behind them; and the sorts of the dummies, in order.
#[derive(Drop)]
pub struct Run {
    nodes: Vec<RunNode>,
    lets: Vec<u32>,
    root: u32,
    dummies: Vec<u32>,
}

impl Model for Run {
    ghost use Rattle.mz_trace.specs.Numbered.{Numbered, IsWhole, numbered};

    ghost Value = { Numbered };

    ghost view = { λ r. numbered r.nodes.items r.lets.items r.root r.dummies.items };

    ghost invariant = { λ r. IsWhole (numbered r.nodes.items r.lets.items r.root r.dummies.items) };
}

impl Run {
    /// The proof that is left behind those with names.
    pub fn root(&self) -> u32
        ensures number { result ≡ self.now.root }
        ensures there { result < length self.now.nodes }
    {
        self.root
    }

    /// All nodes. Each has its parts among those before it.
    pub fn nodes(&self) -> &[RunNode]
        ensures nodes { result.now ≡ self.now.nodes }
        ensures whole { IsWhole self.now }
    {
        self.nodes.as_slice()
    }

    /// The node with this number.
    pub fn node(&self, n: u32) -> &RunNode
        requires { n < length self.now.nodes }
        ensures { slice_get self.now.nodes n ≡ Some result.now }
    {
        &self.nodes[n as usize]
    }

    /// How many proofs have names.
    pub fn let_count(&self) -> u32
        ensures { result ≡ length self.now.lets }
    {
        self.lets.len() as u32
    }

    /// The proof with this name.
    pub fn let_root(&self, i: u32) -> u32
        requires { i < length self.now.lets }
        ensures number { slice_get self.now.lets i ≡ Some result }
        ensures there { result < length self.now.nodes }
    {
        self.lets[i as usize]
    }

    /// All proofs with names, in order.
    pub fn lets(&self) -> &[u32]
        ensures { result.now ≡ self.now.lets }
    {
        self.lets.as_slice()
    }

    /// The sorts of the dummies, in order.
    pub fn dummies(&self) -> &[u32]
        ensures { result.now ≡ self.now.dummies }
    {
        self.dummies.as_slice()
    }

    /// The same, of which the rest isn't kept.
    pub fn into_dummies(self) -> Vec<u32>
        ensures { result.items ≡ self.dummies }
    {
        let Run { dummies, .. } = self;
        dummies
    }
}

/// What became of a body that runs.
#[derive(Drop)]
pub enum Traced {
    Run(Run),
    /// Out of memory.
    Mem,
}

/// The proof that the body of a theorem makes, whose statement stands behind rows over which the body runs.
///
/// Steps are counted as by `trace_body`.
pub fn trace<L: Ledger>(
    alloc: Global,
    mmb: &Mmb,
    statement: &Statement,
    steps: &mut Steps<L>,
) -> Traced
    requires { (before : Rows) × IsTheoremAt mmb.now statement.now.at statement.now.row before }
    ensures made { (before : Rows) (t : IsTheoremAt mmb.now statement.now.at statement.now.row before)
        → IsTraced (tables_before mmb.now before) (heading_of mmb.now 0x06 statement.now.row) (body_bytes mmb.now t.body t.next) result }
    ensures claims { (before : Rows) → IsTheoremAt mmb.now statement.now.at statement.now.row before
        → (env : List Declaration) → Declares (tables_before mmb.now before) env → ClaimsIn env result }
    ensures most { (before : Rows) (t : IsTheoremAt mmb.now statement.now.at statement.now.row before)
        → steps.new ≤ steps.old + (t.next - t.body) * (length mmb.now + 1) }
{
    let Ok(StmtAt::Head { body, next, .. }) = stmt_at(mmb.file(), statement.at) else {
        unreachable!();
    };
    trace_body(alloc, mmb, statement.row, (body, next), steps)
}

/// The same of the theorem with this row, where the bytes of the body are those from the first place of `body`
/// up to the second.
///
/// A step is counted for each command that is read, of the body and of the streams that it runs: for each byte of
/// the body at most one, and one for each byte of the file.
pub fn trace_body<L: Ledger>(
    alloc: Global,
    mmb: &Mmb,
    row: u32,
    body: (u32, u32),
    steps: &mut Steps<L>,
) -> Traced
    requires order { body.0 ≤ body.1 }
    requires within { body.1 ≤ length mmb.now }
    requires runs { (before : Rows) × RunsOver mmb.now row body.0 (body_bytes mmb.now body.0 body.1) before }
    ensures made { (before : Rows) → RunsOver mmb.now row body.0 (body_bytes mmb.now body.0 body.1) before
        → IsTraced (tables_before mmb.now before) (heading_of mmb.now 0x06 row) (body_bytes mmb.now body.0 body.1) result }
    ensures claims { (before : Rows) → RunsOver mmb.now row body.0 (body_bytes mmb.now body.0 body.1) before
        → (env : List Declaration) → Declares (tables_before mmb.now before) env → ClaimsIn env result }
    ensures most { steps.new ≤ steps.old + (body.1 - body.0) * (length mmb.now + 1) }
{
    let bytes = &mmb.file()[body.0 as usize..body.1 as usize];
    match made_of(alloc, mmb, row, bytes, steps) {
        Ok(run) => Traced::Run(run),
        Err(_) => Traced::Mem,
    }
}

fn made_of<L: Ledger>(
    alloc: Global,
    mmb: &Mmb,
    row: u32,
    bytes: &[u8],
    steps: &mut Steps<L>,
) -> Result<Run, AllocError>
    requires fits { length bytes.now < 2 ^ 32 }
    requires runs { (before : Rows) × (at : ℕ) × RunsOver mmb.now row at bytes.now before }
    ensures made { IfOk result (λ run. (before : Rows) (at : ℕ) → RunsOver mmb.now row at bytes.now before
        → IsRunOf (tables_before mmb.now before) (heading_of mmb.now 0x06 row) bytes.now run) }
    ensures most { steps.new ≤ steps.old + length bytes.now * (length mmb.now + 1) }
{
    let start = begin(alloc, mmb.thm_arity(row))?;
    let last = make(start, mmb, bytes, steps)?;
    Ok(finish(last))
}

/// Before the first command the parameters are in the heap.
fn begin(alloc: Global, params: u32) -> Result<Making, AllocError>
    ensures { IfOk result (λ making. stage_of making ≡ begun params) }
{
    let mut making = Making::new(alloc);
    'params: for i in 0..params {
        let _ = making.variable()?;
    }
    Ok(making)
}

/// Executes the commands of a body, up to its END.
fn make<L: Ledger>(
    start: Making,
    mmb: &Mmb,
    bytes: &[u8],
    steps: &mut Steps<L>,
) -> Result<Making, AllocError>
    requires fits { length bytes.now < 2 ^ 32 }
    requires runs { RunsFrom mmb.now bytes.now (stage_of start) }
    ensures leads { IfOk result (λ last. LeadsToEnd mmb.now bytes.now (stage_of start) (stage_of last)) }
    ensures most { steps.new ≤ steps.old + length bytes.now * (length mmb.now + 1) }
{
    let mut making = start;
    let mut at = 0;
    'commands: loop {
        let Ok(cmd) = cmd_at(bytes, at) else {
            unreachable!();
        };
        steps.tick();
        // As the body runs, this is its END.
        let Ok(code) = ProofCode::try_from(cmd.code) else {
            return Ok(making);
        };
        making.step(mmb, code, cmd.value, steps)?;
        at += u32::from(cmd.len);
    }
}

/// The one proof that is left.
fn finish(making: Making) -> Run
    requires root { HasRoot (stage_of making) }
    requires whole { (p : Numbered) → IsFinished (stage_of making) p → IsWhole p }
    ensures { IsFinished (stage_of making) result }
{
    let Making {
        nodes,
        mut stack,
        lets,
        dummies,
        ..
    } = making;
    match stack.pop() {
        Some(Entry::Held(Item::Proof(_, root))) => Run {
            nodes,
            lets,
            root,
            dummies,
        },
        _ => unreachable!(),
    }
}
