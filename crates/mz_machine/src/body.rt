//! A whole body, read in place.
ghost use Rattle.std.specs.Prelude.{◌≡◌, ◌≤◌, ◌<◌, ◌^◌, ◌+◌, ◌-◌, ◌*◌, false, IfSome, Ok, length};
ghost use Rattle.mz_cmd.specs.Reading.{first_command};
ghost use Rattle.mz_base.specs.Gaps.{gaps_of};
ghost use Rattle.mz_machine_theory.specs.Profile.{plain};
ghost use Rattle.mz_machine_theory.specs.Bodies.{body_run, body_steps, body_from, body_steps_from};
ghost use Rattle.mz_machine.specs.Steps.{heading_for, tables_for};
ghost use Rattle.mz_layout_tables.specs.Heads.{body_bytes};
ghost use Rattle.mz_machine_env.specs.OwnRow.{MayRun, byte_of};
ghost use Rattle.mz_machine_theory.specs.Headings.{heading_of};
ghost use Rattle.mz_machine_env.specs.Before.{tables_before};
ghost use Rattle.mz_machine.specs.BodyAnswers.{IsBodyRun, UnlessMem, WhereGood};
ghost use Rattle.mz_machine.specs.Parameters.{Remembers};
ghost use Rattle.mz_machine.specs.Tidiness.{HoldsAtMost, IsTidy, AreTidyBuffers, OneACommand};
ghost use Rattle.mz_machine.specs.Running.{IsRunning, machine_of};
ghost use Rattle.mz_machine.specs.Stepping.{ended_at, reference, stopped_at};

use crate::machine::{Finished, Parts, Setting};
use crate::params::Entered;
use crate::scratch::{BodyScratch, Buffers};
use mz_base::Mode;
use mz_cmd::{END, K, Steps, cmd_at};
use mz_layout_tables::{Mmb, Rows};
use mz_machine_env::{BodyKind, kind_by};
use mz_store::Seed;
use mz_unify::Stop;
use std::alloc::Global;
use std::sync::ledger::Ledger;

/// What a body that ran has made beside its expression or proof.
#[derive(Clone, Copy, Debug, PartialEq, Eq)]
pub struct BodyEnd {
    /// How many hypotheses, each by a `Hyp`.
    pub hyps: u32,
    /// How many dummies, each by a `Dummy`.
    pub dummies: u32,
    /// Whether it has left a gap, by a `Sorry`: never where gaps aren't let through.
    pub sorry: bool,
}

/// What became of a body.
#[derive(Clone, Copy, Debug, PartialEq, Eq)]
pub enum BodyChecked {
    /// It ran to its END.
    Good(BodyEnd),
    /// The first rule that fails, and the place of its command in the file, in bytes.
    Refused { at: u32, rule: K },
    /// Out of memory.
    Mem,
}

impl BodyChecked {
    /// What became of a body whose command at a place is stopped.
    pub fn stopped(at: u32, stop: Stop) -> BodyChecked
        ensures { result ≡ stopped_at at stop }
    {
        match stop {
            Stop::Rule(rule) => BodyChecked::Refused { at, rule },
            Stop::Mem => BodyChecked::Mem,
        }
    }

    /// What the END at a place makes of a body.
    pub fn ended(at: u32, finished: Finished) -> BodyChecked
        ensures { result ≡ ended_at at finished }
    {
        match finished {
            Finished::Body(end) => BodyChecked::Good(end),
            Finished::Refused(rule) => BodyChecked::Refused { at, rule },
            Finished::Mem => BodyChecked::Mem,
        }
    }
}

/// Runs the body of a statement, whose bytes are those from the first place of `body` up to the
/// second. The statement has this kind, 02 for an axiom, 05 for a definition and 06 for a theorem;
/// `row` is the next row of its table, and `before` counts the rows that were declared before.
///
/// The words of the row and of those before it are right. In a draft the body may leave gaps. A step
/// is counted for each command that
/// is executed, of the body and of the streams that it runs, up to the END or the one that is
/// refused; never more than one for each byte of the body and of a stream at each.
pub fn check_body<L: Ledger>(
    alloc: Global,
    mmb: &Mmb,
    mode: Mode,
    kind: u8,
    row: u32,
    before: Rows,
    body: (u32, u32),
    steps: &mut Steps<L>,
) -> BodyChecked
    requires may_run { MayRun mmb.now kind row before }
    requires order { body.0 ≤ body.1 }
    requires within { body.1 ≤ length mmb.now }
    ensures run { IsBodyRun (heading_of mmb.now kind row) (body_bytes mmb.now body.0 body.1) (body_run (plain (gaps_of mode)) (tables_before mmb.now before) (heading_of mmb.now kind row) body.0 (body_bytes mmb.now body.0 body.1)) result }
    ensures most { steps.new ≤ steps.old + (body.1 - body.0) * (length mmb.now + 1) }
    ensures steps { UnlessMem result (steps.new ≡ steps.old + body_steps (plain (gaps_of mode)) (tables_before mmb.now before) (heading_of mmb.now kind row) body.0 (body_bytes mmb.now body.0 body.1)) }
{
    let mut scratch = BodyScratch::new(Seed::FIXED);
    let kind = kind_by(kind);
    check_body_in(
        alloc,
        &mut scratch,
        mmb,
        mode,
        kind,
        row,
        before,
        body,
        steps,
    )
}

/// Runs the body of a statement as `check_body` does, in buffers that earlier bodies may have left. Unless
/// out of memory, the scratch keeps at most an expression for each parameter and for each command that
/// comes before the END.
pub fn check_body_in<L: Ledger>(
    alloc: Global,
    scratch: &mut BodyScratch,
    mmb: &Mmb,
    mode: Mode,
    kind: BodyKind,
    row: u32,
    before: Rows,
    body: (u32, u32),
    steps: &mut Steps<L>,
) -> BodyChecked
    requires may_run { MayRun mmb.now (byte_of kind) row before }
    requires order { body.0 ≤ body.1 }
    requires within { body.1 ≤ length mmb.now }
    ensures run { IsBodyRun (heading_of mmb.now (byte_of kind) row) (body_bytes mmb.now body.0 body.1) (body_run (plain (gaps_of mode)) (tables_before mmb.now before) (heading_of mmb.now (byte_of kind) row) body.0 (body_bytes mmb.now body.0 body.1)) result }
    ensures most { steps.new ≤ steps.old + (body.1 - body.0) * (length mmb.now + 1) }
    ensures steps { UnlessMem result (steps.new ≡ steps.old + body_steps (plain (gaps_of mode)) (tables_before mmb.now before) (heading_of mmb.now (byte_of kind) row) body.0 (body_bytes mmb.now body.0 body.1)) }
    ensures nodes { UnlessMem result (HoldsAtMost (length (heading_of mmb.now (byte_of kind) row).params) (body_bytes mmb.now body.0 body.1) scratch.new) }
{
    let Ok(mut buffers) = scratch.take(alloc) else {
        return BodyChecked::Mem;
    };
    buffers.last = None;
    let checked = check_on(&mut buffers, mmb, mode, kind, row, before, body, steps);
    scratch.keep(buffers);
    checked
}

/// Runs the body of a statement as `check_body_in` does, in buffers that earlier bodies of the same file may
/// have left: parameters that a row shares with the one before are gone over once. Unless out of memory,
/// the scratch keeps at most an expression for each parameter and for each command that comes before the
/// END.
pub fn check_body_after<L: Ledger>(
    alloc: Global,
    scratch: &mut BodyScratch,
    mmb: &Mmb,
    mode: Mode,
    kind: BodyKind,
    row: u32,
    before: Rows,
    body: (u32, u32),
    steps: &mut Steps<L>,
) -> BodyChecked
    requires may_run { MayRun mmb.now (byte_of kind) row before }
    requires order { body.0 ≤ body.1 }
    requires within { body.1 ≤ length mmb.now }
    requires tidy { IsTidy mmb.now scratch.old }
    ensures run { IsBodyRun (heading_of mmb.now (byte_of kind) row) (body_bytes mmb.now body.0 body.1) (body_run (plain (gaps_of mode)) (tables_before mmb.now before) (heading_of mmb.now (byte_of kind) row) body.0 (body_bytes mmb.now body.0 body.1)) result }
    ensures most { steps.new ≤ steps.old + (body.1 - body.0) * (length mmb.now + 1) }
    ensures steps { UnlessMem result (steps.new ≡ steps.old + body_steps (plain (gaps_of mode)) (tables_before mmb.now before) (heading_of mmb.now (byte_of kind) row) body.0 (body_bytes mmb.now body.0 body.1)) }
    ensures tidy { IsTidy mmb.now scratch.new }
    ensures nodes { UnlessMem result (HoldsAtMost (length (heading_of mmb.now (byte_of kind) row).params) (body_bytes mmb.now body.0 body.1) scratch.new) }
{
    let Ok(mut buffers) = scratch.take(alloc) else {
        return BodyChecked::Mem;
    };
    let checked = check_on(&mut buffers, mmb, mode, kind, row, before, body, steps);
    scratch.keep(buffers);
    checked
}

/// Runs the body of a statement with scratch buffers, whatever they hold.
fn check_on<L: Ledger>(
    buffers: &mut Buffers,
    mmb: &Mmb,
    mode: Mode,
    kind: BodyKind,
    row: u32,
    before: Rows,
    body: (u32, u32),
    steps: &mut Steps<L>,
) -> BodyChecked
    requires may_run { MayRun mmb.now (byte_of kind) row before }
    requires order { body.0 ≤ body.1 }
    requires within { body.1 ≤ length mmb.now }
    requires tidy { AreTidyBuffers mmb.now buffers.old }
    ensures run { IsBodyRun (heading_of mmb.now (byte_of kind) row) (body_bytes mmb.now body.0 body.1) (body_run (plain (gaps_of mode)) (tables_before mmb.now before) (heading_of mmb.now (byte_of kind) row) body.0 (body_bytes mmb.now body.0 body.1)) result }
    ensures most { steps.new ≤ steps.old + (body.1 - body.0) * (length mmb.now + 1) }
    ensures steps { UnlessMem result (steps.new ≡ steps.old + body_steps (plain (gaps_of mode)) (tables_before mmb.now before) (heading_of mmb.now (byte_of kind) row) body.0 (body_bytes mmb.now body.0 body.1)) }
    ensures tidy { AreTidyBuffers mmb.now buffers.new }
    ensures nodes { UnlessMem result (OneACommand (length (heading_of mmb.now (byte_of kind) row).params) (body_bytes mmb.now body.0 body.1) (length buffers.new.parts.store.entries)) }
{
    let last = buffers.last;
    buffers.last = None;
    let Ok(setting) = Setting::begin(
        mmb,
        mode,
        kind,
        row,
        before,
        last,
        &mut buffers.words,
        &mut buffers.parts,
    ) else {
        return BodyChecked::Mem;
    };
    let bytes = &mmb.file()[body.0 as usize..body.1 as usize];
    let checked = run(&setting, &mut buffers.parts, bytes, body.0, steps);
    buffers.last = left(&setting, &buffers.parts, checked);
    checked
}

/// The parameters that are known to stand in the store after a body that has come to this answer.
fn left(setting: &Setting, parts: &Parts, checked: BodyChecked) -> Option<Entered>
    requires { WhereGood checked (IsRunning setting.now parts.now) }
    ensures { IfSome result (λ last. Remembers setting.now.env.file last parts.now.store) }
{
    match checked {
        BodyChecked::Good(_) => Some(setting.entered),
        BodyChecked::Refused { .. } | BodyChecked::Mem => None,
    }
}

/// Runs the commands of a body, whose first byte stands at a place of the file, on the parts before
/// the first one.
fn run<L: Ledger>(
    setting: &Setting,
    parts: &mut Parts,
    bytes: &[u8],
    from: u32,
    steps: &mut Steps<L>,
) -> BodyChecked
    requires within { from + length bytes.now < 2 ^ 32 }
    requires running { IsRunning setting.now parts.old }
    requires fresh { parts.old.sorry ≡ false }
    ensures run { IsBodyRun (heading_for (machine_of setting.now parts.old)) bytes.now (body_from (plain (gaps_of setting.now.mode)) (tables_for (machine_of setting.now parts.old)) (heading_for (machine_of setting.now parts.old)) (length bytes.now) from bytes.now (machine_of setting.now parts.old).state) result }
    ensures steps { UnlessMem result (steps.new ≡ steps.old + body_steps_from (plain (gaps_of setting.now.mode)) (tables_for (machine_of setting.now parts.old)) (heading_for (machine_of setting.now parts.old)) (length bytes.now) from bytes.now (machine_of setting.now parts.old).state) }
    ensures most { steps.new ≤ steps.old + length bytes.now * (length setting.now.env.file + 1) }
    ensures nodes { UnlessMem result (OneACommand (length parts.old.store.entries) bytes.now (length parts.new.store.entries)) }
    ensures running { WhereGood result (IsRunning setting.now parts.new) }
{
    let mut at = 0;
    'commands: loop {
        if let Some((place, len)) = reference_at(&bytes[at as usize..]) {
            // Most commands are such.
            match setting.refer(parts, place, steps) {
                Ok(()) => at += len,
                Err(stop) => return BodyChecked::stopped(from + at, stop),
            }
            continue 'commands;
        }
        let Ok(cmd) = cmd_at(bytes, at) else {
            return BodyChecked::Refused {
                at: from + at,
                rule: K::Command,
            };
        };
        let next = at + u32::from(cmd.len);
        if cmd.code == END {
            if next as usize != bytes.len() {
                return BodyChecked::Refused {
                    at: from + at,
                    rule: K::StatementLength,
                };
            }
            return BodyChecked::ended(from + at, setting.finish(parts, steps));
        }
        match setting.advance(parts, cmd, steps) {
            Ok(()) => at = next,
            Err(stop) => return BodyChecked::stopped(from + at, stop),
        }
    }
}

/// The place to which the command at the front refers, and how many bytes it takes, where its first byte
/// says that it is a reference with a short operand.
#[inline(always)]
fn reference_at(bytes: &[u8]) -> Option<(u32, u32)>
    ensures { IfSome result (λ told. first_command bytes.now ≡ Ok (reference told.0 told.1)) }
{
    let [first, low, high, ..] = bytes else {
        return None;
    };
    let short = u32::from(*low);
    match *first {
        0x12 => Some((0, 1)),
        0x52 => Some((short, 2)),
        0x92 => Some((short + 256 * u32::from(*high), 3)),
        _ => None,
    }
}
