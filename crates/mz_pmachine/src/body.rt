//! A whole body, read in place.
ghost use Rattle.std.specs.Prelude.{◌≡◌, ◌≤◌, ◌<◌, ◌^◌, ◌+◌, ◌-◌, ◌*◌, length};
ghost use Rattle.mz_pmachine_theory.specs.NodeIdentity.{portable};
ghost use Rattle.mz_machine_theory.specs.Bodies.{body_run, body_steps, body_from, body_steps_from};
ghost use Rattle.mz_pmachine.specs.Steps.{heading_for, tables_for};
ghost use Rattle.mz_layout_tables.specs.Heads.{body_bytes};
ghost use Rattle.mz_machine_env.specs.OwnRow.{MayRun, byte_of};
ghost use Rattle.mz_machine_theory.specs.Headings.{heading_of};
ghost use Rattle.mz_machine_env.specs.Before.{tables_before};
ghost use Rattle.mz_machine.specs.BodyAnswers.{UnlessMem};
ghost use Rattle.mz_machine.specs.Tidiness.{OneACommand};
ghost use Rattle.mz_pmachine.specs.BodyAnswers.{IsBodyRun};
ghost use Rattle.mz_pmachine.specs.Tidiness.{HoldsAtMost};
ghost use Rattle.mz_pmachine.specs.Running.{IsRunning, machine_of};

use crate::machine::{Parts, Setting};
use crate::scratch::{Buffers, PortableScratch};
use mz_cmd::{END, K, Steps, cmd_at};
use mz_layout_tables::{Mmb, Rows};
use mz_machine::BodyChecked;
use mz_machine_env::{BodyKind, kind_by};
use std::alloc::Global;
use std::sync::ledger::Ledger;

/// Runs the body of a statement as a verifier does that compares by identity; its bytes are those from
/// the first place of `body` up to the second. The statement has this kind, 02 for an axiom, 05 for a
/// definition and 06 for a theorem; `row` is the next row of its table, and `before` counts the rows
/// that were declared before.
///
/// The words of the row and of those before it are right. A step is counted for each command that is
/// executed, of the body and of the streams that it runs, up to the END or the one that is refused;
/// never more than one for each byte of the body and of a stream at each.
pub fn check_portable<L: Ledger>(
    alloc: Global,
    mmb: &Mmb,
    kind: u8,
    row: u32,
    before: Rows,
    body: (u32, u32),
    steps: &mut Steps<L>,
) -> BodyChecked
    requires may_run { MayRun mmb.now kind row before }
    requires order { body.0 ≤ body.1 }
    requires within { body.1 ≤ length mmb.now }
    ensures run { IsBodyRun (heading_of mmb.now kind row) (body_run portable (tables_before mmb.now before) (heading_of mmb.now kind row) body.0 (body_bytes mmb.now body.0 body.1)) result }
    ensures most { steps.new ≤ steps.old + (body.1 - body.0) * (length mmb.now + 1) }
    ensures steps { UnlessMem result (steps.new ≡ steps.old + body_steps portable (tables_before mmb.now before) (heading_of mmb.now kind row) body.0 (body_bytes mmb.now body.0 body.1)) }
{
    let mut scratch = PortableScratch::new();
    let kind = kind_by(kind);
    check_portable_in(alloc, &mut scratch, mmb, kind, row, before, body, steps)
}

/// Runs the body of a statement as `check_portable` does, in buffers that earlier bodies may have left.
/// Unless out of memory, the scratch keeps at most a node for each parameter and for each command that
/// comes before the END.
pub fn check_portable_in<L: Ledger>(
    alloc: Global,
    scratch: &mut PortableScratch,
    mmb: &Mmb,
    kind: BodyKind,
    row: u32,
    before: Rows,
    body: (u32, u32),
    steps: &mut Steps<L>,
) -> BodyChecked
    requires may_run { MayRun mmb.now (byte_of kind) row before }
    requires order { body.0 ≤ body.1 }
    requires within { body.1 ≤ length mmb.now }
    ensures run { IsBodyRun (heading_of mmb.now (byte_of kind) row) (body_run portable (tables_before mmb.now before) (heading_of mmb.now (byte_of kind) row) body.0 (body_bytes mmb.now body.0 body.1)) result }
    ensures most { steps.new ≤ steps.old + (body.1 - body.0) * (length mmb.now + 1) }
    ensures steps { UnlessMem result (steps.new ≡ steps.old + body_steps portable (tables_before mmb.now before) (heading_of mmb.now (byte_of kind) row) body.0 (body_bytes mmb.now body.0 body.1)) }
    ensures nodes { UnlessMem result (HoldsAtMost (length (heading_of mmb.now (byte_of kind) row).params) (body_bytes mmb.now body.0 body.1) scratch.new) }
{
    let Ok(mut buffers) = scratch.take(alloc) else {
        return BodyChecked::Mem;
    };
    let checked = check_on(&mut buffers, mmb, kind, row, before, body, steps);
    scratch.keep(buffers);
    checked
}

/// Runs the body of a statement with scratch buffers, whatever they hold.
fn check_on<L: Ledger>(
    buffers: &mut Buffers,
    mmb: &Mmb,
    kind: BodyKind,
    row: u32,
    before: Rows,
    body: (u32, u32),
    steps: &mut Steps<L>,
) -> BodyChecked
    requires may_run { MayRun mmb.now (byte_of kind) row before }
    requires order { body.0 ≤ body.1 }
    requires within { body.1 ≤ length mmb.now }
    ensures run { IsBodyRun (heading_of mmb.now (byte_of kind) row) (body_run portable (tables_before mmb.now before) (heading_of mmb.now (byte_of kind) row) body.0 (body_bytes mmb.now body.0 body.1)) result }
    ensures most { steps.new ≤ steps.old + (body.1 - body.0) * (length mmb.now + 1) }
    ensures steps { UnlessMem result (steps.new ≡ steps.old + body_steps portable (tables_before mmb.now before) (heading_of mmb.now (byte_of kind) row) body.0 (body_bytes mmb.now body.0 body.1)) }
    ensures nodes { UnlessMem result (OneACommand (length (heading_of mmb.now (byte_of kind) row).params) (body_bytes mmb.now body.0 body.1) (length buffers.new.parts.nodes.entries)) }
{
    let Ok(setting) = Setting::begin(
        mmb,
        kind,
        row,
        before,
        &mut buffers.words,
        &mut buffers.parts,
    ) else {
        return BodyChecked::Mem;
    };
    let bytes = &mmb.file()[body.0 as usize..body.1 as usize];
    run(&setting, &mut buffers.parts, bytes, body.0, steps)
}

/// Runs the commands of a body, whose first byte stands at a place of the file, on the parts before
/// the first one.
fn run<L: Ledger>(
    setting: &Setting,
    parts: &mut Parts,
    bytes: &[u8],
    from: u32,
    steps: &mut Steps<L>,
) -> BodyChecked
    requires within { from + length bytes.now < 2 ^ 32 }
    requires running { IsRunning setting.now parts.old }
    requires first { (machine_of setting.now parts.old).next ≡ 0 }
    ensures run { IsBodyRun (heading_for (machine_of setting.now parts.old)) (body_from portable (tables_for (machine_of setting.now parts.old)) (heading_for (machine_of setting.now parts.old)) (length bytes.now) from bytes.now (machine_of setting.now parts.old).state) result }
    ensures steps { UnlessMem result (steps.new ≡ steps.old + body_steps_from portable (tables_for (machine_of setting.now parts.old)) (heading_for (machine_of setting.now parts.old)) (length bytes.now) from bytes.now (machine_of setting.now parts.old).state) }
    ensures most { steps.new ≤ steps.old + length bytes.now * (length setting.now.env.file + 1) }
    ensures nodes { UnlessMem result (OneACommand (length parts.old.nodes.entries) bytes.now (length parts.new.nodes.entries)) }
{
    let mut at = 0;
    'commands: loop {
        let Ok(cmd) = cmd_at(bytes, at) else {
            return BodyChecked::Refused {
                at: from + at,
                rule: K::Command,
            };
        };
        let next = at + u32::from(cmd.len);
        if cmd.code == END {
            if next as usize != bytes.len() {
                return BodyChecked::Refused {
                    at: from + at,
                    rule: K::StatementLength,
                };
            }
            return BodyChecked::ended(from + at, setting.finish(parts, steps));
        }
        match setting.advance(parts, from + at, cmd, steps) {
            Ok(()) => at = next,
            Err(stop) => return BodyChecked::stopped(from + at, stop),
        }
    }
}
