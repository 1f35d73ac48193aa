//! What is read of the unify streams that a body runs.
ghost use Rattle.std.specs.Prelude.{◌≡◌, ◌≤◌, ◌<◌, ◌+◌, ◌^◌, ◌++◌, IfOk, OnOk, length, reverse};
ghost use Rattle.mz_trace.specs.Commands.{RunsInCitation, TakesHyps, MayMeet, Meets};
ghost use Rattle.mz_trace.specs.Streams.{hyps_of, MayTakeApart, TakesApart};

use crate::node::{RunNode, application, variable};
use mz_cmd::{Steps, UnifyCode, cmd_at};
use std::alloc::{AllocError, Global};
use std::sync::ledger::Ledger;

/// How many hypotheses an assertion's stream takes.
pub(crate) fn hypotheses<L: Ledger>(stream: &[u8], steps: &mut Steps<L>) -> u32
    requires fits { length stream.now < 2 ^ 32 }
    requires runs { RunsInCitation stream.now }
    ensures takes { TakesHyps stream.now result }
    ensures most { steps.new ≤ steps.old + length stream.now }
{
    let mut count = 0;
    let mut at = 0;
    'commands: loop {
        let Ok(cmd) = cmd_at(stream, at) else {
            unreachable!();
        };
        steps.tick();
        // As the stream runs, this is its END.
        let Ok(code) = UnifyCode::try_from(cmd.code) else {
            return count;
        };
        count += taken_by(code);
        at += u32::from(cmd.len);
    }
}

/// How many hypotheses a command takes.
fn taken_by(code: UnifyCode) -> u32
    ensures { result ≡ hyps_of code }
{
    match code {
        UnifyCode::Hyp => 1,
        UnifyCode::Term | UnifyCode::TermSave | UnifyCode::Ref | UnifyCode::Dummy => 0,
    }
}

/// The variables that a definition's stream meets for its dummies where it takes an expression apart.
pub(crate) fn met_variables<L: Ledger>(
    alloc: Global,
    nodes: &[RunNode],
    stream: &[u8],
    target: u32,
    steps: &mut Steps<L>,
) -> Result<Vec<u32>, AllocError>
    requires fits { length stream.now < 2 ^ 32 }
    requires runs { MayMeet nodes.now stream.now target }
    ensures met { IfOk result (λ met. Meets nodes.now stream.now target met.items) }
    ensures most { steps.new ≤ steps.old + length stream.now }
{
    let mut targets = Vec::new(alloc);
    targets.push(target)?;
    let mut met = Vec::new(alloc);
    let mut at = 0;
    'commands: loop {
        let Ok(cmd) = cmd_at(stream, at) else {
            unreachable!();
        };
        steps.tick();
        // As the stream runs, this is its END.
        let Ok(code) = UnifyCode::try_from(cmd.code) else {
            return Ok(met);
        };
        take_apart(nodes, code, &mut targets, &mut met)?;
        at += u32::from(cmd.len);
    }
}

/// Executes a command on the targets, the top of which is the last.
fn take_apart(
    nodes: &[RunNode],
    code: UnifyCode,
    targets: &mut Vec<u32>,
    met: &mut Vec<u32>,
) -> Result<(), AllocError>
    requires { MayTakeApart nodes.now code targets.old.items met.old.items }
    ensures { OnOk result (TakesApart nodes.now code targets.old.items met.old.items targets.new.items met.new.items) }
{
    let Some(top) = targets.pop() else {
        unreachable!();
    };
    match code {
        UnifyCode::Term | UnifyCode::TermSave => {
            let (_, operands) = application(nodes, top);
            push_reversed(targets, operands)
        }
        UnifyCode::Dummy => {
            met.push(variable(nodes, top))?;
            Ok(())
        }
        UnifyCode::Ref => Ok(()),
        UnifyCode::Hyp => unreachable!(),
    }
}

/// Puts the operands on the targets, the first one on top.
fn push_reversed(targets: &mut Vec<u32>, operands: &[u32]) -> Result<(), AllocError>
    ensures { OnOk result (targets.new.items ≡ targets.old.items ++ reverse operands.now) }
{
    let from = targets.len();
    targets.extend_from_slice(operands)?;
    targets[from..].reverse();
    Ok(())
}
