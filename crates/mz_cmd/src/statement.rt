// What stands at a place of the list of statements.
ghost use Rattle.std.specs.Prelude.{◌≡◌, ◌≤◌, ◌^◌, ◌<◌, ◌+◌, length, Ok, ◌↔◌};
ghost use Rattle.mz_base.specs.Checks.{Judges};
ghost use Rattle.mz_cmd.specs.StatementList.{IsListedAt, statement_checks, statement_of, statement_at};

use crate::code::{END, StatementCode};
use crate::command::{Cmd, cmd_at};
use thiserror::Error;

/// What stands at a place of the list of statements.
#[derive(Clone, Copy, Debug, PartialEq, Eq)]
pub enum StmtAt {
    /// The end of the list.
    End,
    /// A statement with this code, and the places of its body and of the next statement, in bytes.
    Head { kind: u8, body: u32, next: u32 },
}

/// Why neither a statement nor the list's end stands at a place, in the order in which it is reported.
#[derive(Clone, Copy, Debug, PartialEq, Eq, Error)]
pub enum StmtFault {
    /// No command stands there.
    #[error("no command stands here")]
    Command,
    /// The command begins no statement.
    #[error("the command begins no statement")]
    Kind,
    /// The distance is shorter than the command, or leads past the end of the bytes.
    #[error("the distance doesn't lead to a next statement")]
    Length,
}

// What a command means at a place of the list, within bytes that end there.
fn listed(cmd: Cmd, pos: u32, end: usize) -> Result<StmtAt, StmtFault>
    requires room { pos + cmd.len ≤ end }
    requires fits { end < 2 ^ 32 }
    ensures { result ≡ statement_of end pos (Ok cmd) }
{
    if cmd.code == END {
        return Ok(StmtAt::End);
    }
    if StatementCode::try_from(cmd.code).is_err() {
        return Err(StmtFault::Kind);
    }
    let len = u32::from(cmd.len);
    if cmd.value < len || u64::from(pos) + u64::from(cmd.value) > end as u64 {
        return Err(StmtFault::Length);
    }
    Ok(StmtAt::Head {
        kind: cmd.code,
        body: pos + len,
        next: pos + cmd.value,
    })
}

/// What stands at a place of the list of statements. The end may be spelled with an operand, which
/// isn't looked at. Past the end of the bytes no command stands.
pub fn stmt_at(bytes: &[u8], pos: u32) -> Result<StmtAt, StmtFault>
    requires fits { length bytes.now < 2 ^ 32 }
    ensures stands { (s : StmtAt) → (result ≡ Ok s) ↔ IsListedAt bytes.now pos s }
    ensures fault { Judges result (statement_checks bytes.now pos) }
    // The same as a function of the bytes.
    ensures computed { result ≡ statement_at bytes.now pos }
{
    if pos as usize > bytes.len() {
        return Err(StmtFault::Command);
    }
    match cmd_at(bytes, pos) {
        Ok(cmd) => listed(cmd, pos, bytes.len()),
        Err(_) => Err(StmtFault::Command),
    }
}
