// The citations of a body.
ghost use Rattle.std.specs.Prelude.{◌≡◌, ◌≤◌, ◌<◌, ◌+◌, ◌^◌, ◌↔◌, ℕ, length, IsTrue, Some, None};
ghost use Rattle.mz_cmd.specs.StatementList.{statement_at};
ghost use Rattle.mz_layout_tables.specs.Heads.{body_bytes};
ghost use Rattle.mz_binary_theory.specs.Gapped.{place_after};
ghost use Rattle.mz_axioms.specs.Commands.{IsCiting};
ghost use Rattle.mz_axioms.specs.Citations.{CiteNothing, IsFirstCitation, IsFirstIn, IsInBody, rest_of_body};

use mz_binary_theory::Statement;
use mz_cmd::{Cmd, ProofCode, StmtAt, cmd_at, stmt_at};
use mz_layout_tables::Mmb;

/// The row that the first Thm or ThmSave cites from a place of the statement's body on, and the place
/// after that command; `None` exactly where none stands there. The place is that of a command, or the
/// body's end.
pub fn cited_at(mmb: &Mmb, statement: &Statement, pos: u32) -> Option<(u32, u32)>
    requires { IsInBody mmb.now statement.now.at pos }
    ensures some { (row next : ℕ) → (result ≡ Some (row, next)) ↔ IsFirstCitation (rest_of_body mmb.now statement.now.at pos) pos row next }
    ensures none { (result ≡ None) ↔ CiteNothing (rest_of_body mmb.now statement.now.at pos) }
{
    citation_in(mmb, pos, end_of(mmb, statement, pos))
}

/// The same between two places.
pub fn citation_in(mmb: &Mmb, pos: u32, end: u32) -> Option<(u32, u32)>
    requires order { pos ≤ end }
    requires within { end ≤ length mmb.now }
    ensures { IsFirstIn pos (body_bytes mmb.now pos end) result }
{
    first_cited(&mmb.file()[pos as usize..end as usize], pos)
}

fn end_of(mmb: &Mmb, statement: &Statement, pos: u32) -> u32
    requires { IsInBody mmb.now statement.now.at pos }
    ensures end { result ≡ place_after (statement_at mmb.now statement.now.at) }
    ensures order { pos ≤ result }
    ensures within { result ≤ length mmb.now }
{
    match stmt_at(mmb.file(), statement.at) {
        Ok(StmtAt::Head { next, .. }) => next,
        _ => pos,
    }
}

/// The first citation in bytes that stand at a place.
fn first_cited(bytes: &[u8], from: u32) -> Option<(u32, u32)>
    requires { from + length bytes.now < 2 ^ 32 }
    ensures { IsFirstIn from bytes.now result }
{
    let mut at = 0;
    'commands: loop {
        let Ok(cmd) = cmd_at(bytes, at) else {
            return None;
        };
        let next = at + u32::from(cmd.len);
        if is_citation(cmd) {
            return Some((cmd.value, from + next));
        }
        at = next;
    }
}

/// Whether the command cites.
fn is_citation(cmd: Cmd) -> bool
    ensures { IsTrue result ↔ IsCiting cmd }
{
    match ProofCode::try_from(cmd.code) {
        Ok(ProofCode::Thm) => true,
        Ok(ProofCode::ThmSave) => true,
        Ok(_) => false,
        Err(_) => false,
    }
}
