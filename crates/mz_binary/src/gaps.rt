// What rests on a gap.
ghost use Rattle.std.specs.Prelude.{◌≡◌, ◌↔◌, ◌<◌, ◌^◌, length, slice_get, true};
ghost use Rattle.mz_cmd.specs.Codes.{proof_code};
ghost use Rattle.mz_binary_theory.specs.Gapped.{CitesMarked, cites_mark, is_citing, mark_in};

use mz_cmd::{Cmd, ProofCode, cmd_at};

/// Whether a command of these bytes cites a tainted axiom or theorem.
pub(crate) fn cites_marked(bytes: &[u8], marks: &[bool]) -> bool
    requires { length bytes.now < 2 ^ 32 }
    ensures { (result ≡ true) ↔ CitesMarked bytes.now marks.now }
{
    let mut at = 0;
    'commands: loop {
        let Ok(cmd) = cmd_at(bytes, at) else {
            return false;
        };
        if is_marked(cmd, marks) {
            return true;
        }
        at += u32::from(cmd.len);
    }
}

/// Whether the command cites a tainted one.
fn is_marked(cmd: Cmd, marks: &[bool]) -> bool
    ensures { result ≡ cites_mark cmd marks.now }
{
    is_citation(cmd.code) && mark_at(marks, cmd.value)
}

fn mark_at(marks: &[bool], row: u32) -> bool
    ensures { result ≡ mark_in (slice_get marks.now row) }
{
    match marks.get(row as usize) {
        Some(mark) => *mark,
        None => false,
    }
}

/// Whether the command with this code cites.
fn is_citation(code: u8) -> bool
    ensures { result ≡ is_citing (proof_code code) }
{
    match ProofCode::try_from(code) {
        Ok(ProofCode::Thm) => true,
        Ok(ProofCode::ThmSave) => true,
        Ok(_) => false,
        Err(_) => false,
    }
}
