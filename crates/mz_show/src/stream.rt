// The commands of a unify stream or a body.
ghost use Rattle.std.specs.Prelude.{◌≡◌, ◌≤◌, ◌<◌, ◌^◌, ◌↔◌, ◌++◌, length, IsTrue, IfOk, if◌then◌else◌};
ghost use Rattle.mz_show.specs.Streams.{EndStands, LeadsTo, belongs, command_line};
ghost use Rattle.mz_show.specs.Answers.{AppendsRun};

use crate::words::{put_proof_line, put_unify_line};
use mz_cmd::{Cmd, END, Mem, ProofCode, UnifyCode, cmd_at};

/// What commands are read as.
#[derive(Clone, Copy)]
pub enum Stream {
    /// A unify stream.
    Unify,
    /// A statement's body.
    Proof,
}

/// Appends the lines of the commands from a place on, up to the first place where none of the
/// stream stands, and gives that place.
pub fn list_commands(
    stream: Stream,
    bytes: &[u8],
    from: u32,
    text: &mut Vec<u8>,
) -> Result<u32, Mem>
    requires within { from ≤ length bytes.now }
    requires fits { length bytes.now < 2 ^ 32 }
    ensures run { IfOk result (λ to. AppendsRun stream bytes.now from to text.old.items text.new.items) }
    ensures within { IfOk result (λ to. to ≤ length bytes.now) }
{
    let mut at = from;
    loop {
        let Ok(cmd) = cmd_at(bytes, at) else {
            return Ok(at);
        };
        if !put_command(stream, cmd, text)? {
            return Ok(at);
        }
        at += u32::from(cmd.len);
    }
}

/// Appends the line of a command, where it is one of the stream; or says that it isn't.
fn put_command(stream: Stream, cmd: Cmd, text: &mut Vec<u8>) -> Result<bool, Mem>
    ensures found { IfOk result (λ found. found ≡ belongs stream cmd.code) }
    ensures appended { IfOk result (λ found. text.new.items ≡ (if found then text.old.items ++ command_line stream cmd else text.old.items)) }
{
    match stream {
        Stream::Unify => {
            let Ok(code) = UnifyCode::try_from(cmd.code) else {
                return Ok(false);
            };
            put_unify_line(code, cmd.value, text)?;
        }
        Stream::Proof => {
            let Ok(code) = ProofCode::try_from(cmd.code) else {
                return Ok(false);
            };
            put_proof_line(code, cmd.value, text)?;
        }
    }
    Ok(true)
}

/// Whether END stands at a place.
pub fn end_stands(bytes: &[u8], at: u32) -> bool
    requires { at ≤ length bytes.now }
    ensures { IsTrue result ↔ EndStands bytes.now at }
{
    match cmd_at(bytes, at) {
        Ok(cmd) => cmd.code == END,
        Err(_) => false,
    }
}

/// Whether the command at a place, if there is one, leads to another place.
pub fn leads_to(bytes: &[u8], at: u32, next: u32) -> bool
    requires { at ≤ length bytes.now }
    ensures { IsTrue result ↔ LeadsTo bytes.now at next }
{
    match cmd_at(bytes, at) {
        Ok(cmd) => u64::from(at) + u64::from(cmd.len) == u64::from(next),
        Err(_) => true,
    }
}
