//! The commands of a stream, read from the front.
ghost use Rattle.std.specs.Prelude.{◌≡◌, ◌≤◌, ◌<◌, [], ◌∷◌, List, MatchOption, Some, drop, length};
ghost use Rattle.mz_machine_theory.specs.Streams.{StreamKind, StreamIs, UnifyCommand, command_in};

use mz_cmd::{UnifyCode, cmd_at};

/// A command, its operand, and what stands behind it.
#[derive(Clone, Copy)]
pub(crate) struct Step<'a> {
    pub code: UnifyCode,
    pub value: u32,
    pub rest: &'a [u8],
}

/// The first command; none at an END.
pub(crate) fn first_step(stream: &[u8]) -> Option<Step<'_>>
    requires { (kind : StreamKind) × (us : List UnifyCommand) × StreamIs kind stream.now us }
    ensures { (kind : StreamKind) (us : List UnifyCommand) → StreamIs kind stream.now us
        → MatchOption result (us ≡ []) (λ s. (u : UnifyCommand) × (rest : List UnifyCommand) × (us ≡ u ∷ rest)
        × (command_in kind s.value (Some s.code) ≡ Some u) × StreamIs kind s.rest.now rest × (length s.rest.now < length stream.now)) }
{
    let Ok(cmd) = cmd_at(stream, 0) else {
        unreachable!();
    };
    let Ok(code) = UnifyCode::try_from(cmd.code) else {
        return None;
    };
    Some(Step {
        code,
        value: cmd.value,
        rest: behind(stream, cmd.len),
    })
}

/// What stands behind the first bytes, of which there are so many.
fn behind(stream: &[u8], len: u8) -> &[u8]
    requires { len ≤ length stream.now }
    ensures { result.now ≡ drop len stream.now }
{
    &stream[len as usize..]
}
