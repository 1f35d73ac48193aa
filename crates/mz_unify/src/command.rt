//! The commands of a stream.
ghost use Rattle.std.specs.Prelude.{◌≡◌, ◌≤◌, IfSome, IfNone, Some, None, Ok, length, drop};
ghost use Rattle.mz_machine_theory.specs.Streams.{unify_command};
ghost use Rattle.mz_machine_theory.specs.UnifyMachine.{kind_of};
ghost use Rattle.mz_cmd.specs.declared.command.Cmd.{Cmd as Read};
ghost use Rattle.mz_cmd.specs.Reading.{first_command, command_at};
ghost use Rattle.mz_unify.specs.Stored.{mode_of};
ghost use Rattle.mz_unify.specs.Rows.{command_of, IsNext};

use crate::unified::UnifyMode;
use mz_cmd::{Cmd, END, UnifyCode, cmd_at};

/// A command of a stream, with its operand.
#[derive(Clone, Copy, Debug, PartialEq, Eq)]
pub enum Command {
    /// The target is an application of this term.
    Term(u32),
    /// The same, and it is kept in the heap.
    TermSave(u32),
    /// The target is what stands at this place of the heap.
    Ref(u32),
    /// The target is a fresh bound variable of this sort.
    Dummy(u32),
    /// A hypothesis is the next target.
    Hyp,
    /// Nothing is left.
    End,
}

/// The command, if it is one of such a stream: dummies are met only in definitions, hypotheses only in
/// assertions.
#[inline(always)]
pub fn decoded(mode: UnifyMode, cmd: Cmd) -> Option<Command>
    ensures some { IfSome result (λ c. unify_command (kind_of (mode_of mode)) cmd.code cmd.value ≡ Some (command_of c)) }
    ensures none { IfNone result (unify_command (kind_of (mode_of mode)) cmd.code cmd.value ≡ None) }
{
    if cmd.code == END {
        return Some(Command::End);
    }
    let Ok(code) = UnifyCode::try_from(cmd.code) else {
        return None;
    };
    match (code, mode) {
        (UnifyCode::Term, _) => Some(Command::Term(cmd.value)),
        (UnifyCode::TermSave, _) => Some(Command::TermSave(cmd.value)),
        (UnifyCode::Ref, _) => Some(Command::Ref(cmd.value)),
        (UnifyCode::Dummy, UnifyMode::Body) => Some(Command::Dummy(cmd.value)),
        (UnifyCode::Hyp, UnifyMode::Use | UnifyMode::Final) => Some(Command::Hyp),
        _ => None,
    }
}

/// The command at the front of the bytes, and how many it takes, where it is one of the usual ones: those
/// are told by their first byte.
#[inline(always)]
fn usual(mode: UnifyMode, bytes: &[u8]) -> Option<(Command, u32)>
    ensures { IfSome result (λ next. IsNext (mode_of mode) bytes.now next.0 next.1) }
{
    let [first, low, high, ..] = bytes else {
        return None;
    };
    let short = u32::from(*low);
    let long = short + 256 * u32::from(*high);
    match *first {
        0x00 => Some((Command::End, 1)),
        0x30 => Some((Command::Term(0), 1)),
        0x70 => Some((Command::Term(short), 2)),
        0xB0 => Some((Command::Term(long), 3)),
        0x31 => Some((Command::TermSave(0), 1)),
        0x71 => Some((Command::TermSave(short), 2)),
        0xB1 => Some((Command::TermSave(long), 3)),
        0x32 => Some((Command::Ref(0), 1)),
        0x72 => Some((Command::Ref(short), 2)),
        _ => None,
    }
}

/// The command of such a stream at a place, and how many bytes it takes.
#[inline(always)]
pub(crate) fn next_at(mode: UnifyMode, stream: &[u8], at: u32) -> Option<(Command, u32)>
    requires { at ≤ length stream.now }
    ensures some { IfSome result (λ next. IsNext (mode_of mode) (drop at stream.now) next.0 next.1) }
    ensures none { IfNone result ((c : Read) → command_at stream.now at ≡ Ok c → unify_command (kind_of (mode_of mode)) c.code c.value ≡ None) }
{
    if let Some(next) = usual(mode, &stream[at as usize..]) {
        return Some(next);
    }
    let Ok(cmd) = cmd_at(stream, at) else {
        return None;
    };
    let Some(command) = decoded(mode, cmd) else {
        return None;
    };
    Some((command, u32::from(cmd.len)))
}
