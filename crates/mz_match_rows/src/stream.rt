// The commands of a unify stream, read in place.
ghost use Rattle.std.specs.Prelude.{◌≡◌, ◌≤◌, ◌<◌, ◌^◌, ◌↔◌, ℕ, IsTrue, Some, None, length};
ghost use Rattle.mz_match_rows.specs.Streams.{dummies_in as dummies_lem, makes_mark as makes_lem, mark_from, Passes, Says, step_at as step_lem};
ghost use Rattle.mz_cmd.specs.declared.code.UnifyCode.TheVariants as codes;

use mz_cmd::{UnifyCode, cmd_at};

/// A command of a unify stream, its operand, and the place after it.
#[derive(Clone, Copy, Debug, PartialEq, Eq)]
pub struct Step {
    pub code: UnifyCode,
    pub value: u32,
    pub next: u32,
}

/// A place of a unify stream, and how many dummies are met before it.
#[derive(Clone, Copy, Debug, PartialEq, Eq)]
pub struct Cursor {
    pub at: u32,
    pub dummies: u32,
}

/// The command at a place; none at an END.
pub fn step_at(file: &[u8], at: u32) -> Option<Step>
    requires within { at ≤ length file.now }
    requires fits { length file.now < 2 ^ 32 }
    ensures { result ≡ step_lem file.now at }
{
    let Ok(cmd) = cmd_at(file, at) else {
        return None;
    };
    let Ok(code) = UnifyCode::try_from(cmd.code) else {
        return None;
    };
    Some(Step {
        code,
        value: cmd.value,
        next: at + u32::from(cmd.len),
    })
}

/// Where the mark with this number is made, by the stream that begins at a place: saved terms and
/// dummies are marked, in order.
pub fn find_mark(file: &[u8], start: u32, mark: u32) -> Option<Cursor>
    requires within { start ≤ length file.now }
    requires fits { length file.now < 2 ^ 32 }
    ensures { (n : ℕ) (place : Cursor) → mark_from file.now n start 0 mark ≡ Some place → result ≡ Some place }
{
    let mut at = start;
    let mut dummies = 0;
    let mut left = mark;
    'commands: loop {
        let Some(step) = step_at(file, at) else {
            return None;
        };
        if makes_mark(step.code) {
            if left == 0 {
                return Some(Cursor { at, dummies });
            }
            left -= 1;
        }
        dummies += dummies_in(step.code);
        at = step.next;
    }
}

/// Whether the command marks an expression.
pub fn makes_mark(code: UnifyCode) -> bool
    ensures { result ≡ makes_lem code }
{
    matches!(code, UnifyCode::TermSave | UnifyCode::Dummy)
}

/// 1 for a dummy's command, else 0.
pub fn dummies_in(code: UnifyCode) -> u32
    ensures { result ≡ dummies_lem code }
{
    match code {
        UnifyCode::Dummy => 1,
        _ => 0,
    }
}

/// The place behind the next hypothesis's command from a place on, if there is one before the END.
pub fn next_hyp(file: &[u8], from: u32) -> Option<u32>
    requires within { from ≤ length file.now }
    requires fits { length file.now < 2 ^ 32 }
    ensures hyp { (n at value next : ℕ) → Passes file.now n from at → Says file.now at codes.Hyp value next → result ≡ Some next }
    ensures end { (n at : ℕ) → Passes file.now n from at → step_lem file.now at ≡ None → result ≡ None }
{
    let mut at = from;
    'commands: loop {
        let Some(step) = step_at(file, at) else {
            return None;
        };
        if is_hyp(step.code) {
            return Some(step.next);
        }
        at = step.next;
    }
}

fn is_hyp(code: UnifyCode) -> bool
    ensures { IsTrue result ↔ (code ≡ UnifyCode.Hyp) }
{
    matches!(code, UnifyCode::Hyp)
}
