//! Commands that ask for more items than are written out.
ghost use Rattle.std.specs.Prelude.{◌≡◌, IfSome, IfNone, slice_get};
ghost use Rattle.mz_machine_env.specs.Before.{tables_of};
ghost use Rattle.mz_machine_env.specs.CommandCodes.{code_of_making};
ghost use Rattle.mz_machine_env.specs.OwnRow.{kind_of};
ghost use Rattle.mz_machine.specs.OverStore.{code_of};
ghost use Rattle.mz_machine.specs.OpenEquations.{stored, asked_by, many_of_term, many_of_thm, AllOpen, IsLack, IsNoLack};

use crate::command::{Command, decoded};
use crate::equations::{Equation, reach};
use mz_cmd::{Cmd, K};
use mz_layout_tables::Row;
use mz_logic_theory::Terms;
use mz_machine_env::{BodyKind, Environment, Making};
use mz_store::Store;

/// The rule that refuses a command which asks for more items than are written out, where obligations
/// are still to come.
#[inline(always)]
pub(crate) fn lack(
    env: &Environment,
    kind: BodyKind,
    cmd: Cmd,
    store: &Store,
    written: usize,
    equations: &[Equation],
) -> Option<K>
    requires code { cmd.code ≡ 0 → ⊥ }
    requires standing { AllOpen (stored store.now) equations.now }
    ensures some { IfSome result (λ rule. IsLack (tables_of env.now) (kind_of kind) cmd (stored store.now) written equations.now rule) }
    ensures none { IfNone result (IsNoLack (tables_of env.now) (kind_of kind) cmd written equations.now) }
{
    if equations.is_empty() {
        return None;
    }
    lack_where_open(env, kind, cmd, store, written, equations)
}

/// The same where an equation is open.
fn lack_where_open(
    env: &Environment,
    kind: BodyKind,
    cmd: Cmd,
    store: &Store,
    written: usize,
    equations: &[Equation],
) -> Option<K>
    requires code { cmd.code ≡ 0 → ⊥ }
    requires standing { AllOpen (stored store.now) equations.now }
    ensures some { IfSome result (λ rule. IsLack (tables_of env.now) (kind_of kind) cmd (stored store.now) written equations.now rule) }
    ensures none { IfNone result (IsNoLack (tables_of env.now) (kind_of kind) cmd written equations.now) }
{
    let Some(command) = decoded(kind, cmd.code) else {
        return None;
    };
    let asked = asked_by(env, command, cmd.value);
    if asked <= written {
        return None;
    }
    if reach(store, equations, asked - written) {
        Some(K::Kind)
    } else {
        Some(K::Underflow)
    }
}

/// How many items a command asks for before it looks at one.
fn asked_by(env: &Environment, command: Command, value: u32) -> usize
    ensures { result ≡ asked_by (tables_of env.now) (code_of command) value }
{
    match command {
        Command::Makes(making) => asked_by_making(env, making, value),
        Command::Keeps(_) | Command::Converts(_) => 0,
    }
}

/// How many items a command that makes something asks for.
pub fn asked_by_making(env: &Environment, command: Making, value: u32) -> usize
    ensures { result ≡ asked_by (tables_of env.now) (code_of_making command) value }
{
    match command {
        Making::Term | Making::TermSave => asked_by_term(env, value),
        Making::Thm | Making::ThmSave => asked_by_thm(env, value),
    }
}

/// The operands of a term.
fn asked_by_term(env: &Environment, t: u32) -> usize
    ensures { result ≡ many_of_term (slice_get (tables_of env.now).terms t) }
{
    if t < env.terms() {
        env.arity_of(Row::Term(t)) as usize
    } else {
        0
    }
}

/// What an axiom or theorem is cited for, and its operands.
fn asked_by_thm(env: &Environment, t: u32) -> usize
    ensures { result ≡ many_of_thm (slice_get (tables_of env.now).thms t) }
{
    if t < env.thms() {
        env.arity_of(Row::Thm(t)) as usize + 1
    } else {
        0
    }
}
