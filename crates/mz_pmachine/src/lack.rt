//! Commands that ask for more items than are written out.
ghost use Rattle.std.specs.Prelude.{◌≡◌, IfSome, IfNone};
ghost use Rattle.mz_machine_env.specs.Before.{tables_of};
ghost use Rattle.mz_machine.specs.OpenEquations.{asked_by, many_to_come, AllOpen, AsksNoMore, IsLacking};
ghost use Rattle.mz_pmachine.specs.OpenNodes.{of_nodes};
ghost use Rattle.mz_pmachine.specs.OverNodes.{code_of};

use crate::command::Command;
use crate::equations::reach;
use mz_cmd::K;
use mz_machine::{Equation, asked_by_making};
use mz_machine_env::Environment;
use mz_pmachine_unify::Nodes;

/// The rule that refuses a command which asks for more items than are written out, where obligations
/// are still to come.
pub(crate) fn lack(
    env: &Environment,
    command: Command,
    value: u32,
    nodes: &Nodes,
    written: usize,
    equations: &[Equation],
) -> Option<K>
    requires { AllOpen (of_nodes nodes.now) equations.now }
    ensures some { IfSome result (λ rule. IsLacking (asked_by (tables_of env.now) (code_of command) value) written (many_to_come (of_nodes nodes.now) equations.now) rule) }
    ensures none { IfNone result (AsksNoMore equations.now (asked_by (tables_of env.now) (code_of command) value) written) }
{
    if equations.is_empty() {
        return None;
    }
    let asked = asked_by(env, command, value);
    if asked <= written {
        return None;
    }
    if reach(nodes, equations, asked - written) {
        Some(K::Kind)
    } else {
        Some(K::Underflow)
    }
}

/// How many items a command asks for before it looks at one.
fn asked_by(env: &Environment, command: Command, value: u32) -> usize
    ensures { result ≡ asked_by (tables_of env.now) (code_of command) value }
{
    match command {
        Command::Makes(making) => asked_by_making(env, making, value),
        Command::Keeps(_) | Command::Converts(_) => 0,
    }
}
