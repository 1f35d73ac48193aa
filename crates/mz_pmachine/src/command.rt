//! The commands of a body.
ghost use Rattle.std.specs.Prelude.{ℕ, ◌≡◌, IfSome, IfNone, Some, None};
ghost use Rattle.mz_cmd.specs.declared.code.ProofCode.TheVariants.{ConvRef};
ghost use Rattle.mz_machine_theory.specs.Bodies.{stands_in, body_command, proves};
ghost use Rattle.mz_machine_env.specs.OwnRow.{kind_of};
ghost use Rattle.mz_pmachine.specs.OverNodes.{code_of};
ghost use Rattle.mz_pmachine_theory.specs.NodeIdentity.{portable};

use mz_cmd::ProofCode;
use mz_machine_env::{BodyKind, Converting, Making};

/// A command over the heap.
#[derive(Clone, Copy)]
pub(crate) enum Keeping {
    Ref,
    Dummy,
    Hyp,
    Save,
}

/// A command of a body other than END; its operand stands beside it.
#[derive(Clone, Copy)]
pub(crate) enum Command {
    Makes(Making),
    Keeps(Keeping),
    Converts(Converting),
}

/// Whether the command stands in such bodies.
fn stands_in(kind: BodyKind, command: Command) -> bool
    ensures { result ≡ stands_in portable (kind_of kind) (code_of command) }
{
    match command {
        Command::Makes(Making::Term | Making::TermSave) => true,
        Command::Keeps(Keeping::Hyp) => matches!(kind, BodyKind::Axiom | BodyKind::Theorem),
        Command::Keeps(Keeping::Ref | Keeping::Dummy | Keeping::Save) => true,
        Command::Makes(Making::Thm | Making::ThmSave) => matches!(kind, BodyKind::Theorem),
        Command::Converts(_) => matches!(kind, BodyKind::Theorem),
    }
}

/// The command with the code. A reference to a conversion by a command of its own is none.
fn command_of(code: ProofCode) -> Option<Command>
    ensures some { IfSome result (λ c. code_of c ≡ code) }
    ensures none { IfNone result (code ≡ ConvRef) }
{
    match code {
        ProofCode::Term => Some(Command::Makes(Making::Term)),
        ProofCode::TermSave => Some(Command::Makes(Making::TermSave)),
        ProofCode::Thm => Some(Command::Makes(Making::Thm)),
        ProofCode::ThmSave => Some(Command::Makes(Making::ThmSave)),
        ProofCode::Ref => Some(Command::Keeps(Keeping::Ref)),
        ProofCode::ConvRef => None,
        ProofCode::Dummy => Some(Command::Keeps(Keeping::Dummy)),
        ProofCode::Hyp => Some(Command::Keeps(Keeping::Hyp)),
        ProofCode::Save => Some(Command::Keeps(Keeping::Save)),
        ProofCode::Conv => Some(Command::Converts(Converting::Conv)),
        ProofCode::Refl => Some(Command::Converts(Converting::Refl)),
        ProofCode::Symm => Some(Command::Converts(Converting::Symm)),
        ProofCode::Cong => Some(Command::Converts(Converting::Cong)),
        ProofCode::Unfold => Some(Command::Converts(Converting::Unfold)),
        ProofCode::ConvCut => Some(Command::Converts(Converting::ConvCut)),
        ProofCode::ConvSave => Some(Command::Converts(Converting::ConvSave)),
        ProofCode::Sorry => Some(Command::Converts(Converting::Sorry)),
    }
}

/// The command with a code other than END's, if it is one of such bodies.
#[tactic(auto, using(crate::proofs::Codes::no_conv_ref))]
pub(crate) fn decoded(kind: BodyKind, code: u8) -> Option<Command>
    requires { code ≡ 0 → ⊥ }
    ensures some { IfSome result (λ c. (value : ℕ) → body_command portable (kind_of kind) code value ≡ Some (proves (code_of c) value)) }
    ensures none { IfNone result ((value : ℕ) → body_command portable (kind_of kind) code value ≡ None) }
{
    let Ok(proof) = ProofCode::try_from(code) else {
        return None;
    };
    let Some(command) = command_of(proof) else {
        return None;
    };
    if !stands_in(kind, command) {
        return None;
    }
    Some(command)
}
