//! The commands of a body.
ghost use Rattle.std.specs.Prelude.{ℕ, ◌≡◌, IfSome, IfNone, Some, None};
ghost use Rattle.mz_machine_theory.specs.Profile.{strict};
ghost use Rattle.mz_machine_theory.specs.Bodies.{stands_in, body_command, proves};
ghost use Rattle.mz_machine_env.specs.OwnRow.{kind_of};
ghost use Rattle.mz_machine.specs.OverStore.{code_of};

use mz_cmd::ProofCode;
use mz_machine_env::{BodyKind, Converting, Making};

/// A command over the heap.
#[derive(Clone, Copy)]
pub(crate) enum Keeping {
    Ref,
    ConvRef,
    Dummy,
    Hyp,
    Save,
}

/// A command of a body other than END; its operand stands beside it.
#[derive(Clone, Copy)]
pub(crate) enum Command {
    Makes(Making),
    Keeps(Keeping),
    Converts(Converting),
}

/// Whether the command stands in such bodies.
#[inline(always)]
fn stands_in(kind: BodyKind, code: ProofCode) -> bool
    ensures { result ≡ stands_in strict (kind_of kind) code }
{
    match code {
        ProofCode::Term
        | ProofCode::TermSave
        | ProofCode::Ref
        | ProofCode::Dummy
        | ProofCode::Save => true,
        ProofCode::Hyp => matches!(kind, BodyKind::Axiom | BodyKind::Theorem),
        _ => matches!(kind, BodyKind::Theorem),
    }
}

/// The command with the code.
#[inline(always)]
fn command_of(code: ProofCode) -> Command
    ensures { code_of result ≡ code }
{
    match code {
        ProofCode::Term => Command::Makes(Making::Term),
        ProofCode::TermSave => Command::Makes(Making::TermSave),
        ProofCode::Thm => Command::Makes(Making::Thm),
        ProofCode::ThmSave => Command::Makes(Making::ThmSave),
        ProofCode::Ref => Command::Keeps(Keeping::Ref),
        ProofCode::ConvRef => Command::Keeps(Keeping::ConvRef),
        ProofCode::Dummy => Command::Keeps(Keeping::Dummy),
        ProofCode::Hyp => Command::Keeps(Keeping::Hyp),
        ProofCode::Save => Command::Keeps(Keeping::Save),
        ProofCode::Conv => Command::Converts(Converting::Conv),
        ProofCode::Refl => Command::Converts(Converting::Refl),
        ProofCode::Symm => Command::Converts(Converting::Symm),
        ProofCode::Cong => Command::Converts(Converting::Cong),
        ProofCode::Unfold => Command::Converts(Converting::Unfold),
        ProofCode::ConvCut => Command::Converts(Converting::ConvCut),
        ProofCode::ConvSave => Command::Converts(Converting::ConvSave),
        ProofCode::Sorry => Command::Converts(Converting::Sorry),
    }
}

/// The command with a code other than END's, if it is one of such bodies.
#[inline(always)]
pub(crate) fn decoded(kind: BodyKind, code: u8) -> Option<Command>
    requires { code ≡ 0 → ⊥ }
    ensures some { IfSome result (λ c. (value : ℕ) → body_command strict (kind_of kind) code value ≡ Some (proves (code_of c) value)) }
    ensures none { IfNone result ((value : ℕ) → body_command strict (kind_of kind) code value ≡ None) }
{
    let Ok(proof) = ProofCode::try_from(code) else {
        return None;
    };
    if !stands_in(kind, proof) {
        return None;
    }
    Some(command_of(proof))
}
