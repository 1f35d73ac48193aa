//! What stops a command, of a stream or of a body.
ghost use Rattle.std.specs.Prelude.{◌≡◌, ◌++◌, ◌∷◌, [], ⊤, OnOk, MatchResult, reverse};
ghost use Rattle.mz_unify.specs.Rows.{StopsBy};

use mz_cmd::K;
use mz_store::Id;

/// Why a command doesn't go through, of a stream or of a body.
#[derive(Clone, Copy, Debug, PartialEq, Eq)]
pub enum Stop {
    /// A premise fails.
    Rule(K),
    /// Out of memory.
    Mem,
}

impl From<K> for Stop {
    ghost use Rattle.std.specs.Prelude.{◌≡◌};
    ghost use Rattle.mz_unify.specs.declared.stop.Stop.TheVariants.{Rule};

    ghost from_gives = { λ rule stop. stop ≡ Rule rule };

    fn from(rule: K) -> Stop {
        Stop::Rule(rule)
    }
}

/// Puts something at the end, of a stack, of a heap or of a list of ids.
///
/// # Errors
///
/// Where there is no memory.
#[inline(always)]
pub fn push<T: Drop>(items: &mut Vec<T>, item: T) -> Result<(), Stop>
    ensures ok { OnOk result (items.new.items ≡ items.old.items ++ item ∷ []) }
    ensures err { MatchResult result (λ _. ⊤) (λ stop. StopsBy stop (λ _. ⊥)) }
{
    match items.push(item) {
        Ok(()) => Ok(()),
        Err(_) => Err(Stop::Mem),
    }
}

/// Puts operands on the targets, the first one on top.
///
/// # Errors
///
/// Where there is no memory.
#[inline(always)]
pub fn push_operands(targets: &mut Vec<Id>, operands: &[Id]) -> Result<(), Stop>
    ensures ok { OnOk result (targets.new.items ≡ targets.old.items ++ reverse operands.now) }
    ensures err { MatchResult result (λ _. ⊤) (λ stop. StopsBy stop (λ _. ⊥)) }
{
    let mut at = operands.len();
    'operands: while at > 0 {
        at -= 1;
        push(targets, operands[at])?;
    }
    Ok(())
}
