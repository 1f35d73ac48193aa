ghost use Rattle.std.specs.Prelude.{◌≡◌};

use std::alloc::{AllocError, AllocFailed};
use thiserror::Error;

/// Why a statement adds nothing.
#[derive(Clone, Copy, Debug, PartialEq, Eq, Error)]
pub enum NoteFault {
    /// The notation can be mistaken for another one, or its constant has another precedence
    /// elsewhere.
    #[error("the notation clashes with another one")]
    Clash,
    /// The notation, the coercion or the delimiter isn't of its form.
    #[error("the statement isn't of its form")]
    Form,
    /// There would be two paths of coercions between two sorts.
    #[error("there is another path of coercions")]
    CoercionClash,
    /// There is no memory.
    #[error("there is no memory")]
    Mem,
}

impl From<AllocError> for NoteFault {
    ghost use Rattle.std.specs.Prelude.{◌≡◌};
    ghost use Rattle.mz_math_theory.specs.declared.fault.NoteFault.TheVariants.{Mem};

    ghost from_gives = { λ _ fault. fault ≡ Mem };

    fn from(_: AllocError) -> NoteFault {
        NoteFault::Mem
    }
}

impl<T: Drop> From<AllocFailed<T>> for NoteFault {
    ghost use Rattle.std.specs.Prelude.{◌≡◌};
    ghost use Rattle.mz_math_theory.specs.declared.fault.NoteFault.TheVariants.{Mem};

    ghost from_gives = { λ _ fault. fault ≡ Mem };

    fn from(_: AllocFailed<T>) -> NoteFault {
        NoteFault::Mem
    }
}
