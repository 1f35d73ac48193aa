//! Why reading stops.
use mz_sexpr::U;
use std::alloc::{AllocError, AllocFailed};

/// A rule that a statement breaks, and the place where it is reported, in bytes from 0.
#[derive(Clone, Copy, Debug, PartialEq, Eq)]
pub struct Fault {
    /// The place in the text.
    pub at: u32,
    /// The rule.
    pub rule: U,
}

/// Why reading a part of a text stops.
#[derive(Clone, Copy, Debug, PartialEq, Eq)]
pub enum Stop {
    /// A rule that the part breaks.
    Refused(Fault),
    /// No memory was left.
    Mem,
}

impl From<AllocError> for Stop {
    ghost use Rattle.std.specs.Prelude.{◌≡◌};
    ghost use Rattle.mz_mmu_theory.specs.declared.fault.Stop.TheVariants.{Mem};

    ghost from_gives = { λ _ stop. stop ≡ Mem };

    fn from(_: AllocError) -> Stop {
        Stop::Mem
    }
}

impl<T: Drop> From<AllocFailed<T>> for Stop {
    ghost use Rattle.std.specs.Prelude.{◌≡◌};
    ghost use Rattle.mz_mmu_theory.specs.declared.fault.Stop.TheVariants.{Mem};

    ghost from_gives = { λ _ stop. stop ≡ Mem };

    fn from(_: AllocFailed<T>) -> Stop {
        Stop::Mem
    }
}
