// Why no statement is read.
ghost use Rattle.std.specs.Prelude.{◌≡◌};

use mz_lex::S;
use std::alloc::{AllocError, AllocFailed};

/// The first rule that fails, and the byte at which it is reported.
#[derive(Clone, Copy, Debug, PartialEq, Eq)]
pub struct Fault {
    pub at: u32,
    pub rule: S,
}

/// A fault, or out of memory.
#[derive(Clone, Copy, Debug, PartialEq, Eq)]
pub enum Halt {
    Fault(Fault),
    Mem,
}

impl From<Fault> for Halt {
    ghost use Rattle.mz_spec_theory.specs.declared.refusal.Halt.{Halt};

    ghost from_gives = { λ fault halt. halt ≡ Halt.Fault fault };

    fn from(fault: Fault) -> Halt {
        Halt::Fault(fault)
    }
}

impl From<AllocError> for Halt {
    ghost use Rattle.mz_spec_theory.specs.declared.refusal.Halt.{Halt};

    ghost from_gives = { λ _ halt. halt ≡ Halt.Mem };

    fn from(_: AllocError) -> Halt {
        Halt::Mem
    }
}

impl<T: Drop> From<AllocFailed<T>> for Halt {
    ghost use Rattle.mz_spec_theory.specs.declared.refusal.Halt.{Halt};

    ghost from_gives = { λ _ halt. halt ≡ Halt.Mem };

    fn from(_: AllocFailed<T>) -> Halt {
        Halt::Mem
    }
}
