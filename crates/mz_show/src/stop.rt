// Why a statement's lines can't be given.
ghost use Rattle.std.specs.Prelude.{◌≡◌};

use mz_cmd::{Mem, Refusal};

/// Why a statement's lines can't be given.
#[derive(Clone, Copy)]
pub enum Stop {
    /// A rule of the binary fails.
    Refused(Refusal),
    /// Out of memory.
    Mem,
}

impl From<Refusal> for Stop {
    ghost use Rattle.mz_show.specs.declared.stop.Stop.TheVariants.{Refused};

    ghost from_gives = { λ refusal stop. stop ≡ Refused refusal };

    fn from(refusal: Refusal) -> Stop {
        Stop::Refused(refusal)
    }
}

impl From<Mem> for Stop {
    ghost use Rattle.mz_show.specs.declared.stop.Stop.TheVariants.{Mem};

    ghost from_gives = { λ _ stop. stop ≡ Mem };

    fn from(_: Mem) -> Stop {
        Stop::Mem
    }
}
