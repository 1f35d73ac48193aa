// Why a text isn't assembled.
ghost use Rattle.std.specs.Prelude.{◌≡◌};
ghost use Rattle.mz_asm.specs.Answers.{told_at};

use crate::rule::A;
use mz_cmd::Mem;

/// Why the lines of a text are read no further.
#[derive(Clone, Copy)]
pub enum Stop {
    /// A line, from 1, breaks a rule.
    Refused { line: u32, rule: A },
    /// Out of memory.
    Mem,
}

/// Why a line isn't added.
#[derive(Clone, Copy)]
pub enum Fault {
    /// It breaks a rule.
    Rule(A),
    /// Out of memory.
    Mem,
}

impl Fault {
    /// The same, reported of a line.
    pub fn at(self, line: u32) -> Stop
        ensures { result ≡ told_at line self }
    {
        match self {
            Fault::Rule(rule) => Stop::Refused { line, rule },
            Fault::Mem => Stop::Mem,
        }
    }
}

impl From<A> for Fault {
    ghost use Rattle.mz_asm.specs.declared.stop.Fault.TheVariants.{Rule};

    ghost from_gives = { λ rule fault. fault ≡ Rule rule };

    fn from(rule: A) -> Fault {
        Fault::Rule(rule)
    }
}

impl From<Mem> for Fault {
    ghost use Rattle.mz_asm.specs.declared.stop.Fault.TheVariants.{Mem};

    ghost from_gives = { λ _ fault. fault ≡ Mem };

    fn from(_: Mem) -> Fault {
        Fault::Mem
    }
}
