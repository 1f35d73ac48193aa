//! Where a stream runs, and what became of it.
ghost use Rattle.std.specs.Prelude.{◌≡◌};
ghost use Rattle.mz_unify.specs.Rows.{gone_through, stopped_at};

use crate::stop::Stop;
use mz_cmd::K;

/// Where a stream runs.
#[derive(Clone, Copy, Debug, PartialEq, Eq)]
pub enum UnifyMode {
    /// In a citation: hypotheses are taken from the stack, the top one first.
    Use,
    /// At the end of an axiom or a theorem: its own hypotheses are taken, the last one first.
    Final,
    /// For a definition, unfolded or at its own end: there are no hypotheses.
    Body,
}

/// What became of a stream.
#[derive(Clone, Copy, Debug, PartialEq, Eq)]
pub enum Unified {
    /// It ran to its end, and took so many hypotheses.
    Done { taken: u32 },
    /// The first rule that fails, and the place of its command in the stream, in bytes.
    Refused { at: u32, rule: K },
    /// Out of memory.
    Mem,
}

impl Unified {
    /// What is said where the command at a place of the stream is stopped.
    pub fn stopped(at: u32, stop: Stop) -> Unified
        ensures { result ≡ stopped_at at stop }
    {
        match stop {
            Stop::Rule(rule) => Unified::Refused { at, rule },
            Stop::Mem => Unified::Mem,
        }
    }

    /// Lets the command go on whose stream ran to its end.
    ///
    /// # Errors
    ///
    /// What stopped the stream.
    pub fn through(self) -> Result<(), Stop>
        ensures { result ≡ gone_through self }
    {
        match self {
            Unified::Done { .. } => Ok(()),
            Unified::Refused { rule, .. } => Err(Stop::Rule(rule)),
            Unified::Mem => Err(Stop::Mem),
        }
    }
}
