//! What is asked of a proof.
ghost use Rattle.std.specs.Prelude.{◌≡◌};
ghost use Rattle.mz_base.specs.Gaps.{gaps_of};

/// What is asked of a proof.
#[derive(Clone, Copy, PartialEq, Eq, Debug)]
pub enum Mode {
    /// It is finished: a gap is refused.
    Strict,
    /// It may have gaps, and what rests on one is reported apart.
    Draft,
}

impl Mode {
    /// Whether a gap is let through.
    #[tactic(auto, unfolding(crate::specs::Gaps::gaps_of))]
    pub fn allows_gaps(self) -> bool
        ensures { result ≡ gaps_of self }
    {
        match self {
            Mode::Strict => false,
            Mode::Draft => true,
        }
    }
}
