// Worked bodies, computed.
ghost use Rattle.mz_trace.specs.Examples.{Citations, Congruences, Dummies, Unfoldings};

/// The proofs that worked bodies make.
pub fn worked_proofs()
    ensures citations { Citations }
    ensures unfoldings { Unfoldings }
    ensures congruences { Congruences }
    ensures dummies { Dummies }
{}
