//! Laws on the definitions: the contract of each function is one, and its body is empty.
ghost use Rattle.mz_emit_theory.specs.ClaimsLaws.{StatedProofsAreSound, StatedProofsUseWhatTheyMean, WeightsAreTheTexts};

/// A stated proof of an assertion is sound, and proves its conclusion.
pub fn stated_proofs_are_sound()
    ensures { StatedProofsAreSound }
{}

/// A stated proof uses what its derivation cites, and has gaps where that has.
pub fn stated_proofs_use_what_they_mean()
    ensures { StatedProofsUseWhatTheyMean }
{}

/// The weight that bounds a body is the one that a text's limits count.
pub fn weights_are_the_texts()
    ensures { WeightsAreTheTexts }
{}
