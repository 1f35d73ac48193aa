// What holds of every text. Each function does nothing; its contract is the law.
ghost use Rattle.mz_spec_theory.specs.Laws.{DeclaresLegally, NotBoth, OneFault, OneOfBoth, OneReading};

/// Each text is a specification in one way, or has one first fault, and never both.
pub fn readings_are_one()
    ensures reading { OneReading }
    ensures fault { OneFault }
    ensures not_both { NotBoth }
    ensures one_of_both { OneOfBoth }
{}

/// The declarations of a specification are a legal environment.
pub fn specifications_are_legal()
    ensures { DeclaresLegally }
{}
