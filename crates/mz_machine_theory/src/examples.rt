// Worked bodies, computed.
ghost use Rattle.mz_machine_theory.specs.Examples.{AllVariables, CitesItself, ConversionSaved, CutOrLong, Dependency, Dummies, FiftyFive, Folding, Gap, GapsOfDrafts, HypothesesLastFirst, Implications, ObligationLeft, OfAnotherBody, OfAnotherRow};
ghost use Rattle.mz_machine_theory.specs.WorkedRuns.{CodesChanged, Counts, CountsToFault, LongEnd, Run, StreamsChanged};

/// Bodies whose outcome is known from outside: the verdict, and where a rule fails its place.
pub fn worked_bodies()
    ensures implications { Implications }
    ensures hypotheses_last_first { HypothesesLastFirst }
    ensures cites_itself { CitesItself }
    ensures dependency { Dependency }
    ensures all_variables { AllVariables }
    ensures folding { Folding }
    ensures obligation_left { ObligationLeft }
    ensures conversion_saved { ConversionSaved }
    ensures dummies { Dummies }
    ensures fifty_five { FiftyFive }
    ensures gap { Gap }
    ensures gaps_of_drafts { GapsOfDrafts }
    ensures of_another_body { OfAnotherBody }
    ensures of_another_row { OfAnotherRow }
    ensures cut_or_long { CutOrLong }
{}

/// How many commands worked bodies execute.
pub fn counted_steps()
    ensures whole { Counts }
    ensures to_fault { CountsToFault }
{}

/// Worked bodies with one byte changed: the rule that fails, and its place.
pub fn changed_bodies()
    ensures unchanged { Run }
    ensures codes { CodesChanged }
    ensures streams { StreamsChanged }
    ensures long_end { LongEnd }
{}
