// Worked bodies by identity, computed.
ghost use Rattle.mz_pmachine_theory.specs.FilesByIdentity.{ByIdentity};
ghost use Rattle.mz_pmachine_theory.specs.Examples.{AskedOfTrees, ConversionsByRef, DummyInSaved, EqualTrees, MadeIn, Shared, ThreeItems};

/// Bodies that are accepted: they refer back to what they made.
pub fn shared_bodies()
    ensures { Shared }
{}

/// Bodies that run by the standard machine and not by identity: the rule that fails, and its place.
pub fn kept_disjoint()
    ensures equal_trees { EqualTrees }
    ensures dummy_in_saved { DummyInSaved }
    ensures three_items { ThreeItems }
    ensures conversions_by_ref { ConversionsByRef }
{}

/// Whole files: the first fault of some that the standard machine lets through, and others that are good.
pub fn whole_files()
    ensures { ByIdentity }
{}

/// What is asked beside equal numbers, and what worked bodies make.
pub fn over_trees()
    ensures asked { AskedOfTrees }
    ensures made { MadeIn }
{}
