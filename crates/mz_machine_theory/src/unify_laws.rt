// Laws on the definitions: the contract of each function is one, and its body is empty.
ghost use Rattle.std.specs.Prelude.{Bool};
ghost use Rattle.mz_machine_theory.specs.UnifyLaws.{AssertionsAreSpelled, BoundNeverEnds, CitationsAreExact, CitedStreamsSpell, CountsAreWhole, DefinitionsAreSpelled, GapsDontMatter, LongerSpellTerms, LongerSpellThms, OneAssertion, OneStepAByte, OneTerm, OnlyWhatWasMet, UnfoldedStreamsSpell, UnfoldingsAreExact};
ghost use Rattle.mz_machine_theory.specs.Profile.{plain};

/// A row spells at most one thing.
pub fn one_spelling()
    ensures assertions { OneAssertion }
    ensures terms { OneTerm }
{}

/// Over more terms a row spells what it did.
pub fn longer_spell_the_same()
    ensures assertions { LongerSpellThms }
    ensures terms { LongerSpellTerms }
{}

/// What is spelled has only the parameters and the dummies that were met.
pub fn only_what_was_met()
    ensures { OnlyWhatWasMet }
{}

/// The bound that makes a run a function never ends it, nor the count of its steps: each command takes
/// a byte.
pub fn stream_bound_never_ends()
    ensures runs { (gaps : Bool) → BoundNeverEnds (plain gaps) }
    ensures steps { (gaps : Bool) → CountsAreWhole (plain gaps) }
{}

/// A stream executes at most one command a byte.
pub fn one_step_a_byte()
    ensures { (gaps : Bool) → OneStepAByte (plain gaps) }
{}

/// A stream runs the same whether gaps are let through or not.
pub fn gaps_dont_matter()
    ensures { GapsDontMatter }
{}

/// A stream runs exactly on the instances of what it spells, and its heap then holds the instances of
/// the marks, in order.
pub fn matches_are_exact()
    ensures citations { CitationsAreExact }
    ensures unfoldings { UnfoldingsAreExact }
{}

/// A stream that runs spells something, whatever the operands are.
pub fn streams_that_run_spell()
    ensures assertions { CitedStreamsSpell }
    ensures definitions { UnfoldedStreamsSpell }
{}

/// A stream runs against its own parameters exactly where it spells its target.
pub fn own_streams_are_spelled()
    ensures assertions { AssertionsAreSpelled }
    ensures definitions { DefinitionsAreSpelled }
{}
