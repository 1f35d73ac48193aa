// Laws on the definitions: the contract of each function is one, and its body is empty.
ghost use Rattle.mz_machine_theory.specs.Lists.{StepsOfLists};
ghost use Rattle.mz_machine_theory.specs.Laws.{BodiesAreChecked, BoundNeverEnds, CountsAreWhole, NothingAtFirst, OneOutcome, SortsGrow, StepsBounded, StrictRunsWithGaps, TermsGrow, ThmsGrow};
ghost use Rattle.mz_machine_theory.specs.Profile.{plain};
ghost use Rattle.std.specs.Prelude.{Bool};

/// A body runs to its END, or stops at one place by one rule.
pub fn one_outcome()
    ensures { (gaps : Bool) → OneOutcome (plain gaps) }
{}

/// A body as ordered checks: all hold where it runs, and else the first that fails is its rule at its
/// place.
pub fn bodies_are_checked()
    ensures { (gaps : Bool) → BodiesAreChecked (plain gaps) }
{}

/// The bound that makes a run a function never ends it, nor the count of its steps: each command takes
/// a byte.
pub fn bound_never_ends()
    ensures runs { (gaps : Bool) → BoundNeverEnds (plain gaps) }
    ensures steps { (gaps : Bool) → CountsAreWhole (plain gaps) }
{}

/// A body executes at most its own commands, and for each at most one unify command a byte of a
/// stream; so a file of n bytes at most n * n + n.
pub fn steps_bounded()
    ensures bodies { (gaps : Bool) → StepsBounded (plain gaps) }
    ensures lists { StepsOfLists }
{}

/// The rows so far declare the environment so far, row by row.
pub fn tables_grow()
    ensures nothing_at_first { NothingAtFirst }
    ensures sorts { SortsGrow }
    ensures terms { TermsGrow }
    ensures assertions { ThmsGrow }
{}

/// A body that runs by the standard machine runs where gaps are let through.
pub fn strict_runs_with_gaps()
    ensures { StrictRunsWithGaps }
{}
