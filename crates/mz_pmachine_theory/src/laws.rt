// Laws on the definitions: the contract of each function is one, and its body is empty.
ghost use Rattle.mz_pmachine_theory.specs.Laws.{AssertionsRunToo, BodiesRunStrict, EndsRunToo, EqualIsSame, NumberedRowsRun, NumberedStreamsRun, RowsRunStrict, RowsRunToo, SharedBodiesRun, StandardIsByIdentity, StreamsRunStrict, WholeStreamsRunToo};
ghost use Rattle.mz_pmachine_theory.specs.NodeIdentity.{portable};
ghost use Rattle.mz_pmachine_theory.specs.FilesByIdentity.{portable_standard};
ghost use Rattle.mz_binary_theory.specs.WholeLaws.{StepsAreFew};
ghost use Rattle.mz_machine_theory.specs.Laws.{BodiesAreChecked, BoundNeverEnds, CountsAreWhole, OneOutcome, StepsBounded};

/// What runs by identity runs by the standard machine: bodies, and of them each row and each stream.
pub fn portable_runs_are_strict_runs()
    ensures bodies { BodiesRunStrict }
    ensures rows { RowsRunStrict }
    ensures streams { StreamsRunStrict }
{}

/// A body that meets all that is asked beside equal numbers runs by identity, if no application is made by
/// two commands; and so do rows and streams over expressions whose numbers are the places where they
/// were made.
pub fn shared_bodies_run_by_identity()
    ensures bodies { SharedBodiesRun }
    ensures rows { NumberedRowsRun }
    ensures streams { NumberedStreamsRun }
{}

/// Beside equal numbers, and that ConvRef stands in no body, something is asked of Unfold and of
/// definitions alone: what else runs by the standard machine runs so too; and the stream of a definition
/// does if what it saves has its dummies met before.
pub fn asked_of_unfoldings_alone()
    ensures streams { AssertionsRunToo }
    ensures rows { RowsRunToo }
    ensures ends { EndsRunToo }
    ensures definitions { WholeStreamsRunToo }
{}

/// The test of equality holds exactly of an expression and itself: numbers, terms and operands.
pub fn equal_is_same()
    ensures { EqualIsSame }
{}

/// A body runs by identity to its END, or stops at one place by one rule.
pub fn one_outcome()
    ensures { OneOutcome portable }
{}

/// A body as ordered checks: all hold where it runs by identity, and else the first that fails is its
/// rule at its place.
pub fn bodies_are_checked()
    ensures { BodiesAreChecked portable }
{}

/// The bound that makes a run a function never ends it, nor the count of its steps.
pub fn bound_never_ends()
    ensures runs { BoundNeverEnds portable }
    ensures steps { CountsAreWhole portable }
{}

/// A body executes at most its own commands, and for each at most one unify command a byte of a
/// stream.
pub fn steps_bounded()
    ensures bounded { StepsBounded portable }
    ensures few { StepsAreFew portable_standard }
{}

/// By the standard by identity the run of a body comes to what it comes to on the machine by identity: the
/// standard machine stops none of what is let through.
pub fn standard_is_by_identity()
    ensures { StandardIsByIdentity }
{}
