// Laws on the definitions: the contract of each function is one, and its body is empty.
ghost use Rattle.std.specs.Prelude.{Bool};
ghost use Rattle.mz_emit_theory.specs.BodyLaws.{BodiesRunAsCommands, RightBodiesRun, RightEndsEnd, RightStepsRun};
ghost use Rattle.mz_emit_theory.specs.BodyMonotonicity.{ContextsDependOnParams, SameAtFirst, SameWithAssertion, SameWithSort, SameWithTerm, StepsJoin, StepsKeepTheHeap};
ghost use Rattle.mz_emit_theory.specs.AlphaLists.{SameListsAreSameEnvs};
ghost use Rattle.mz_emit_theory.specs.Completeness.{LegalAxiomsHaveSteps, LegalDefinitionsHaveSteps, LegalTheoremsHaveSteps, LegalTheoremsRun};
ghost use Rattle.mz_machine_theory.specs.Profile.{plain};

/// Right steps run: the machine goes from what they begin with to what they make.
pub fn right_steps_run()
    ensures { (gaps : Bool) → RightStepsRun gaps }
{}

/// Where the steps of a body have made what its row spells, its END is good.
pub fn right_ends_end()
    ensures { (gaps : Bool) → RightEndsEnd gaps }
{}

/// A body whose steps make what its row spells runs, in its bytes.
pub fn right_bodies_run()
    ensures commands { (gaps : Bool) → BodiesRunAsCommands (plain gaps) }
    ensures bodies { (gaps : Bool) → RightBodiesRun gaps }
{}

/// Steps one after another are steps, and what is in the heap stays there.
pub fn steps_join()
    ensures join { StepsJoin }
    ensures heap { StepsKeepTheHeap }
{}

/// What the laws ask of contexts and environments holds at first and from statement to statement.
pub fn statements_grow()
    ensures contexts { ContextsDependOnParams }
    ensures at_first { SameAtFirst }
    ensures sorts { SameWithSort }
    ensures terms { SameWithTerm }
    ensures assertions { SameWithAssertion }
    ensures lists { SameListsAreSameEnvs }
{}

/// The steps suffice: every legal axiom, theorem and definition has some that make what it says.
pub fn legal_statements_have_steps()
    ensures axioms { LegalAxiomsHaveSteps }
    ensures theorems { LegalTheoremsHaveSteps }
    ensures definitions { LegalDefinitionsHaveSteps }
    ensures run { LegalTheoremsRun }
{}
