// Worked files, computed.
ghost use Rattle.mz_binary_theory.specs.WholeExamples.{AcceptedFiles, BodiesChanged, CutFiles, Gaps, HeadersChanged, RowsChanged, StepsOfFiles};

/// Files whose verdict is known from outside: accepted, or the statement, the place and the rule of the
/// first fault; and how many commands are executed.
pub fn worked_files()
    ensures accepted { AcceptedFiles }
    ensures cut { CutFiles }
    ensures headers { HeadersChanged }
    ensures rows { RowsChanged }
    ensures bodies { BodiesChanged }
    ensures gaps { Gaps }
    ensures steps { StepsOfFiles }
{}
