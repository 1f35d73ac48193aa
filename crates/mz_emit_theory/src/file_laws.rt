// Laws on the definitions: the contract of each function is one, and its body is empty.
ghost use Rattle.mz_emit_theory.specs.Example.{DraftIsWritten, ExampleIsWritten};
ghost use Rattle.mz_emit_theory.specs.Gaps.{BodiesAreWritten, BodiesSayTheirGaps, BodiesSayWhatIsGapped, FinishedIsDraft, OnlyDraftsAreGapped, OnlyDraftsLeaveGaps};
ghost use Rattle.mz_emit_theory.specs.FileGrowing.{AppendedIsNext, NothingIsWritten, RowsAreCounted, WritingGrows};
ghost use Rattle.mz_emit_theory.specs.FileLaws.{WrittenFilesAreGood, WrittenFilesSpell, WrittenListsAreLegal, WrittenListsAreSame};
ghost use Rattle.mz_emit_theory.specs.WordsSay.{WordsSayParams, WordsSaySignatures};

/// A legal text that is written within the format's bounds is a good binary of the statements that were made of it:
/// these are all that the file spells, they are legal, and they are the text's but for the dummies of bodies.
pub fn written_files_are_good()
    ensures good { WrittenFilesAreGood }
    ensures spelled { WrittenFilesSpell }
    ensures legal { WrittenListsAreLegal }
    ensures same { WrittenListsAreSame }
{}

/// A body leaves a gap where a Sorry is among its commands, as only a theorem's may in a draft, and cites an assertion
/// where a Thm or ThmSave names it.
pub fn bodies_say_their_gaps()
    ensures gaps { BodiesSayTheirGaps }
    ensures only { OnlyDraftsLeaveGaps }
{}

/// The bodies of a file's axioms and theorems are those that were written, and say which theorems are gapped: of a
/// finished text none.
pub fn bodies_are_written()
    ensures bodies { BodiesAreWritten }
    ensures gapped { BodiesSayWhatIsGapped }
    ensures only { OnlyDraftsAreGapped }
{}

/// What is written of a finished text is written of a draft, too.
pub fn finished_is_draft()
    ensures { FinishedIsDraft }
{}

/// What is written grows statement by statement.
pub fn writing_grows()
    ensures nothing { NothingIsWritten }
    ensures more { WritingGrows }
    ensures counted { RowsAreCounted }
    ensures next { AppendedIsNext }
{}

/// A small text of one statement of each kind, which is legal and within the bounds, is written; and so it is as a
/// draft, with a gap in its theorem.
pub fn example_is_written()
    ensures finished { ExampleIsWritten }
    ensures draft { DraftIsWritten }
{}

/// The words that are written for right parameters and results say them.
pub fn words_say_what_is_written()
    ensures parameters { WordsSayParams }
    ensures signatures { WordsSaySignatures }
{}
