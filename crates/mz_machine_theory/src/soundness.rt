// Soundness: what a body that runs makes of its row, and a list of such rows.
ghost use Rattle.mz_machine_theory.specs.Gapped.{UngappedAreProved};
ghost use Rattle.mz_machine_theory.specs.Lists.{GoodEntriesAreLegal, OneListOfStatements};
ghost use Rattle.mz_machine_theory.specs.Sound.{AxiomsAreLegal, DefinitionsAreLegal, RowsKeepTheFact, TheoremsAreProved};

/// Each row of the machine keeps the fact that makes it sound.
pub fn rows_keep_the_fact()
    ensures { RowsKeepTheFact }
{}

/// An axiom whose body runs is legal, as its row spells it.
pub fn axioms_are_legal()
    ensures { AxiomsAreLegal }
{}

/// A definition whose body runs is legal, as its row spells it.
pub fn definitions_are_legal()
    ensures { DefinitionsAreLegal }
{}

/// A theorem whose body runs is legal, as its row spells it, and has a derivation that cites only what
/// the body cites.
pub fn theorems_are_proved()
    ensures { TheoremsAreProved }
{}

/// A list of rows whose bodies run spells one list of statements, and it is legal.
pub fn good_entries_are_legal()
    ensures legal { GoodEntriesAreLegal }
    ensures one { OneListOfStatements }
{}

/// A theorem that isn't gapped, of a list of rows whose bodies run, has a derivation without gaps that
/// cites no gapped theorem.
pub fn ungapped_are_proved()
    ensures { UngappedAreProved }
{}
