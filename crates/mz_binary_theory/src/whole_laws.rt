// Laws of whole files, of all kinds of statements.
ghost use Rattle.mz_base.specs.declared.mode.Mode.{Mode};
ghost use Rattle.mz_binary_theory.specs.Standards.{published};
ghost use Rattle.mz_binary_theory.specs.WholeLaws.{BoundNeverEndsAList, GoodFilesAreClosed, GoodFilesAreGoodByTable, GoodFilesAreLegal, GoodFilesSpell, GoodOrFault, NotBoth, OneFault, OneListOfStatements, RunsAreExact, StepsAreFew, StepsOfAFile, TheoremsCiteAsTheirBodies, UngappedAreFree};

/// What is good by any standard is good by the standard machine. The statements of a good file are a legal
/// list, with derivations from axioms alone; and a theorem's derivation cites what its body cites.
pub fn whole_files_are_legal()
    ensures by_table { GoodFilesAreGoodByTable }
    ensures legal { GoodFilesAreLegal }
    ensures closed { GoodFilesAreClosed }
    ensures citations { TheoremsCiteAsTheirBodies }
{}

/// A file spells at most one list of statements, which is the list that it is good by.
pub fn whole_files_spell_one_list()
    ensures one { OneListOfStatements }
    ensures good { GoodFilesSpell }
{}

/// Each file is good, or has exactly one first fault; and so it is computed.
pub fn whole_files_have_one_outcome()
    ensures either { GoodOrFault }
    ensures not_both { NotBoth }
    ensures one_fault { OneFault }
    ensures computed { RunsAreExact }
{}

/// The commands executed in a whole file are bounded, and no bound of the definition ends the list.
pub fn steps_of_files_are_bounded()
    ensures few { (mode : Mode) → StepsAreFew (published mode) }
    ensures steps { StepsOfAFile }
    ensures bound { BoundNeverEndsAList }
{}

/// A theorem of a good file that isn't gapped has a derivation without gaps that cites no gapped
/// theorem.
pub fn ungapped_theorems_are_free()
    ensures { UngappedAreFree }
{}
