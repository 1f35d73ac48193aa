// Laws on the definitions: the contract of each function is one, and its body is empty.
ghost use Rattle.mz_emit_theory.specs.AcceptedLaws.{SameFormsHaveSameBodies, SameListsAgree, SpelledListsAgree, WrittenFilesAreAccepted};

/// What agrees with the public statements of a list agrees with those of one that is the same but for the dummies of
/// bodies, as the list that a compiled file spells.
pub fn same_lists_agree()
    ensures bodies { SameFormsHaveSameBodies }
    ensures agree { SameListsAgree }
    ensures spelled { SpelledListsAgree }
{}

/// A legal text that is written within the format's bounds is accepted against each specification with which its public
/// statements agree.
pub fn written_files_are_accepted()
    ensures { WrittenFilesAreAccepted }
{}
