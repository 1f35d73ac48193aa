// Laws of drafts.
ghost use Rattle.mz_binary_theory.specs.DraftLaws.{DraftsAreLegallyDeclared, FinishedDraftsAreGood};

/// A draft none of whose theorems is gapped is finished, and every finished file is such a draft.
pub fn finished_drafts_are_good()
    ensures { FinishedDraftsAreGood }
{}

/// A legal draft is a list whose declarations are legal and whose local statements may be local: no
/// more.
pub fn drafts_are_legally_declared()
    ensures { DraftsAreLegallyDeclared }
{}
