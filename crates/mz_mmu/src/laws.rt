//! What follows from the definitions. Each function does nothing; its contract is the law.
ghost use Rattle.std.specs.Prelude.{ℕ, Bool, List};
ghost use Rattle.mz_sexpr.specs.Node.{Nodes};
ghost use Rattle.mz_mmu_theory.specs.Name.{Names};
ghost use Rattle.mz_mmu_theory.specs.ReadingLaws.{AreOneList, AreWhole, HasOneReading, IsReadOrRefused, IsReadOrRefusedOnce, OnlyDraftsHaveGaps};

/// A text that is read isn't refused, and no text is refused in two ways.
pub fn read_or_refused_once()
    ensures { (gaps : Bool) (text : List ℕ) → IsReadOrRefusedOnce gaps text }
{}

/// A text has at most one list of nodes and one list of statements; over given names, nodes are at
/// most one list of statements.
pub fn one_reading()
    ensures texts { (gaps : Bool) (text : List ℕ) → HasOneReading gaps text }
    ensures nodes { (names : Names) (ns : Nodes) → AreOneList names ns }
{}

/// A text has either statements or exactly one refusal.
pub fn read_or_refused()
    ensures { (gaps : Bool) (text : List ℕ) → IsReadOrRefused gaps text }
{}

/// In each statement that nodes are, dependencies stand in ascending order, each once; a theorem has
/// a proof, and nothing else has one; only definitions and theorems are local.
pub fn statements_are_whole()
    ensures { (names : Names) (ns : Nodes) → AreWhole names ns }
{}

/// A gap stands in a statement's proof only where proofs may have gaps: none in a text that is read as
/// a finished one.
pub fn only_drafts_have_gaps()
    ensures { (names : Names) (ns : Nodes) → OnlyDraftsHaveGaps names ns }
{}
