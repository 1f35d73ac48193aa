// Laws on the definitions: the contract of each function is one, and its body is empty.
ghost use Rattle.mz_emit_theory.specs.StreamLaws.{AssertionsAreBounded, AssertionsAreShared, AssertionsAreShort, AssertionsAreWritten, BuildingSpells, DefinitionsAreBounded, DefinitionsAreShared, DefinitionsAreShort, DefinitionsAreWritten, OneBuilding, SpelledBodiesAreInside, SpelledBodiesAreSame, SpellingBuilds, ThirdIsReference};
ghost use Rattle.mz_emit_theory.specs.SpelledLists.{SpelledListsAreSame};
ghost use Rattle.mz_emit_theory.specs.WrittenRows.{AssertionRowsSpell, TermRowsSpell};

/// The bytes that are written for an assertion spell it, and those of a definition its body with the dummies
/// in the order in which they are met.
pub fn streams_spell()
    ensures assertions { AssertionsAreWritten }
    ensures definitions { DefinitionsAreWritten }
    ensures bodies { SpelledBodiesAreSame }
    ensures inside { SpelledBodiesAreInside }
{}

/// The streams that are written build no application twice once all its dummies are met.
pub fn streams_share()
    ensures assertions { AssertionsAreShared }
    ensures definitions { DefinitionsAreShared }
    ensures example { ThirdIsReference }
{}

/// What a stream that spells builds is a function of the stream.
pub fn streams_build()
    ensures building { BuildingSpells }
    ensures spelling { SpellingBuilds }
    ensures one { OneBuilding }
{}

/// Operands take four bytes, where tables and sorts are of the format's size and the text isn't too long; and
/// a stream has at most five bytes for each node.
pub fn streams_are_short()
    ensures assertions { AssertionsAreShort }
    ensures definitions { DefinitionsAreShort }
    ensures assertion_bytes { AssertionsAreBounded }
    ensures definition_bytes { DefinitionsAreBounded }
{}

/// A legal list and the one that its compiled file spells are the same.
pub fn spelled_lists_are_same()
    ensures { SpelledListsAreSame }
{}

/// Rows whose streams are written spell the statements of a legal list.
pub fn written_rows_spell()
    ensures assertions { AssertionRowsSpell }
    ensures terms { TermRowsSpell }
{}
