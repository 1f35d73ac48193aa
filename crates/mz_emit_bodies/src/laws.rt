//! Laws on the definitions: the contract of each function is one, and its body is empty.
ghost use Rattle.mz_emit_bodies.specs.GapLaws.{EachUsedGapHasItsSorry};
ghost use Rattle.mz_emit_bodies.specs.Laws.{AxiomsAreWritten, DefinitionsAreWritten, TheoremsAreWritten};
ghost use Rattle.mz_emit_bodies.specs.WrittenLaws.{AxiomsAreShort, AxiomsTakeFourBytes, DefinitionsAreShort, DefinitionsTakeFourBytes, TheoremBodiesUse, TheoremsAreShort, TheoremsTakeFourBytes, TheoremsUseWhatProofsUse};

/// What is written for a definition's expression, an axiom, or a sound proof is a body of it, which
/// builds no application twice.
pub fn bodies_are_written()
    ensures definitions { DefinitionsAreWritten }
    ensures axioms { AxiomsAreWritten }
    ensures theorems { TheoremsAreWritten }
{}

/// A theorem's body uses just what its proof uses, whatever the proof is.
pub fn bodies_use_what_proofs_use()
    ensures commands { TheoremsUseWhatProofsUse }
    ensures bodies { TheoremBodiesUse }
{}

/// A theorem's body has a Sorry for each gap that its proof uses, and no other.
pub fn sorries_stand_for_gaps()
    ensures { EachUsedGapHasItsSorry }
{}

/// A body has at most six bytes for each node of what it makes and for each unit of its proof's weight, and one more.
pub fn bodies_are_short()
    ensures definitions { DefinitionsAreShort }
    ensures axioms { AxiomsAreShort }
    ensures theorems { TheoremsAreShort }
{}

/// No operand takes more than four bytes, where the text isn't too heavy.
pub fn operands_take_four_bytes()
    ensures definitions { DefinitionsTakeFourBytes }
    ensures axioms { AxiomsTakeFourBytes }
    ensures theorems { TheoremsTakeFourBytes }
{}
