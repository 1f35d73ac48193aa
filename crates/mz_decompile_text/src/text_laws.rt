// Laws on the definitions: the contract of each function is one, and its body is empty.
ghost use Rattle.mz_decompile_text.specs.Laws.{LinesSpellPhrases, StatedTextsAreRead};

/// The lines of phrases are read as these phrases.
pub fn lines_spell_phrases()
    ensures { LinesSpellPhrases }
{}

/// The text of statements that can be phrased is a well-typed text of these statements.
pub fn stated_texts_are_read()
    ensures { StatedTextsAreRead }
{}
