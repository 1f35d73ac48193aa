// Laws on the definitions: the contract of each function is one, and its body is empty.
ghost use Rattle.mz_prefix.specs.PrintLaws.{LinesLex, LinesSpellStatements, PrefixFormsAreMeant, PrefixFormsAreRead, TokensAreMathTokens, WordsAreLexemes};

/// Tokens that are written one after the other are the lexemes of their text, and so are those of lines.
pub fn words_are_lexemes()
    ensures words { WordsAreLexemes }
    ensures lines { LinesLex }
{}

/// The tokens of a line are the signs of its statement.
pub fn lines_spell_statements()
    ensures { LinesSpellStatements }
{}

/// The math tokens of a math string that is written are those that are read.
pub fn tokens_are_math_tokens()
    ensures { TokensAreMathTokens }
{}

/// An expression in prefix form is read as it stands, and its math string means it.
pub fn prefix_forms_are_read()
    ensures read { PrefixFormsAreRead }
    ensures meant { PrefixFormsAreMeant }
{}
