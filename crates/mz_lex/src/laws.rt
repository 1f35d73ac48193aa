// What holds of the lexemes of every text. These functions do nothing: a caller learns their clauses.
ghost use Rattle.mz_lex.specs.Laws.{AlwaysALexing, AlwaysANext, AtMostOneLexeme, AtMostOneLexing, AtMostOneNext, Begun, Comparable, Completed, Ended, HasInside, InsideStands, OneMore, Parted, SpansInOrder};

/// From each place exactly one of these comes next: one lexeme, the end of the text, a byte that
/// may not stand there, or one that begins no lexeme.
pub fn next_is_one()
    ensures at_most_one { AtMostOneNext }
    ensures at_least_one { AlwaysANext }
    ensures one_lexeme { AtMostOneLexeme }
{}

/// A lexeme stands behind the place from which it is the next, within the text.
pub fn spans_are_in_order()
    ensures { SpansInOrder }
{}

/// Each text has exactly one list of lexemes, which ends with the text or by one fault.
pub fn lexemes_are_one()
    ensures at_most_one { AtMostOneLexing }
    ensures at_least_one { AlwaysALexing }
{}

/// How lexemes read one after the other become all lexemes of a text, and how these part.
pub fn first_lexemes()
    ensures one_more { OneMore }
    ensures ended { Ended }
    ensures completed { Completed }
    ensures begun { Begun }
    ensures parted { Parted }
    ensures comparable { Comparable }
{}

/// A math string is its two `$` and what stands between them.
pub fn math_strings_have_an_inside()
    ensures bytes { HasInside }
    ensures in_text { InsideStands }
{}
