// What holds of every table that the calls make. These functions do nothing: a caller learns their clauses.
ghost use Rattle.mz_math_theory.specs.Laws.{CoercionsAreJudged, CoercionsKeepTables, DelimitersAreJudged, DelimitersKeepTables, EmptyIsTable, GeneralsAreJudged, InfixesAreJudged, NamesKeepTables, NotationsKeepTables, OneMeaning, OneMisreading, OneReading, OneTokens, OneTree, PrefixesAreJudged, SomeReading, VariablesStay};

/// The empty table is one that the calls make, and each statement that breaks no rule makes another.
pub fn statements_keep_tables()
    ensures empty { EmptyIsTable }
    ensures notations { NotationsKeepTables }
    ensures coercions { CoercionsKeepTables }
    ensures delimiters { DelimitersKeepTables }
    ensures names { NamesKeepTables }
    ensures variables { VariablesStay }
{}

/// Over such a table a list of tokens has at most one tree: no constant has two precedences, no two
/// notations have one leading or one infix constant, the infix forms of a precedence group alike,
/// none is at max, no constant is a parenthesis, and a name is a variable's or a term's alone.
pub fn each_token_list_has_one_tree()
    ensures { OneTree }
{}

/// A string has one list of tokens, stands for one expression at most, breaks one rule first at
/// most, and never both.
pub fn each_string_has_one_meaning()
    ensures tokens { OneTokens }
    ensures meaning { OneMeaning }
    ensures misreading { OneMisreading }
    ensures not_both { OneReading }
{}

/// And each string, over such a table and such variables, stands for an expression or breaks a rule
/// first.
pub fn each_string_is_read_or_refused()
    ensures { SomeReading }
{}

/// A statement on delimiters, on coercions or on notations breaks no rule, or one of them first.
pub fn statements_are_judged()
    ensures delimiters { DelimitersAreJudged }
    ensures coercions { CoercionsAreJudged }
    ensures infixes { InfixesAreJudged }
    ensures prefixes { PrefixesAreJudged }
    ensures generals { GeneralsAreJudged }
{}
