// What holds of all lexemes. Each function does nothing; its contract is the law.
ghost use Rattle.mz_spec_theory.specs.GrammarLaws.{FaultOrBlank, NotBoth, NoneEmpty, OneFault, OneFront, OneOfAll, OneRead, OneStatement, OneStop, ReadOrBlank, ReadOrFault, TakesBytes};

/// Lexemes spell one statement at most, none begins another one, and none is empty.
pub fn statements_are_one()
    ensures one { OneStatement }
    ensures front { OneFront }
    ensures none_empty { NoneEmpty }
{}

/// Lexemes begin with a statement, or stop with one fault, and never both.
pub fn stops_are_one()
    ensures one { OneStop }
    ensures not_both { NotBoth }
    ensures one_of_all { OneOfAll }
{}

/// From each place of a text one statement stands, or the lexemes stop with one fault, or nothing
/// stands; never two of these.
pub fn answers_are_one()
    ensures read { OneRead }
    ensures fault { OneFault }
    ensures read_or_fault { ReadOrFault }
    ensures read_or_blank { ReadOrBlank }
    ensures fault_or_blank { FaultOrBlank }
{}

/// A statement takes a byte for each of its signs at least.
pub fn statements_take_bytes()
    ensures { TakesBytes }
{}
