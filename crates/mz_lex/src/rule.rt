// The rules that a specification obeys.
use std::fmt;

/// The rules of a specification, by the number that is printed; `Display` gives the message.
#[derive(Clone, Copy, Debug, PartialEq, Eq)]
pub enum S {
    /// A byte may not stand in a text.
    Character = 1,
    /// A byte begins no lexeme, or a math string has no end.
    Token = 2,
    /// A lexeme doesn't fit the grammar, or the text ends within a statement.
    Statement = 3,
    /// A name is taken already.
    NameTwice = 4,
    /// A sort, a term or a dependency has an unknown name.
    UnknownName = 5,
    /// A bound variable has dependencies or a strict sort, or a dependency is no bound parameter before it.
    Binder = 6,
    /// A term's result sort is pure.
    Pure = 7,
    /// A formula's sort reaches no provable sort, or several.
    NotProvable = 8,
    /// A token of a math string is unknown.
    MathToken = 9,
    /// A math string has no tree.
    MathSyntax = 10,
    /// An operand or a body can't be wrapped to its sort.
    NoCoercion = 11,
    /// Two notations can't stand beside one another.
    NotationClash = 12,
    /// A notation, a coercion or a delimiter isn't of its form.
    NotationForm = 13,
    /// There is a second path of coercions, or a cycle.
    CoercionClash = 14,
    /// A precedence is too large.
    Number = 15,
    /// The statement begins with `input` or `output`, which this program leaves out.
    LeftOut = 16,
    /// A math string has too many tokens, or its tree is too high.
    Depth = 17,
    /// A free variable of a definition's body is no dependency of its result.
    DefinitionDependencies = 18,
    /// A dummy's sort is strict or free.
    DummySort = 19,
}

impl fmt::Display for S {
    ghost use Rattle.std.specs.Prelude.{Some};
    ghost use Rattle.mz_lex.specs.RuleText.{rule_text};

    ghost output = { λ rule. Some (rule_text rule) };

    fn fmt<W: fmt::Write>(&self, f: &mut fmt::Formatter<W>) -> fmt::Result {
        let text = match self {
            S::Character => "S1 character",
            S::Token => "S2 token",
            S::Statement => "S3 statement",
            S::NameTwice => "S4 name twice",
            S::UnknownName => "S5 unknown name",
            S::Binder => "S6 binder",
            S::Pure => "S7 pure",
            S::NotProvable => "S8 not provable",
            S::MathToken => "S9 math token",
            S::MathSyntax => "S10 math syntax",
            S::NoCoercion => "S11 no coercion",
            S::NotationClash => "S12 notation clash",
            S::NotationForm => "S13 notation form",
            S::CoercionClash => "S14 coercion clash",
            S::Number => "S15 number",
            S::LeftOut => "S16 left out",
            S::Depth => "S17 depth",
            S::DefinitionDependencies => "S18 definition dependencies",
            S::DummySort => "S19 dummy sort",
        };
        write!(f, "{text}")
    }
}
