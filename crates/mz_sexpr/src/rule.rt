use std::fmt;

/// The rules of a proof text.
#[derive(Clone, Copy, Debug, PartialEq, Eq)]
pub enum U {
    /// A byte isn't allowed.
    Character,
    /// A `)` without its `(`, or the end of the text with one unclosed.
    Parenthesis,
    /// A node isn't of the form that its place asks for.
    Form,
    /// A name is taken.
    NameTwice,
    /// A name is unknown.
    UnknownName,
    /// A wrong number of operands, subproofs or variables.
    Arity,
    /// An operand or a body has another sort.
    Sort,
    /// An operand for a bound parameter is no bound variable.
    Bound,
    /// Operands aren't disjoint.
    Disjoint,
    /// A subproof doesn't prove its hypothesis.
    Hypothesis,
    /// The proof doesn't prove the conclusion.
    Conclusion,
    /// The sides of a conversion differ.
    Conversion,
    /// A declaration isn't legal.
    Declaration,
    /// A dummy's sort is strict or free.
    DummySort,
    /// A proof is left open.
    Sorry,
    /// More than 4,096 parentheses would be unclosed.
    Depth,
}

/// Which rule a text fails first, and where.
#[derive(Clone, Copy, Debug, PartialEq, Eq)]
pub struct TextRefusal {
    /// The number of the statement, from 1.
    pub statement: u32,
    /// The place in the text, in bytes from 0.
    pub at: u32,
    /// The rule that fails there.
    pub rule: U,
}

impl fmt::Display for U {
    ghost use Rattle.std.specs.Prelude.{Some};
    ghost use Rattle.mz_sexpr.specs.RuleText.{rule_text};

    ghost output = { λ rule. Some (rule_text rule) };

    fn fmt<W: fmt::Write>(&self, f: &mut fmt::Formatter<W>) -> fmt::Result {
        let text = match self {
            U::Character => "U1 character",
            U::Parenthesis => "U2 parenthesis",
            U::Form => "U3 form",
            U::NameTwice => "U4 name twice",
            U::UnknownName => "U5 unknown name",
            U::Arity => "U6 arity",
            U::Sort => "U7 sort",
            U::Bound => "U8 bound",
            U::Disjoint => "U9 disjoint",
            U::Hypothesis => "U10 hypothesis differs",
            U::Conclusion => "U11 conclusion differs",
            U::Conversion => "U12 conversion differs",
            U::Declaration => "U13 declaration",
            U::DummySort => "U14 dummy sort",
            U::Sorry => "U15 sorry",
            U::Depth => "U16 depth",
        };
        write!(f, "{text}")
    }
}
