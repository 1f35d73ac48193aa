// The rules of the match.
use std::fmt;

/// The rules between a declaration and its partner, by the number that is printed; `Display` gives
/// the printed message.
#[derive(Clone, Copy, Debug, PartialEq, Eq)]
pub enum M {
    /// A declaration has no public statement.
    Missing = 1,
    /// A public statement has no declaration.
    Extra = 2,
    /// One is a sort, a term, a definition, an axiom or a theorem, and the other isn't.
    Kind = 3,
    /// The sorts' modifiers differ.
    Modifiers = 4,
    /// The parameters differ in number, sort, binding or dependencies.
    Binders = 5,
    /// The results differ.
    Result = 6,
    /// The hypotheses differ.
    Hypotheses = 7,
    /// The conclusions differ.
    Conclusion = 8,
    /// The definitions' bodies differ.
    Body = 9,
}

impl fmt::Display for M {
    ghost use Rattle.std.specs.Prelude.{Some};
    ghost use Rattle.mz_spec_proved_theory.specs.RuleText.{rule_text};

    ghost output = { λ rule. Some (rule_text rule) };

    fn fmt<W: fmt::Write>(&self, f: &mut fmt::Formatter<W>) -> fmt::Result {
        f.write_str(match self {
            M::Missing => "M1 missing public",
            M::Extra => "M2 extra public",
            M::Kind => "M3 kind differs",
            M::Modifiers => "M4 modifiers",
            M::Binders => "M5 binders",
            M::Result => "M6 result",
            M::Hypotheses => "M7 hypotheses",
            M::Conclusion => "M8 conclusion",
            M::Body => "M9 body",
        })
    }
}
