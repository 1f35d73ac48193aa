// The rules of a listing.
use std::fmt;

/// What each line of a listing obeys, in the order in which it is asked; `Display` gives the printed
/// message.
#[derive(Clone, Copy, Debug, PartialEq, Eq)]
pub enum A {
    /// The line isn't the next line of a listing, or the text ends before its listing does.
    Form,
    /// A number is too large.
    Range,
    /// The row isn't the next one of its table.
    Row,
}

impl fmt::Display for A {
    ghost use Rattle.std.specs.Prelude.{Some};
    ghost use Rattle.mz_asm.specs.Spoken.{rule_text};

    ghost output = { λ rule. Some (rule_text rule) };

    fn fmt<W: fmt::Write>(&self, f: &mut fmt::Formatter<W>) -> fmt::Result {
        f.write_str(match self {
            A::Form => "A1 form",
            A::Range => "A2 range",
            A::Row => "A3 row",
        })
    }
}
