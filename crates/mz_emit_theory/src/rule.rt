// The codes of the limits.
use std::fmt;

/// What a well-typed text may have too many of, in the order in which they are tried; `Display`
/// gives the printed message.
#[derive(Clone, Copy, Debug, PartialEq, Eq)]
pub enum L {
    /// More than 128 sorts.
    Sorts,
    /// More than 65,535 parameters of a statement.
    Parameters,
    /// More than 55 bound variables of a statement, dummies included.
    BoundVariables,
    /// More than 4,294,967,295 bytes of the file, by the bound that the text's weight gives.
    Bytes,
}

impl fmt::Display for L {
    ghost use Rattle.std.specs.Prelude.{Some};
    ghost use Rattle.mz_emit_theory.specs.Lines.{limit_text};

    ghost output = { λ rule. Some (limit_text rule) };

    fn fmt<W: fmt::Write>(&self, f: &mut fmt::Formatter<W>) -> fmt::Result {
        f.write_str(match self {
            L::Sorts => "L1 sorts",
            L::Parameters => "L2 parameters",
            L::BoundVariables => "L3 bound variables",
            L::Bytes => "L5 bytes",
        })
    }
}
