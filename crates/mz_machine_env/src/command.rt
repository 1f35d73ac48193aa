//! Commands of a body that both machines have.

/// A command that makes an expression or a proof.
#[derive(Clone, Copy, Debug, PartialEq, Eq)]
pub enum Making {
    /// An application of a term.
    Term,
    /// The same, and it is kept in the heap.
    TermSave,
    /// What an axiom or a theorem proves.
    Thm,
    /// The same, and it is kept in the heap.
    ThmSave,
}

/// A command on conversions, and the gap.
#[derive(Clone, Copy, Debug, PartialEq, Eq)]
pub enum Converting {
    /// A proof of an expression, where another one is proved to which it is to be convertible.
    Conv,
    /// Both sides are the same.
    Refl,
    /// The sides in the other order.
    Symm,
    /// Between two applications of one term, operand by operand.
    Cong,
    /// A definition is unfolded.
    Unfold,
    /// What is to be shown is put below, to be kept.
    ConvCut,
    /// A conversion is kept in the heap.
    ConvSave,
    /// A gap.
    Sorry,
}
