//! What stands on the stack and in the heap while a body is gone through.

/// What is made and can be used, by the numbers of nodes.
#[derive(Clone, Copy)]
pub(crate) enum Item {
    Expr(u32),
    /// An expression and its proof.
    Proof(u32, u32),
    /// Two expressions and the conversion from the first to the second.
    Conversion(u32, u32, u32),
}

/// What stands on the stack: an item, two expressions between which a conversion is owed, and below
/// these, down to a proof or a cut, what the conversion goes into when it is made.
#[derive(Drop)]
pub(crate) enum Entry {
    Held(Item),
    Owed(u32, u32),
    /// A proof of the expression from another one.
    ForProof(u32, u32),
    /// The conversion turned.
    ForTurned,
    /// Under a term: the conversions of the operands before, and the sides of those after, the next ones last.
    ForOperand(u32, Vec<u32>, Vec<(u32, u32)>),
    /// A definition's unfolding: the term, the body, the operands and the variables for its dummies.
    ForUnfolded(u32, u32, Vec<u32>, Vec<u32>),
    /// The conversion of these two, which is to be saved.
    ForCut(u32, u32),
}
