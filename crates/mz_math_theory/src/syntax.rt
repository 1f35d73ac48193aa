use mz_logic_theory::Expr;

/// What tokens make.
#[derive(Drop)]
pub enum Syntax {
    /// The tree of all tokens.
    Tree(Expr),
    /// No tree.
    No,
    /// No memory was left.
    Mem,
}
