ghost use Rattle.mz_logic_theory.specs.Tree.{Tree};

use mz_logic_theory::Expr;

/// An expression, where it isn't too high.
#[derive(Drop)]
pub enum Built {
    /// The expression.
    Tree(Expr),
    /// It's too high.
    High,
    /// No memory was left.
    Mem,
}

/// Whether expressions were added, where none is too high.
#[derive(Clone, Copy)]
pub enum Added {
    /// They were.
    Done,
    /// One is too high.
    High,
    /// No memory was left.
    Mem,
}
