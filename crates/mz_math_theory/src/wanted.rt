ghost use Rattle.mz_math_theory.specs.declared.wanted.Wanted.{Wanted};

use mz_lex::S;
use mz_logic_theory::Expr;

/// What a formula is to be: of a provable sort, or of a sort.
#[derive(Clone, Copy, Debug, PartialEq, Eq)]
pub enum Wanted {
    Provable,
    Sort(u32),
}

/// What a math string stands for, or the first rule that it breaks, at a byte of it.
#[derive(Drop)]
pub enum Parsed {
    Tree(Expr),
    Refused { at: u32, rule: S },
    Mem,
}
