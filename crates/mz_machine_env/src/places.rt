//! Who may share a variable at two places of a row.
ghost use Rattle.std.specs.Prelude.{◌≡◌, ◌%◌, ◌==◌, ◌||◌, ◌&&◌, nat_lt, if◌then◌else◌};
ghost use Rattle.mz_logic_theory.specs.Words.{word_bound, word_deps};

use mz_logic_theory::Word;

/// The bits of the bound parameters on which a parameter depends, none of a bound one.
#[inline(always)]
pub fn dependencies(word: Word) -> u64
    ensures { result ≡ (if word_bound word then 0 else word_deps word) }
{
    if word.bound() { 0 } else { word.deps() }
}

/// Whether the i-th operand may hold the variable of the j-th: it is the same one, or the i-th parameter
/// depends on the j-th, which comes before it and whose bit is the lowest.
#[inline(always)]
pub fn may_meet(i: u32, j: u32, bits: u64) -> bool
    ensures { result ≡ (i == j || (nat_lt j i && bits % 2 == 1)) }
{
    i == j || (j < i && bits % 2 == 1)
}
