// One word of a row.
ghost use Rattle.std.specs.Prelude.{◌≡◌, ◌≤◌, ◌<◌, ◌^◌, ◌↔◌, IsTrue, slice_get};
ghost use Rattle.mz_logic_theory.specs.Modifiers.{MayBeBoundSort, MayBeResultSort};
ghost use Rattle.mz_logic_theory.specs.Words.{word_deps};
ghost use Rattle.mz_layout_tables.specs.Tables.{sort_count, term_count, term_row};
ghost use Rattle.mz_layout_tables.specs.RowWords.{IsParamWord, IsResultWord, bound_count, first_sorts};

use crate::mmb::Mmb;
use mz_logic_theory::{SortMods, Terms, Word};

/// Whether the word may say a parameter after so many bound ones.
pub fn is_param(mmb: &Mmb, sorts: u32, bound: u32, word: Word) -> bool
    requires sorts { sorts ≤ sort_count mmb.now }
    requires few { bound ≤ 55 }
    ensures { IsTrue result ↔ IsParamWord (first_sorts mmb.now sorts) bound word }
{
    if word.sort() >= sorts {
        return false;
    }
    if word.bound() {
        may_be_bound(mmb, sorts, word.sort()) && has_bit_alone(word, bound)
    } else {
        has_bits_below(word, bound)
    }
}

/// Whether the result's word is right, where so many parameters are bound.
pub fn is_result(mmb: &Mmb, sorts: u32, term: u32, bound: u32) -> bool
    requires sorts { sorts ≤ sort_count mmb.now }
    requires row { term < term_count mmb.now }
    requires bound { bound ≡ bound_count (term_row mmb.now term).words.params }
    requires few { bound ≤ 55 }
    ensures { IsTrue result ↔ IsResultWord (first_sorts mmb.now sorts) (term_row mmb.now term) }
{
    let word = mmb.result(term);
    !word.bound()
        && word.sort() == mmb.term_sort(term)
        && may_be_result(mmb, sorts, mmb.term_sort(term))
        && has_bits_below(word, bound)
}

// ---- sorts, of which the first so many are declared

fn mods_of(mmb: &Mmb, sorts: u32, sort: u32) -> Option<SortMods>
    requires { sorts ≤ sort_count mmb.now }
    ensures { result ≡ slice_get (first_sorts mmb.now sorts) sort }
{
    if sort < sorts {
        Some(mmb.mods(sort))
    } else {
        None
    }
}

fn may_be_bound(mmb: &Mmb, sorts: u32, sort: u32) -> bool
    requires { sorts ≤ sort_count mmb.now }
    ensures { IsTrue result ↔ MayBeBoundSort (first_sorts mmb.now sorts) sort }
{
    mods_of(mmb, sorts, sort).is_some_and(|mods| !mods.is_strict())
}

fn may_be_result(mmb: &Mmb, sorts: u32, sort: u32) -> bool
    requires { sorts ≤ sort_count mmb.now }
    ensures { IsTrue result ↔ MayBeResultSort (first_sorts mmb.now sorts) sort }
{
    mods_of(mmb, sorts, sort).is_some_and(|mods| !mods.is_pure())
}

// ---- bits of dependencies

/// Whether the word has bit `k` alone, which is at most bit 54.
fn has_bit_alone(word: Word, k: u32) -> bool
    ensures { IsTrue result ↔ ((k ≤ 54) × (word_deps word ≡ 2 ^ k)) }
{
    k <= 54 && word.deps() == 1 << k
}

/// Whether the word has no bit from bit `k` on.
fn has_bits_below(word: Word, k: u32) -> bool
    requires { k ≤ 55 }
    ensures { IsTrue result ↔ (word_deps word < 2 ^ k) }
{
    word.deps() < 1 << k
}
