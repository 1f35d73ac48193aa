// What the record of a row says, of a term's or of an assertion's.
ghost use Rattle.std.specs.Prelude.{◌≡◌, ◌≤◌, ◌<◌, ◌+◌, ◌*◌, ◌^◌, length, drop};
ghost use Rattle.mz_layout_tables.specs.Tables.{param_count, words_at, word_at};
ghost use Rattle.mz_layout_tables.specs.Layout.{HoldsWords};

use crate::bytes::{u16_at, u32_at, u64_at};
use mz_logic_theory::Word;

/// How many parameters the row has.
#[inline(always)]
pub fn arity(file: &[u8], row: u32) -> u32
    requires { row + 8 ≤ length file.now }
    ensures { result ≡ param_count file.now row }
{
    u32::from(u16_at(file, row))
}

/// The place of the row's i-th word; past its words, of what follows them.
#[inline(always)]
pub fn word_place(file: &[u8], row: u32, further: u32, i: u32) -> u32
    requires row { row + 8 ≤ length file.now }
    requires words { HoldsWords file.now further row }
    requires fits { length file.now < 2 ^ 32 }
    requires place { i ≤ param_count file.now row + further }
    ensures place { result ≡ words_at file.now row + 8 * i }
    ensures within { result ≤ length file.now }
{
    u32_at(file, row + 4) + 8 * i
}

/// The row's i-th word.
#[inline(always)]
pub fn word(file: &[u8], row: u32, further: u32, i: u32) -> Word
    requires row { row + 8 ≤ length file.now }
    requires words { HoldsWords file.now further row }
    requires fits { length file.now < 2 ^ 32 }
    requires place { i < param_count file.now row + further }
    ensures { result ≡ word_at file.now row i }
{
    Word(u64_at(file, word_place(file, row, further, i)))
}

/// The same, where the first word's place is known: the words of a row are read one after another.
#[inline(always)]
pub fn word_from(file: &[u8], row: u32, first: u32, further: u32, i: u32) -> Word
    requires row { row + 8 ≤ length file.now }
    requires words { HoldsWords file.now further row }
    requires fits { length file.now < 2 ^ 32 }
    requires first { first ≡ words_at file.now row }
    requires place { i < param_count file.now row + further }
    ensures { result ≡ word_at file.now row i }
{
    // The row is named by what is asked alone.
    let _ = row;
    Word(u64_at(file, first + 8 * i))
}

/// What follows the row's words: its place, and the rest of the file from there.
#[inline(always)]
pub fn after_words<'a>(file: &'a [u8], row: u32, further: u32) -> (u32, &'a [u8])
    requires row { row + 8 ≤ length file.now }
    requires words { HoldsWords file.now further row }
    requires fits { length file.now < 2 ^ 32 }
    requires few { further ≤ 1 }
    ensures place { result.0 ≡ words_at file.now row + 8 * (param_count file.now row + further) }
    ensures rest { result.1.now ≡ drop result.0 file.now }
{
    let place = word_place(file, row, further, arity(file, row) + further);
    (place, &file[place as usize..])
}
