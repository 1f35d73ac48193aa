// The tests of header and tables, in order.
ghost use Rattle.std.specs.Prelude.{◌≡◌, ◌≤◌, ◌<◌, ◌+◌, ◌*◌, ◌^◌, ◌↔◌, length, IsTrue};
ghost use Rattle.std.specs.List.{range_with_len};
ghost use Rattle.mz_base.specs.Checks.{Judges, each_in_order};
ghost use Rattle.mz_layout_tables.specs.Tables.{term_count, thm_count, terms_at, thms_at};
ghost use Rattle.mz_layout_tables.specs.Layout.{HoldsRecords, HoldsWords, header_checks, layout_checks, row_checks, table_checks, term_check, thm_check};

use crate::bytes::{u16_at, u32_at};
use mz_cmd::K;

/// The place of a fault in the file, in bytes, and the rule that fails.
pub type Fault = (u32, K);

/// The first fault of header and tables.
pub fn check_layout(file: &[u8]) -> Result<(), Fault>
    requires { length file.now < 2 ^ 32 }
    ensures { Judges result (layout_checks file.now) }
{
    check_header(file)?;
    check_tables(file)?;
    check_rows(file)
}

fn check_header(file: &[u8]) -> Result<(), Fault>
    requires { length file.now < 2 ^ 32 }
    ensures { Judges result (header_checks file.now) }
{
    let len = file.len() as u32;
    if len < 40 {
        return Err((len, K::Header));
    }
    if &file[..4] != b"MM0B".as_slice() {
        return Err((0, K::Header));
    }
    if file[4] != 1 {
        return Err((4, K::Header));
    }
    if file[5] > 128 {
        return Err((5, K::Header));
    }
    if len < 40 + u32::from(file[5]) {
        return Err((len, K::Header));
    }
    Ok(())
}

fn check_tables(file: &[u8]) -> Result<(), Fault>
    requires long { 40 ≤ length file.now }
    requires fits { length file.now < 2 ^ 32 }
    ensures { Judges result (table_checks file.now) }
{
    if !holds_records(file, u32_at(file, 8), u32_at(file, 16)) {
        return Err((16, K::Table));
    }
    if !holds_records(file, u32_at(file, 12), u32_at(file, 20)) {
        return Err((20, K::Table));
    }
    if u32_at(file, 24) as usize > file.len() {
        return Err((24, K::Table));
    }
    Ok(())
}

/// Whether the records of a table lie within the file.
fn holds_records(file: &[u8], count: u32, at: u32) -> bool
    ensures { IsTrue result ↔ HoldsRecords file.now count at }
{
    count == 0 || u64::from(at) + 8 * u64::from(count) <= file.len() as u64
}

/// Whether the words of a row lie within the file, of which there are `further` beside its parameters'.
fn holds_words(file: &[u8], further: u32, row: u32) -> bool
    requires row { row + 8 ≤ length file.now }
    requires fits { length file.now < 2 ^ 32 }
    requires few { further ≤ 1 }
    ensures { IsTrue result ↔ HoldsWords file.now further row }
{
    let words = u64::from(u16_at(file, row)) + u64::from(further);
    u64::from(u32_at(file, row + 4)) + 8 * words <= file.len() as u64
}

fn check_rows(file: &[u8]) -> Result<(), Fault>
    requires long { 40 ≤ length file.now }
    requires fits { length file.now < 2 ^ 32 }
    requires terms { HoldsRecords file.now (term_count file.now) (terms_at file.now) }
    requires thms { HoldsRecords file.now (thm_count file.now) (thms_at file.now) }
    ensures { Judges result (row_checks file.now) }
{
    check_term_rows(file)?;
    check_thm_rows(file)
}

fn check_term_rows(file: &[u8]) -> Result<(), Fault>
    requires long { 40 ≤ length file.now }
    requires fits { length file.now < 2 ^ 32 }
    requires table { HoldsRecords file.now (term_count file.now) (terms_at file.now) }
    ensures { Judges result (each_in_order (term_check file.now) (range_with_len 0 (term_count file.now))) }
{
    let table = u32_at(file, 16);
    for t in 0..u32_at(file, 8) {
        let record = table + 8 * t;
        if !holds_words(file, 1, record) {
            return Err((record, K::Table));
        }
    }
    Ok(())
}

fn check_thm_rows(file: &[u8]) -> Result<(), Fault>
    requires long { 40 ≤ length file.now }
    requires fits { length file.now < 2 ^ 32 }
    requires table { HoldsRecords file.now (thm_count file.now) (thms_at file.now) }
    ensures { Judges result (each_in_order (thm_check file.now) (range_with_len 0 (thm_count file.now))) }
{
    let table = u32_at(file, 20);
    for i in 0..u32_at(file, 12) {
        let record = table + 8 * i;
        if !holds_words(file, 0, record) {
            return Err((record, K::Table));
        }
    }
    Ok(())
}
