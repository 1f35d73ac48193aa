// Rows and statements, one after the other.
ghost use Rattle.std.specs.Prelude.{◌≡◌, ◌≤◌, ◌<◌, ◌+◌, ◌^◌, ◌++◌, length, OnOk};
ghost use Rattle.mz_layout_tables.specs.Normal.{blocks, table, list_bytes};

use crate::pending::{StoredRow, StoredStatement};
use mz_cmd::Mem;

/// How many bytes the rows' blocks have.
#[tactic(auto, using(mz_layout_tables::proofs::Rest::rests))]
pub fn blocks_len(rows: &[StoredRow]) -> u128
    requires { length rows.now < 2 ^ 63 }
    ensures len { result ≡ length (blocks rows.now) }
    ensures bound { result ≤ 2 ^ 126 + 2 ^ 84 }
{
    let mut total: u128 = 0;
    for row in rows {
        total += u128::from(row.block_len());
    }
    total
}

/// Appends the records of rows whose blocks begin at a place.
#[tactic(auto, using(mz_layout_tables::proofs::Rest::rests))]
pub fn put_table(out: &mut Vec<u8>, rows: &[StoredRow], at: u32) -> Result<(), Mem>
    requires { at + length (blocks rows.now) ≤ 4294967295 }
    ensures { OnOk result (out.new.items ≡ out.old.items ++ table at rows.now) }
{
    let mut place = at;
    for row in rows {
        row.put_record(out, place)?;
        place += row.block_len() as u32;
    }
    Ok(())
}

/// Appends the rows' blocks.
#[tactic(auto, using(mz_layout_tables::proofs::Rest::rests))]
pub fn put_blocks(out: &mut Vec<u8>, rows: &[StoredRow]) -> Result<(), Mem>
    ensures { OnOk result (out.new.items ≡ out.old.items ++ blocks rows.now) }
{
    for row in rows {
        row.put_block(out)?;
    }
    Ok(())
}

/// How many bytes the list of statements has.
#[tactic(auto, using(mz_layout_tables::proofs::Rest::rests))]
pub fn list_len(statements: &[StoredStatement]) -> u128
    requires { length statements.now < 2 ^ 63 }
    ensures len { result ≡ length (list_bytes statements.now) }
    ensures bound { result ≤ 2 ^ 126 + 2 ^ 84 }
{
    let mut total: u128 = 1;
    for statement in statements {
        total += u128::from(statement.len());
    }
    total
}

/// Appends the list of statements, with its end.
#[tactic(auto, using(mz_layout_tables::proofs::Rest::rests))]
pub fn put_list(out: &mut Vec<u8>, statements: &[StoredStatement]) -> Result<(), Mem>
    requires { length (list_bytes statements.now) ≤ 4294967295 }
    ensures { OnOk result (out.new.items ≡ out.old.items ++ list_bytes statements.now) }
{
    for statement in statements {
        statement.put(out)?;
    }
    out.extend_from_slice(&[0])
}
