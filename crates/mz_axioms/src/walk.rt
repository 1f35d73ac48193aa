// The axioms and theorems of a good binary, in order.
ghost use Rattle.std.specs.Prelude.{◌≡◌, ◌⊎◌, ◌≤◌, ◌<◌, ◌↔◌, ◌^◌, ℕ, length, All, Contains, IfOk, IfSome, OnOk, slice_get};
ghost use Rattle.mz_layout_tables.specs.Heads.{body_bytes};
ghost use Rattle.mz_layout_tables.specs.Tables.{thm_count};
ghost use Rattle.mz_axioms.specs.Kept.{CitesSet, HasSet, IsKept, IsSetOf, told};
ghost use Rattle.mz_axioms.specs.Members.{IsSet, IsStore, span};
ghost use Rattle.mz_axioms.specs.Places.{place_by};
ghost use Rattle.mz_axioms.specs.Rows.{IsNoted, TellsFile};
ghost use Rattle.mz_binary_theory.specs.Good.{IsGood};

use crate::citations::citation_in;
use crate::places::place_of;
use crate::rows::{Place, Row, Table};
use crate::sets::{Sets, Size};
use mz_binary_walk::Passed;
use mz_layout_tables::{Head, Mmb};
use mz_spec::Hashing;
use std::alloc::{AllocError, Global};

/// The rows of a good binary. No body is run.
pub fn rows_of(alloc: Global, hashing: Hashing, mmb: &Mmb) -> Result<Table, AllocError>
    requires { IsGood mmb.now }
    ensures told { IfOk result (λ table. TellsFile mmb.now (told table)) }
    ensures few { IfOk result (λ table. length table.rows.items < 2 ^ 32) }
    ensures kept { IfOk result IsKept }
{
    let mut table = Table {
        size: Size::for_numbers_below(mmb.thms()),
        sets: Sets::new(alloc, hashing)?,
        rows: Vec::new(alloc),
    };
    let mut passed = Passed::nothing(mmb);
    'statements: while let Some((head, after)) = passed.next(mmb) {
        note(alloc, mmb, head, passed.publics, &mut table)?;
        passed = after;
    }
    Ok(table)
}

/// Adds the row of the statement, if it is an axiom or a theorem.
fn note(
    alloc: Global,
    mmb: &Mmb,
    head: Head,
    publics: u32,
    table: &mut Table,
) -> Result<(), AllocError>
    requires order { head.body ≤ head.next }
    requires within { head.next ≤ length mmb.now }
    requires room { IfSome (place_by publics head.code) (λ place. length table.old.rows.items < table.old.size.span) }
    requires kept { IsKept table.old }
    ensures noted { OnOk result (IsNoted (place_by publics head.code) (body_bytes mmb.now head.body head.next) (told table.old) (told table.new)) }
    ensures kept { OnOk result (IsKept table.new) }
    ensures size { table.new.size ≡ table.old.size }
{
    let Some(place) = place_of(head.code, publics) else {
        return Ok(());
    };
    let set = set_of(
        alloc,
        mmb,
        head,
        place,
        table.size,
        &mut table.sets,
        &table.rows,
    )?;
    table.rows.push(Row { place, set })?;
    Ok(())
}

/// The set of the axioms to which a citation of the next row comes.
fn set_of(
    alloc: Global,
    mmb: &Mmb,
    head: Head,
    place: Place,
    size: Size,
    sets: &mut Sets,
    rows: &Vec<Row>,
) -> Result<u64, AllocError>
    requires order { head.body ≤ head.next }
    requires within { head.next ≤ length mmb.now }
    requires room { length rows.now.items < size.span }
    requires power { size.span ≡ span size.height }
    requires starts { IsStore sets.old.nodes.items }
    requires sets { All (λ r. IsSet sets.old.nodes.items size.height r.set) rows.now.items }
    ensures { IfOk result (λ id. IsSetOf sets.old.nodes.items sets.new.nodes.items size.height rows.now.items place (body_bytes mmb.now head.body head.next) id) }
{
    if place.is_axiom {
        return sets.single(size, rows.len() as u64);
    }
    let cited = sets_cited(alloc, mmb, head, rows)?;
    sets.union(alloc, size.height, cited)
}

/// The sets of the rows that the body cites, one for each citation.
fn sets_cited(alloc: Global, mmb: &Mmb, head: Head, rows: &[Row]) -> Result<Vec<u64>, AllocError>
    requires order { head.body ≤ head.next }
    requires within { head.next ≤ length mmb.now }
    ensures { IfOk result (λ ids. (id : ℕ) → Contains ids.items id ↔ CitesSet rows.now (body_bytes mmb.now head.body head.next) id) }
{
    let mut ids = Vec::new(alloc);
    let mut pos = head.body;
    'citations: while let Some((row, after)) = citation_in(mmb, pos, head.next) {
        put_set(&mut ids, rows, row)?;
        pos = after;
    }
    Ok(ids)
}

/// Appends the set of the row, if there is one.
fn put_set(ids: &mut Vec<u64>, rows: &[Row], row: u32) -> Result<(), AllocError>
    ensures { OnOk result ((id : ℕ) → Contains ids.new.items id ↔ (Contains ids.old.items id ⊎ HasSet rows.now row id)) }
{
    let Some(cited) = row_at(rows, row) else {
        return Ok(());
    };
    ids.push(cited.set)?;
    Ok(())
}

fn row_at(rows: &[Row], row: u32) -> Option<Row>
    ensures { result ≡ slice_get rows.now row }
{
    rows.get(row as usize).copied()
}
