ghost use Rattle.std.specs.Prelude.{ℕ, List, ◌≡◌, ◌≤◌, ◌<◌, ◌+◌, ◌^◌, length, map, get_or, IfOk, IsTrue};
ghost use Rattle.mz_sexpr.specs.Rows.{entry, sized, all_ends, EndsAt, EndFrom};

use crate::sexprs::Row;
use std::alloc::{AllocError, Global};

/// The number of the first row after the n-th that is no part of it.
pub(crate) fn end_at(rows: &[Row], ends: &[u32], n: usize) -> usize
    requires within { n < length rows.now }
    requires many { length (all_ends rows.now ends.now) ≡ length rows.now }
    ensures { result ≡ get_or (all_ends rows.now ends.now) n 0 }
{
    if ends.is_empty() {
        n + rows[n].size as usize
    } else {
        ends[n] as usize
    }
}

/// The number of the first row after the n-th that is no part of it, where those of the later rows
/// are known.
fn end_of(rows: &[Row], ends: &[u32], n: usize) -> usize
    requires within { n < length rows.now }
    requires many { length (all_ends rows.now ends.now) ≡ length rows.now }
    requires short { length rows.now < 2 ^ 32 }
    requires known { (text : List ℕ) → EndFrom (map (entry text) rows.now) (all_ends rows.now ends.now) (n + 1) }
    ensures { (text : List ℕ) → EndsAt (map (entry text) rows.now) n result }
{
    let depth = rows[n].depth;
    let mut end = n + 1;
    while end < rows.len() && depth < rows[end].depth {
        end = end_at(rows, ends, end);
    }
    end
}

/// For each row, the number of the first later one that is no part of it.
pub(crate) fn ends_of(alloc: Global, rows: &[Row]) -> Result<Vec<u32>, AllocError>
    requires { length rows.now < 2 ^ 32 }
    ensures many { IfOk result (λ v. length v.items ≡ length rows.now) }
    ensures known { IfOk result (λ v. (text : List ℕ) → EndFrom (map (entry text) rows.now) v.items 0) }
{
    let mut ends: Vec<u32> = vec![in alloc; 0; rows.len()]?;
    let mut n = rows.len();
    while 0 < n {
        n -= 1;
        ends[n] = end_of(rows, &ends, n) as u32;
    }
    Ok(ends)
}

/// Puts the size of each row into it. False where one is greater than a row has room for.
pub(crate) fn put_sizes(rows: &mut Vec<Row>) -> bool
    requires { length rows.old.items < 2 ^ 32 }
    ensures many { length rows.new.items ≡ length rows.old.items }
    ensures same { (text : List ℕ) → map (entry text) rows.new.items ≡ map (entry text) rows.old.items }
    ensures sizes { IsTrue result → (text : List ℕ) → EndFrom (map (entry text) rows.new.items) (sized 0 rows.new.items) 0 }
{
    let mut n = rows.len();
    while 0 < n {
        n -= 1;
        let size = end_of(rows, &[], n) - n;
        if size > u16::MAX as usize {
            return false;
        }
        rows[n] = Row {
            size: size as u16,
            ..rows[n]
        };
    }
    true
}
