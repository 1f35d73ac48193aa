// A file statement by statement.

ghost use Rattle.std.specs.Prelude.{◌≡◌, ◌<◌};

use crate::expect::expect;
use mz_binary::{Bodies, Checker, DraftBodies, Next, StrictBodies};
use mz_binary_theory::Statement;
use mz_cmd::{K, Mem, Refusal, Steps};
use mz_layout_tables::{Mmb, Rows};
use mz_store::Seed;
use std::alloc::{AllocError, Global};
use std::marker::Brand;
use std::sync::ledger::{Blank, Ledger};

/// Negation, the definition of a double negation, and a theorem that folds it.
pub const FOLD: &[u8] = &[
    0x4D, 0x4D, 0x30, 0x42, 1, 1, 0, 0, 2, 0, 0, 0, 1, 0, 0, 0, 0x30, 0, 0, 0, 0x40, 0, 0, 0, 0x80,
    0, 0, 0, 0, 0, 0, 0, 0, 0, 0, 0, 0, 0, 0, 0, 4, 0, 0, 0, 0, 0, 0, 0, 1, 0, 0, 0, 0x48, 0, 0, 0,
    1, 0, 0x80, 0, 0x58, 0, 0, 0, 1, 0, 0, 0, 0x70, 0, 0, 0, 0, 0, 0, 0, 0, 0, 0, 0, 0, 0, 0, 0, 0,
    0, 0, 0, 0, 0, 0, 0, 0, 0, 0, 0, 0, 0, 0, 0, 0, 0, 0, 0, 0x30, 0x30, 0x32, 0, 0, 0, 0, 0, 0, 0,
    0, 0, 0, 0, 0, 0, 0x70, 1, 0x32, 0x36, 0x30, 0x30, 0x32, 0, 0x44, 2, 0x45, 2, 0x45, 6, 0x12,
    0x10, 0x10, 0, 0x46, 0x15, 0x12, 0x10, 0x10, 0x16, 0x12, 0x50, 1, 0x52, 1, 0x17, 0x12, 0x50, 1,
    0x12, 0x10, 0x10, 0x1B, 0x18, 0, 0,
];

/// The file with one byte in place of another.
pub fn with_byte(alloc: Global, at: usize, byte: u8) -> Result<Vec<u8>, Mem> {
    let mut file = FOLD.to_vec(alloc)?;
    if let Some(place) = file.get_mut(at) {
        *place = byte;
    }
    Ok(file)
}

/// Adds the good statements of a file, and says what comes after them.
fn end_of<B: Bodies, L: Ledger>(
    alloc: Global,
    blank: Blank,
    mmb: &Mmb<'_>,
    statements: &mut Vec<Statement>,
) -> Result<Result<Rows, Refusal>, Mem>
    requires name { blank.name ≡ L.name }
    requires parts { blank.parts ≡ L.parts }
    requires some { 0 < blank.parts }
{
    let mut steps = Steps::<L>::start(blank);
    let mut checker = Checker::<B>::new(alloc, Seed::FIXED, mmb);
    for _ in 0..10 {
        match checker.check_next(&mut steps) {
            Next::Statement(after, statement) => {
                statements.push(statement)?;
                checker = after;
            }
            Next::End(rows) => return Ok(Ok(rows)),
            Next::Refused(refusal) => return Ok(Err(refusal)),
            Next::Mem => return Err(AllocError),
        }
    }
    Err(AllocError)
}

/// The statements of the file, the last one made local.
const STATEMENTS: &[Statement] = &[
    Statement {
        number: 1,
        at: 128,
        kind: 4,
        row: 0,
        local: false,
        gap: false,
    },
    Statement {
        number: 2,
        at: 130,
        kind: 5,
        row: 0,
        local: false,
        gap: false,
    },
    Statement {
        number: 3,
        at: 132,
        kind: 5,
        row: 1,
        local: false,
        gap: false,
    },
    Statement {
        number: 4,
        at: 138,
        kind: 6,
        row: 0,
        local: true,
        gap: false,
    },
];

/// A byte and its place, how many good statements come, and what comes after them.
const ENDINGS: &[(usize, u8, usize, Result<Rows, Refusal>)] = &[
    (
        138,
        0x4E,
        4,
        Ok(Rows {
            sorts: 1,
            terms: 2,
            thms: 1,
        }),
    ),
    (
        157,
        0x20,
        3,
        Err(Refusal {
            statement: 4,
            at: 157,
            rule: K::Sorry,
        }),
    ),
];

/// The same of the file with one byte in place of another.
fn end_with<B: Bodies>(
    alloc: Global,
    at: usize,
    byte: u8,
    statements: &mut Vec<Statement>,
) -> Result<Result<Rows, Refusal>, Mem> {
    let file = with_byte(alloc, at, byte)?;
    if file.len() >= 200 {
        return Err(AllocError);
    }
    match Mmb::read(&file) {
        Ok(mmb) => end_of::<B, Brand>(alloc, Blank::new(1), &mmb, statements),
        Err(refusal) => Ok(Err(refusal)),
    }
}

/// A sort, a term, a local definition and a theorem; then the same with an open proof.
#[test]
fn statements_one_by_one(rt: HostRuntime) {
    for (at, byte, count, after) in ENDINGS {
        let mut found = Vec::new(rt.alloc());
        let ended = end_with::<StrictBodies>(rt.alloc(), *at, *byte, &mut found).expect(
            &rt, "memory",
        );
        let are_good = found.iter().eq(STATEMENTS.iter().take(*count));
        assert!(rt; are_good, "{count} statements");
        assert!(rt; ended == *after, "after {count} statements");
    }
}

/// In a draft the open proof goes through, and its theorem is reported apart.
#[test]
fn gaps_are_told(rt: HostRuntime) {
    let mut found = Vec::new(rt.alloc());
    let ended = end_with::<DraftBodies>(rt.alloc(), 157, 0x20, &mut found).expect(&rt, "memory");
    expect(&rt, ended.is_ok(), "good in a draft");
    expect(&rt, found.len() == 4, "four statements");
    for (i, statement) in found.iter().enumerate() {
        assert!(rt; statement.gap == (i == 3), "statement {i}");
    }
}
