// Files that the writer writes, by the bytes that the format says.

use crate::expect::{expect_bytes, expect_part};
use mz_layout::LayoutWriter;
use mz_logic_theory::Word;
use std::process::Abort;

/// Two sorts, the term `all {x: nat} (p: wff x): wff`, an axiom of the same parameters and a
/// theorem of the same.
const GEN: &[u8] = &[
    0x4D, 0x4D, 0x30, 0x42, 1, 2, 0, 0, 1, 0, 0, 0, 2, 0, 0, 0, 0x30, 0, 0, 0, 0x38, 0, 0, 0, 0x90,
    0, 0, 0, 0, 0, 0, 0, 0, 0, 0, 0, 0, 0, 0, 0, 4, 0, 0, 0, 0, 0, 0, 0, 2, 0, 0, 0, 0x48, 0, 0, 0,
    2, 0, 0, 0, 0x60, 0, 0, 0, 2, 0, 0, 0, 0x78, 0, 0, 0, 1, 0, 0, 0, 0, 0, 0, 0x81, 1, 0, 0, 0, 0,
    0, 0, 0, 0, 0, 0, 0, 0, 0, 0, 0, 1, 0, 0, 0, 0, 0, 0, 0x81, 0, 0, 0, 0, 0, 0, 0, 0, 0x30, 0x32,
    0x72, 1, 0x36, 0x72, 1, 0, 1, 0, 0, 0, 0, 0, 0, 0x81, 1, 0, 0, 0, 0, 0, 0, 0, 0x30, 0x32, 0x72,
    1, 0x36, 0x72, 1, 0, 0x44, 2, 0x44, 2, 0x45, 2, 0x42, 0x0A, 0x52, 1, 0x16, 0x12, 0x52, 1, 0x10,
    0, 0x46, 0x10, 0x52, 1, 0x16, 0x52, 2, 0x12, 0x52, 1, 0x12, 0x52, 1, 0x10, 0x14, 0, 0,
];

/// One provable sort.
const ONE: &[u8] = &[
    0x4D, 0x4D, 0x30, 0x42, 1, 1, 0, 0, 0, 0, 0, 0, 0, 0, 0, 0, 0x30, 0, 0, 0, 0x30, 0, 0, 0, 0x30,
    0, 0, 0, 0, 0, 0, 0, 0, 0, 0, 0, 0, 0, 0, 0, 4, 0, 0, 0, 0, 0, 0, 0, 0x44, 2, 0,
];

/// Where the tables of terms and theorems and the list stand in a file of nothing.
const TABLES_OF_NOTHING: &[u8] = &[40, 0, 0, 0, 40, 0, 0, 0, 40, 0, 0, 0];

#[test]
fn one_sort_is_written(rt: HostRuntime) {
    let mut writer = LayoutWriter::new(rt.alloc());
    writer.add_sort(4).expect(&rt, "memory");
    writer.add_stmt(0x04, &[]).expect(&rt, "memory");
    assert!(rt; writer.length() == 51);
    let file = writer.finish().expect(&rt, "memory");
    expect_bytes(&rt, &file, ONE, "one sort");
}

#[test]
fn nothing_is_written(rt: HostRuntime) {
    let writer = LayoutWriter::new(rt.alloc());
    assert!(rt; writer.length() == 41);
    let file = writer.finish().expect(&rt, "memory");
    assert!(rt; file.len() == 41);
    expect_bytes(&rt, &file[16..28], TABLES_OF_NOTHING, "tables");
}

/// A bound `nat`, the first.
const X: Word = Word(0x8100_0000_0000_0001);

/// The unify stream of both assertions.
const STREAM: &[u8] = &[0x30, 0x32, 0x72, 1, 0x36, 0x72, 1, 0];

/// The bodies of the axiom and of the theorem.
const AXIOM: &[u8] = &[0x52, 1, 0x16, 0x12, 0x52, 1, 0x10, 0];

const THEOREM: &[u8] = &[
    0x52, 1, 0x16, 0x52, 2, 0x12, 0x52, 1, 0x12, 0x52, 1, 0x10, 0x14, 0,
];

#[test]
fn tables_are_written(rt: HostRuntime) {
    let mut writer = LayoutWriter::new(rt.alloc());
    writer.add_sort(4).expect(&rt, "memory");
    writer.add_sort(0).expect(&rt, "memory");
    writer
        .add_term(&[X, Word(1)], Word(0), None)
        .expect(&rt, "memory");
    writer.add_thm(&[X, Word(0)], STREAM).expect(&rt, "memory");
    writer.add_thm(&[X, Word(1)], STREAM).expect(&rt, "memory");
    writer.add_stmt(0x04, &[]).expect(&rt, "memory");
    writer.add_stmt(0x04, &[]).expect(&rt, "memory");
    writer.add_stmt(0x05, &[]).expect(&rt, "memory");
    writer.add_stmt(0x02, AXIOM).expect(&rt, "memory");
    writer.add_stmt(0x06, THEOREM).expect(&rt, "memory");
    assert!(rt; writer.length() == 177);
    let file = writer.finish().expect(&rt, "memory");
    expect_bytes(&rt, &file, GEN, "all tables");
}

/// How many bytes a theorem's body has, how many the file then has, and the statement's command.
const DISTANCES: &[(usize, usize, &[u8], &str)] = &[
    (253, 296, &[0x46, 0xFF], "the longest in one byte"),
    (254, 298, &[0x86, 1, 1], "the shortest in two bytes"),
    (
        65532,
        65576,
        &[0x86, 0xFF, 0xFF],
        "the longest in two bytes",
    ),
    (
        65533,
        65579,
        &[0xC6, 2, 0, 1, 0],
        "the shortest in four bytes",
    ),
];

/// Writes one theorem whose body is so many zeros.
fn expect_distance(
    rt: &(impl Abort + AllocGlobal),
    body: usize,
    len: usize,
    command: &[u8],
    what: &str,
) {
    let mut writer = LayoutWriter::new(rt.alloc());
    let zeros = vec![in rt.alloc(); 0; body].expect(rt, "memory");
    writer.add_stmt(0x06, &zeros).expect(rt, "memory");
    let written = writer.length();
    expect_part(rt, written == len as u128, "the length", what);
    assert!(rt; written <= 4_294_967_295);
    let file = writer.finish().expect(rt, "memory");
    let to = command.len().saturating_add(40);
    assert!(rt; file.len() >= to && to >= 40);
    expect_bytes(rt, &file[40..to], command, what);
}

#[test]
fn distances_are_short(rt: HostRuntime) {
    for (body, len, command, what) in DISTANCES {
        expect_distance(&rt, *body, *len, command, what);
    }
}
