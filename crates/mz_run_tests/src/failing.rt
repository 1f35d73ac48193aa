// Calls on the folder and on the output that fail, one by one, under each command; files that are too long.
use crate::expect::expect_of;
use crate::files::{IMP, IMP_SPEC, ONE, ONE_LISTING, ONE_SPEC, SORT};
use crate::runs::{folder_of, words_of};
use mz_io::{Folder, MemFolder, MemSink};
use mz_store::Seed;
use mz_tool::{ProgramCommand, Status, answer, run};
use std::process::Abort;

const ACCEPTED_ONE: &str = "accepted: 1 sorts, 0 terms, 0 axioms, 0 definitions, 0 theorems\n";

const RESTS_ON: &str = "a1i: ax_1 ax_mp\n";

const OPEN: &str = "draft: 1 of 1 theorems rest on a gap\ngap t\n";

/// A theorem of a sort with one term.
const OPEN_SPEC: &str = "provable sort wff; term p: wff; theorem t: $ p $;";

/// Its binary, in which the proof is left open.
const GAP: &[u8] = &[
    0x4d, 0x4d, 0x30, 0x42, 1, 1, 0, 0, 1, 0, 0, 0, 1, 0, 0, 0, 0x30, 0, 0, 0, 0x38, 0, 0, 0, 0x50,
    0, 0, 0, 0, 0, 0, 0, 0, 0, 0, 0, 0, 0, 0, 0, 4, 0, 0, 0, 0, 0, 0, 0, 0, 0, 0, 0, 0x40, 0, 0, 0,
    0, 0, 0, 0, 0x48, 0, 0, 0, 0, 0, 0, 0, 0, 0, 0, 0, 0x30, 0, 0, 0, 0, 0, 0, 0, 0x44, 2, 0x45, 2,
    0x46, 5, 0x10, 0x20, 0, 0,
];

const SPECIFYING: &str = "spec text out";

const SPECIFIED: &str = "specified: 19 bytes\n";

const MADE_SPEC: &str = "provable sort wff;\n";

const DECOMPILING: &str = "decompile spec bin out";

const DECOMPILED: &str = "decompiled: 20 bytes\n";

const SAMPLE_ONE: &str =
    "sample: 367 bytes of specification, 514 bytes of text\naccepted: 2 sorts, 2 terms, 3 axioms, 1 definitions, 2 theorems\n";

/// A command line, how many calls read its files, how many put one, and what is written. A file takes a
/// start and two pulls, of which the second comes to its end.
pub const RUNS: &[(&str, u8, u8, &str)] = &[
    ("verify spec bin", 6, 0, ACCEPTED_ONE),
    ("show bin", 3, 0, ONE_LISTING),
    ("compile text out", 3, 1, "compiled: 51 bytes\n"),
    ("compile_draft text out", 3, 1, "compiled: 51 bytes\n"),
    ("assemble list out", 3, 1, "assembled: 51 bytes\n"),
    ("axioms claim proof", 6, 0, RESTS_ON),
    ("draft open gap", 6, 0, OPEN),
    ("portable spec bin", 6, 0, ACCEPTED_ONE),
    (SPECIFYING, 3, 1, SPECIFIED),
    (DECOMPILING, 6, 1, DECOMPILED),
    ("sample 1", 0, 0, SAMPLE_ONE),
];

/// The smallest specification, proof text and listing, and two specifications with a theorem.
const TEXTS: &[(&str, &str)] = &[
    ("spec", ONE_SPEC),
    ("text", SORT),
    ("list", ONE_LISTING),
    ("claim", IMP_SPEC),
    ("open", OPEN_SPEC),
];

/// The binaries of these specifications.
const BINARIES: &[(&str, &[u8])] = &[("bin", ONE), ("proof", IMP), ("gap", GAP)];

/// These files, with room for one that is put.
pub fn smallest(rt: &(impl Abort + AllocGlobal)) -> MemFolder {
    let mut folder = folder_of(rt, BINARIES);
    for (name, text) in TEXTS {
        folder.add(name, text.as_bytes()).expect(rt, "memory");
    }
    folder.room("out", 51).expect(rt, "memory");
    folder
}

/// What a command puts that puts a file: the smallest binary, its text, or the specification of this.
fn made_by(line: &str) -> &[u8] {
    match line {
        SPECIFYING => MADE_SPEC.as_bytes(),
        DECOMPILING => SORT.as_bytes(),
        _ => ONE,
    }
}

/// Asserts that the files are as they were, and whether one was put.
pub fn assert_files(rt: &impl Abort, folder: &MemFolder, is_put: bool, what: &str) {
    for (name, text) in TEXTS {
        let is_same = folder.file(name) == Some(text.as_bytes());
        expect_of(rt, is_same, name, what);
    }
    for (name, bytes) in BINARIES {
        expect_of(rt, folder.file(name) == Some(*bytes), name, what);
    }
    let put = is_put.then_some(made_by(what));
    expect_of(rt, folder.file("out") == put, "the file that is put", what);
}

/// Fails, naming a run by its arguments and the number of the call or write that fails.
fn expect_at(rt: &impl Abort, holds: bool, line: &str, number: u64) {
    assert!(rt; holds, "{line} where {number} fails");
}

/// How a run over the folder ends where an output that takes one byte at a time fails at the write of this
/// number (0: none), and what is written.
fn ended_slowly(
    rt: &(impl Abort + AllocGlobal),
    line: &str,
    folder: &mut MemFolder,
    write: u64,
) -> (Status, MemSink) {
    let words = words_of(rt.alloc(), line).expect(rt, "memory");
    let mut out = MemSink::new(rt.alloc(), 200).expect(rt, "memory");
    out.take_at_most(1);
    out.fail_call(write).expect(rt, "memory");
    let status = run(rt.alloc(), Seed::FIXED, &words, folder, &mut out);
    (status, out)
}

/// Runs a command over the smallest files where the call of this number on the folder fails. It comes after
/// the run where this is done.
fn expect_call(
    rt: &(impl Abort + AllocGlobal),
    line: &str,
    call: u64,
    wanted: Status,
    text: &str,
    is_put: bool,
) {
    let mut folder = smallest(rt);
    folder.fail_call(call).expect(rt, "memory");
    let (status, out) = ended_slowly(rt, line, &mut folder, 0);
    let comes_next = folder.start("bin").is_err();
    expect_at(rt, status == wanted, line, call);
    expect_at(rt, out.bytes() == text.as_bytes(), line, call);
    expect_at(rt, comes_next == (wanted == Status::Done), line, call);
    assert_files(rt, &folder, is_put, line);
}

/// Counts the failing call up until a run meets no failure: a failing start or pull is a ReadFault, a
/// failing put a WriteFault, and nothing is written.
fn expect_calls(rt: &(impl Abort + AllocGlobal), line: &str, reads: u8, puts: u8, text: &str) {
    let reads = u64::from(reads);
    let calls = reads + u64::from(puts);
    for call in 1..=calls {
        let wanted = if call <= reads {
            Status::ReadFault
        } else {
            Status::WriteFault
        };
        expect_call(rt, line, call, wanted, "", false);
    }
    expect_call(rt, line, calls + 1, Status::Done, text, puts > 0);
}

#[test]
fn each_failing_call_on_the_folder_is_told(rt: HostRuntime) {
    for (line, reads, puts, text) in RUNS {
        expect_calls(&rt, line, *reads, *puts, text);
    }
}

/// Runs a command over the smallest files, with an output that fails after so many bytes of the text.
fn expect_write(
    rt: &(impl Abort + AllocGlobal),
    line: &str,
    written: usize,
    wanted: Status,
    text: &str,
    is_put: bool,
) {
    let mut folder = smallest(rt);
    let write = (written as u64).saturating_add(1);
    let (status, out) = ended_slowly(rt, line, &mut folder, write);
    let front = text.as_bytes().iter().take(written);
    expect_at(rt, status == wanted, line, write);
    expect_at(rt, out.bytes().iter().eq(front), line, write);
    assert_files(rt, &folder, is_put, line);
}

/// Counts the failing write up until a run meets no failure: what was written before is there, and a file
/// is put already.
fn expect_writes(rt: &(impl Abort + AllocGlobal), line: &str, is_put: bool, text: &str) {
    for written in 0..text.len() {
        expect_write(rt, line, written, Status::OutFault, text, is_put);
    }
    expect_write(rt, line, text.len(), Status::Done, text, is_put);
}

#[test]
fn each_failing_write_leaves_the_front(rt: HostRuntime) {
    for (line, _, puts, text) in RUNS {
        expect_writes(&rt, line, *puts > 0, text);
    }
}

/// Runs a command over the smallest files where files may have so many bytes.
fn expect_within(
    rt: &(impl Abort + AllocGlobal),
    limit: u32,
    line: &str,
    wanted: Status,
    text: &str,
    is_put: bool,
) {
    let alloc = rt.alloc();
    let mut folder = smallest(rt);
    let mut out = MemSink::new(alloc, 200).expect(rt, "memory");
    let words = words_of(alloc, line).expect(rt, "memory");
    let command = ProgramCommand::read(Seed::FIXED, &words).expect(rt, line);
    let limit = u64::from(limit);
    let status = answer(alloc, limit, &command, &mut folder, &mut out);
    assert!(rt; status == wanted, "{line} within {limit} bytes");
    assert!(rt;
        out.bytes() == text.as_bytes(),
        "{line} within {limit} bytes"
    );
    assert_files(rt, &folder, is_put, line);
}

/// How many bytes a file may have, and what is written where none is too long. The smallest specification
/// has 18 bytes, the binary 51, the text 20 and the listing 13, the claim 228, the
/// proof 238, the open claim 49 and the gap 90; a sample is no file.
const LIMITS: &[(u32, &str, Option<&str>)] = &[
    (17, "verify spec bin", None),
    (18, "verify spec bin", None),
    (50, "verify spec bin", None),
    (51, "verify spec bin", Some(ACCEPTED_ONE)),
    (50, "portable spec bin", None),
    (51, "portable spec bin", Some(ACCEPTED_ONE)),
    (50, "show bin", None),
    (51, "show bin", Some(ONE_LISTING)),
    (19, "compile text out", None),
    (20, "compile text out", Some("compiled: 51 bytes\n")),
    (19, "compile_draft text out", None),
    (20, "compile_draft text out", Some("compiled: 51 bytes\n")),
    (12, "assemble list out", None),
    (13, "assemble list out", Some("assembled: 51 bytes\n")),
    (227, "axioms claim proof", None),
    (228, "axioms claim proof", None),
    (237, "axioms claim proof", None),
    (238, "axioms claim proof", Some(RESTS_ON)),
    (48, "draft open gap", None),
    (49, "draft open gap", None),
    (89, "draft open gap", None),
    (90, "draft open gap", Some(OPEN)),
    (19, SPECIFYING, None),
    (20, SPECIFYING, Some(SPECIFIED)),
    (50, DECOMPILING, None),
    (51, DECOMPILING, Some(DECOMPILED)),
    (0, "sample 1", Some(SAMPLE_ONE)),
];

#[test]
fn a_file_past_the_limit_is_too_long(rt: HostRuntime) {
    for (limit, line, text) in LIMITS {
        match text {
            Some(text) => {
                let is_put = line.as_bytes().ends_with(b" out");
                expect_within(&rt, *limit, line, Status::Done, text, is_put);
            }
            None => expect_within(&rt, *limit, line, Status::TooLong, "", false),
        }
    }
}
