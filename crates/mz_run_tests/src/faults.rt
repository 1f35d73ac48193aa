// Files that are missing, an output that is full, and out of memory.
use crate::expect::{expect_of, expect_that};
use crate::files::{DUMMY, ONE, ONE_SPEC};
use crate::runs::{ended, folder_of, words_of};
use mz_io::{Folder, MemSink};
use mz_store::Seed;
use mz_tool::{Status, run};
use std::alloc::{AllocError, Global};
use std::process::Abort;

/// Arguments, how the run ends where the smallest binary alone is there, and how many calls it makes.
const MISSING: &[(&str, Status, u64)] = &[
    ("verify other bin", Status::ReadFault, 1),
    // The binary is read in two pulls.
    ("verify bin other", Status::ReadFault, 4),
    ("show other", Status::ReadFault, 1),
    ("compile other out", Status::ReadFault, 1),
    ("assemble other out", Status::ReadFault, 1),
    ("axioms other bin", Status::ReadFault, 1),
    ("axioms bin other", Status::ReadFault, 4),
    ("draft other bin", Status::ReadFault, 1),
    ("draft bin other", Status::ReadFault, 4),
    ("portable other bin", Status::ReadFault, 1),
    ("portable bin other", Status::ReadFault, 4),
    ("decompile other bin out", Status::ReadFault, 1),
    ("decompile bin other out", Status::ReadFault, 4),
    ("verify bin", Status::Usage, 0),
    ("compile bin", Status::Usage, 0),
    ("assemble bin", Status::Usage, 0),
    ("axioms bin", Status::Usage, 0),
    ("draft bin", Status::Usage, 0),
    ("decompile bin out", Status::Usage, 0),
    ("sample 0", Status::Usage, 0),
];

/// A file that is missing is the last one that is started; arguments of no command start none.
#[test]
fn missing_files(rt: HostRuntime) {
    for (line, wanted, calls) in MISSING {
        let mut folder = folder_of(&rt, &[("bin", ONE)]);
        folder.fail_call(*calls + 1).expect(&rt, "memory");
        let (status, out) = ended(&rt, line, &mut folder, 100);
        expect_of(&rt, status == *wanted, "the status", line);
        expect_of(&rt, out.bytes().is_empty(), "the text", line);
        expect_of(&rt, folder.start("bin").is_err(), "the calls", line);
    }
}

#[test]
fn a_full_sink_holds_a_prefix(rt: HostRuntime) {
    let mut folder = folder_of(&rt, &[("bin", DUMMY)]);
    let mut out = MemSink::new(rt.alloc(), 11).expect(&rt, "memory");
    out.take_at_most(1);
    let words = words_of(rt.alloc(), "show bin").expect(&rt, "memory");
    let status = run(rt.alloc(), Seed::FIXED, &words, &mut folder, &mut out);
    expect_that(
        &rt,
        status == Status::OutFault,
        "less room than the listing",
    );
    expect_that(
        &rt,
        out.bytes() == b"sort 0 4\nso".as_slice(),
        "the room is used",
    );
}

/// Takes memory in ever smaller pieces until no more is given. None where it can't be used up, as
/// under a checking allocator.
fn take_all(alloc: Global) -> Result<Option<Vec<Vec<u8>>>, AllocError> {
    let mut held = Vec::with_capacity(alloc, 1 << 18)?;
    for power in (3..47u32).rev() {
        let mut refused = false;
        for _ in 0..1 << 14 {
            let Ok(piece) = Vec::with_capacity(alloc, 1 << power) else {
                refused = true;
                break;
            };
            held.push(piece)?;
        }
        if !refused {
            return Ok(None);
        }
    }
    Ok(Some(held))
}

const COMMANDS: &[&str] = &[
    "verify spec bin",
    "show bin",
    "compile text out",
    "compile_draft text out",
    "assemble list out",
    "axioms spec bin",
    "draft spec bin",
    "portable spec bin",
    "spec text out",
    "decompile spec bin out",
    "sample 1",
];

/// Runs a command without memory, and then with memory again. Whether all memory could be taken.
fn expect_memory_told(rt: &(impl Abort + AllocGlobal), line: &str) -> bool {
    let alloc = rt.alloc();
    let words = words_of(alloc, line).expect(rt, "memory");
    let files = [
        ("spec", ONE_SPEC.as_bytes()),
        ("bin", ONE),
        ("text", b"(sort wff provable)"),
        ("list", b"sort 0 4\nend\n"),
    ];
    let mut folder = folder_of(rt, &files);
    folder.room("out", 51).expect(rt, "memory");
    let mut out = MemSink::new(alloc, 200).expect(rt, "memory");
    let Some(held) = take_all(alloc).expect(rt, "memory") else {
        return false;
    };
    let status = run(alloc, Seed::FIXED, &words, &mut folder, &mut out);
    drop(held);
    expect_of(
        rt,
        status == Status::Memory,
        "without memory, the status",
        line,
    );
    expect_of(rt, out.bytes().is_empty(), "without memory, the text", line);
    expect_of(
        rt,
        folder.file("out").is_none(),
        "without memory, no file",
        line,
    );
    let status = run(alloc, Seed::FIXED, &words, &mut folder, &mut out);
    expect_of(
        rt,
        status == Status::Done,
        "with memory again, the status",
        line,
    );
    true
}

#[test]
fn out_of_memory_is_reported(rt: HostRuntime) {
    for line in COMMANDS {
        if !expect_memory_told(&rt, line) {
            return;
        }
    }
}

const STATUSES: &[(Status, u8, Option<&str>)] = &[
    (Status::Done, 0, None),
    (Status::Refused, 1, None),
    (Status::Usage, 2, Some("Usage")),
    (Status::ReadFault, 3, Some("ReadFault")),
    (Status::Memory, 4, Some("Memory")),
    (Status::WriteFault, 5, Some("WriteFault")),
    (Status::OutFault, 6, Some("OutFault")),
    (Status::TooLong, 7, Some("TooLong")),
];

#[test]
fn each_status_has_its_number_and_name(rt: HostRuntime) {
    for (status, number, name) in STATUSES {
        assert!(rt; status.number() == *number, "the number {number}");
        assert!(rt; status.name() == *name, "the name of {number}");
    }
}
