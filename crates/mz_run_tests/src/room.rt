// Files that are put where there is room, and aren't where there is too little.
use crate::files::{ONE, ONE_LISTING, ONE_SPEC, SORT};
use crate::runs::{ended, folder_of};
use mz_tool::Status;
use std::process::Abort;

/// Fails, naming the part, unless a command with so much room leaves this.
fn expect_within(rt: &impl Abort, holds: bool, part: &str, line: &str, room: u64) {
    assert!(rt; holds, "{part} for {line} of {room} bytes");
}

/// Runs a command over the smallest text and listing, where a file of this name may have so many bytes.
fn expect_end(rt: &(impl Abort + AllocGlobal), line: &str, name: &str, room: u64, wanted: Status) {
    let (text, listing) = (SORT.as_bytes(), ONE_LISTING.as_bytes());
    let mut folder = folder_of(rt, &[("text", text), ("list", listing)]);
    folder.room(name, room).expect(rt, "memory");
    let (status, _) = ended(rt, line, &mut folder, 100);
    let is_put = wanted == Status::Done;
    let is_text = folder.file("text") == Some(text);
    let is_listing = folder.file("list") == Some(listing);
    expect_within(rt, status == wanted, "the status", line, room);
    expect_within(
        rt,
        (folder.file(name) == Some(ONE)) == is_put,
        "the file",
        line,
        room,
    );
    expect_within(
        rt,
        is_text != (is_put && name == "text"),
        "the text",
        line,
        room,
    );
    expect_within(
        rt,
        is_listing != (is_put && name == "list"),
        "the listing",
        line,
        room,
    );
}

/// A command, the name of the file that it puts, the bytes that this may have, and how the run ends. The
/// binary has 51. The file may be the one that is read.
const ENDS: &[(&str, &str, u64, Status)] = &[
    ("compile text out", "out", 51, Status::Done),
    ("compile text out", "out", 50, Status::WriteFault),
    ("compile text text", "text", 51, Status::Done),
    ("compile text text", "text", 50, Status::WriteFault),
    ("assemble list out", "out", 51, Status::Done),
    ("assemble list out", "out", 50, Status::WriteFault),
    ("assemble list list", "list", 51, Status::Done),
    ("assemble list list", "list", 50, Status::WriteFault),
];

#[test]
fn a_file_is_put_where_there_is_room(rt: HostRuntime) {
    for (line, name, room, wanted) in ENDS {
        expect_end(&rt, line, name, *room, *wanted);
    }
}

/// The name of the text, the bytes that it may have, and how the run ends. It has 20; its file may be one that is read.
const TEXT_ENDS: &[(&str, u64, Status)] = &[
    ("out", 20, Status::Done),
    ("out", 19, Status::WriteFault),
    ("spec", 20, Status::Done),
    ("spec", 19, Status::WriteFault),
    ("bin", 20, Status::Done),
    ("bin", 19, Status::WriteFault),
];

fn expect_text_end(rt: &(impl Abort + AllocGlobal), name: &str, room: u64, wanted: Status) {
    let spec = ONE_SPEC.as_bytes();
    let mut folder = folder_of(rt, &[("spec", spec), ("bin", ONE)]);
    folder.room(name, room).expect(rt, "memory");
    let line = format!(in rt.alloc(); "decompile spec bin {name}").expect(rt, "memory");
    let (status, _) = ended(rt, &line, &mut folder, 100);
    let is_put = wanted == Status::Done;
    let is_text = folder.file(name) == Some(SORT.as_bytes());
    let is_spec = folder.file("spec") == Some(spec);
    let is_bin = folder.file("bin") == Some(ONE);
    expect_within(rt, status == wanted, "the status", &line, room);
    expect_within(rt, is_text == is_put, "the text", &line, room);
    expect_within(
        rt,
        is_spec != (is_put && name == "spec"),
        "the specification",
        &line,
        room,
    );
    expect_within(
        rt,
        is_bin != (is_put && name == "bin"),
        "the binary",
        &line,
        room,
    );
}

#[test]
fn a_text_is_put_where_there_is_room(rt: HostRuntime) {
    for (name, room, wanted) in TEXT_ENDS {
        expect_text_end(&rt, name, *room, *wanted);
    }
}
