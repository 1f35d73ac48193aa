//! Each call with ample memory, the limit of a read, failing calls one by one, and the adapters.
use crate::expect::expect_that;
use crate::files::ONE;
use crate::runs::folder_of;
use mz_io::{
    DiskFolder, Failed, Folder, MemFolder, MemSink, Read, Sink, StdSink, read_bounded, write_whole,
};
use std::alloc::{AllocError, Global};
use std::fs;
use std::process::Abort;

const TEXT: &[u8] = b"accepted: 1 sorts";

/// What a read gave, as a name and the bytes.
fn shown(read: &Read) -> (&str, &[u8]) {
    match read {
        Read::Bytes(bytes) => ("bytes", bytes.as_slice()),
        Read::TooLong => ("too long", b""),
        Read::Fault => ("fault", b""),
        Read::Mem => ("memory", b""),
    }
}

/// The bytes 0, 1, 2 and so on, so many of them.
fn counting(alloc: Global, len: u64) -> Result<Vec<u8>, AllocError> {
    let mut bytes = Vec::new(alloc);
    for i in 0..len {
        bytes.push((i % 251) as u8)?;
    }
    Ok(bytes)
}

/// Asserts that the folder holds these bytes under the name.
fn assert_file(rt: &impl Abort, folder: &MemFolder, name: &str, bytes: &[u8]) {
    assert!(rt; folder.file(name) == Some(bytes), "the file {name}");
}

/// The bytes of a file, how many may be read, and how the read ends.
const LIMITS: &[(u64, u64, &str)] = &[
    (0, 0, "bytes"),
    (1, 0, "too long"),
    (51, 50, "too long"),
    (51, 51, "bytes"),
    (51, u64::MAX, "bytes"),
    (16_384, 16_384, "bytes"),
    (16_384, 16_383, "too long"),
    (40_000, 39_999, "too long"),
    (40_000, 40_000, "bytes"),
];

/// Reads a file under a limit, and compares how this ends.
fn expect_read(
    rt: &(impl Abort + AllocGlobal),
    folder: &mut impl Folder,
    name: &str,
    limit: u64,
    word: &str,
    bytes: &[u8],
) {
    let read = read_bounded(rt.alloc(), folder, name, limit);
    assert!(rt;
        shown(&read) == (word, bytes),
        "{name} at the limit {limit}"
    );
}

/// Reads a file of so many bytes under a limit.
fn expect_limit(rt: &(impl Abort + AllocGlobal), len: u64, limit: u64, word: &str) {
    let bytes = counting(rt.alloc(), len).expect(rt, "memory");
    let mut folder = folder_of(rt, &[("other", b"another file"), ("file", &bytes)]);
    let wanted = if word == "bytes" {
        bytes.as_slice()
    } else {
        b""
    };
    expect_read(rt, &mut folder, "file", limit, word, wanted);
    assert_file(rt, &folder, "file", &bytes);
}

#[test]
fn a_whole_file_comes_exactly_up_to_the_limit(rt: HostRuntime) {
    for (len, limit, word) in LIMITS {
        expect_limit(&rt, *len, *limit, word);
    }
}

/// How many bytes of the smallest binary may be read, and how the read ends. It has 51.
const LIMITS_OF_ONE: &[(u64, &str, &[u8])] = &[(50, "too long", b""), (51, "bytes", ONE)];

#[test]
fn the_smallest_binary_is_read_up_to_its_length(rt: HostRuntime) {
    let mut folder = folder_of(&rt, &[("bin", ONE)]);
    for (limit, word, bytes) in LIMITS_OF_ONE {
        expect_read(&rt, &mut folder, "bin", *limit, word, bytes);
    }
}

/// Reads a file of these bytes from a folder whose call of this number fails.
fn expect_failing(rt: &(impl Abort + AllocGlobal), bytes: &[u8], call: u64) {
    let mut folder = folder_of(rt, &[("file", bytes)]);
    folder.fail_call(call).expect(rt, "memory");
    let read = read_bounded(rt.alloc(), &mut folder, "file", 50_000);
    let word = if call <= 5 { "fault" } else { "bytes" };
    assert!(rt; shown(&read).0 == word, "where call {call} fails");
    assert_file(rt, &folder, "file", bytes);
}

#[test]
fn a_failing_start_or_pull_is_a_fault(rt: HostRuntime) {
    // One start, two whole pulls of 16,384 bytes, one of 7,232, and one at the end.
    let bytes = counting(rt.alloc(), 40_000).expect(&rt, "memory");
    for call in 1..8u64 {
        expect_failing(&rt, &bytes, call);
    }
    let mut folder = MemFolder::new(rt.alloc());
    expect_read(&rt, &mut folder, "file", 50_000, "fault", b"");
}

/// Puts a file, and compares whether this succeeds.
fn expect_put(rt: &impl Abort, folder: &mut impl Folder, name: &str, bytes: &[u8], succeeds: bool) {
    let is_put = folder.put(name, bytes).is_ok();
    assert!(rt; is_put == succeeds, "{name} is put");
}

/// What is put, and whether it succeeds; the last call is listed to fail.
const PUTS: &[(&[u8], bool)] = &[
    (b"seven..", false),
    (b"four", true),
    (b"six...", false),
    (b"and4", true),
    (b"3..", false),
    (b"2.", true),
    (b"", false),
];

/// A folder with a file, rooms, and the seventh call that fails.
fn folder_with_rooms(rt: &(impl Abort + AllocGlobal)) -> MemFolder {
    let mut folder = folder_of(rt, &[("file", b"as it was")]);
    folder.room("file", 2).expect(rt, "memory");
    folder.room("other", 9).expect(rt, "memory");
    folder.room("file", 6).expect(rt, "memory");
    folder.room("file", 4).expect(rt, "memory");
    folder.fail_call(7).expect(rt, "memory");
    folder
}

/// Puts one after another, and compares what the file holds.
fn expect_puts(rt: &impl Abort, folder: &mut MemFolder) {
    let mut held: &[u8] = b"as it was";
    for (bytes, succeeds) in PUTS {
        expect_put(rt, folder, "file", bytes, *succeeds);
        if *succeeds {
            held = bytes;
        }
        assert_file(rt, folder, "file", held);
    }
}

#[test]
fn a_put_uses_up_the_first_room_that_holds_it(rt: HostRuntime) {
    let mut folder = folder_with_rooms(&rt);
    expect_puts(&rt, &mut folder);
    // No room of that size, and one of another name.
    expect_put(&rt, &mut folder, "other", TEXT, false);
    expect_put(&rt, &mut folder, "other", b"", true);
    expect_that(&rt, folder.file("third").is_none(), "no such file");
}

/// The room, how much a call takes, the call that fails (0: none), and how much is written.
const WRITES: &[(u64, u64, u64, usize)] = &[
    (100, 100, 0, 17),
    (17, 17, 0, 17),
    (100, 1, 0, 17),
    (100, 1, 1, 0),
    (100, 1, 17, 16),
    (100, 1, 18, 17),
    (100, 5, 3, 10),
    (16, 100, 0, 16),
    (0, 100, 0, 0),
];

/// Whether the text is written whole to a sink of this room that takes so much at a time, and whose call of
/// this number fails, and the sink after it.
fn written(rt: &(impl Abort + AllocGlobal), room: u64, most: u64, fails: u64) -> (bool, MemSink) {
    assert!(rt; most > 0, "a call takes something");
    let mut out = MemSink::new(rt.alloc(), room).expect(rt, "memory");
    out.take_at_most(most);
    out.fail_call(fails).expect(rt, "memory");
    let is_whole = write_whole(&mut out, TEXT).is_ok();
    (is_whole, out)
}

fn expect_written(rt: &(impl Abort + AllocGlobal), room: u64, most: u64, fails: u64, count: usize) {
    let (is_whole, out) = written(rt, room, most, fails);
    let is_front = TEXT.get(..count) == Some(out.bytes());
    assert!(rt;
        is_whole == (count == 17) && is_front,
        "{room} {most} {fails}"
    );
}

#[test]
fn a_text_is_written_whole_or_as_a_prefix(rt: HostRuntime) {
    for (room, most, fails, written) in WRITES {
        expect_written(&rt, *room, *most, *fails, *written);
    }
}

#[test]
fn a_text_is_written_in_several_pieces(rt: HostRuntime) {
    let mut out = MemSink::new(rt.alloc(), 20).expect(&rt, "memory");
    for piece in [&TEXT[..9], &TEXT[9..9], &TEXT[9..]] {
        expect_that(&rt, write_whole(&mut out, piece) == Ok(()), "a piece");
    }
    expect_that(&rt, out.bytes() == TEXT, "the pieces together");
    expect_that(
        &rt,
        write_whole(&mut out, b"four") == Err(Failed),
        "too much",
    );
    expect_that(&rt, out.bytes().len() == 20, "as much as there is room");
}

const FILE: &str = "mz_io_folder_test";

/// Starts to read a file, and compares whether this succeeds.
fn expect_started(rt: &impl Abort, folder: &mut impl Folder, name: &str, succeeds: bool) {
    let is_started = folder.start(name).is_ok();
    assert!(rt; is_started == succeeds, "{name} is started");
}

/// The file that is put is there, whole, until another is put in its place.
fn expect_kept(rt: &(impl Abort + AllocGlobal), folder: &mut impl Folder, bytes: &[u8]) {
    expect_put(rt, folder, FILE, bytes, true);
    expect_read(rt, folder, FILE, 2499, "too long", b"");
    expect_read(rt, folder, FILE, 40_000, "bytes", bytes);
    expect_put(rt, folder, FILE, b"short", true);
    let pulled = folder.pull(&mut [0; 8]);
    expect_that(rt, pulled == Ok(0), "nothing is being read");
    expect_read(rt, folder, FILE, 40_000, "bytes", b"short");
    // Nothing is left beside it.
    expect_started(rt, folder, "mz_io_folder_test.part0", false);
    // What is no file is written as it stands.
    expect_put(rt, folder, "/dev/null", b"short", true);
}

/// The file is gone; a folder is started, but not read; and there is no other folder.
fn expect_gone(rt: &impl Abort, folder: &mut impl Folder) {
    expect_started(rt, folder, FILE, false);
    expect_started(rt, folder, ".", true);
    let pulled = folder.pull(&mut [0; 8]);
    expect_that(rt, pulled == Err(Failed), "a folder isn't read");
    expect_put(rt, folder, "mz_io_no_folder/file", b"short", false);
}

#[test]
fn files_of_the_system(rt: HostRuntime) {
    let bytes = counting(rt.alloc(), 40_000).expect(&rt, "memory");
    let mut folder = DiskFolder::new(&rt);
    expect_kept(&rt, &mut folder, &bytes);
    fs::remove_file(&rt, FILE).expect(&rt, "the file is there");
    expect_gone(&rt, &mut folder);
}

const STREAM: &str = "mz_io_stream_test";

/// Writes the text to a stream, and then nothing.
fn expect_taken(rt: &impl Abort, out: &mut impl Sink) {
    expect_that(rt, write_whole(out, TEXT) == Ok(()), "it is written");
    expect_that(rt, out.write(b"") == Ok(0), "nothing");
}

#[test]
fn streams_of_the_system(rt: HostRuntime) {
    let mut out = StdSink::new(fs::create(&rt, STREAM).expect(&rt, "a new file"));
    expect_taken(&rt, &mut out);
    let text = fs::read_to_string(&rt, STREAM).expect(&rt, "the file");
    expect_that(&rt, text.as_bytes() == TEXT, "what was written");
    // A file that was opened to be read takes nothing.
    let mut closed = StdSink::new(fs::open(&rt, STREAM).expect(&rt, "the file"));
    let more = closed.write(b"more");
    expect_that(&rt, more == Err(Failed), "a file that is read");
    fs::remove_file(&rt, STREAM).expect(&rt, "the file is there");
}
