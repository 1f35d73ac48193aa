//! The adapters over files of the system of which calls of one kind fail: what std's contracts don't say of a file.
use crate::expect::expect_of;
use mz_io::{DiskFolder, Folder, Read, StdSink, read_bounded, write_whole};
use std::alloc::Allocator;
use std::fs::{self, Metadata, OpenFile, OpenOptions};
use std::io::{self, ErrorKind, Seek, SeekFrom, Write};
use std::process::Abort;
use std::rt::Files;

/// Which calls fail.
#[derive(Clone, Copy, PartialEq, Eq)]
enum Failing {
    None,
    /// Each read of a file but the first, as of one that is cut or on a broken disk.
    Read,
    /// Each write to a file behind the third, as on a full disk.
    Write,
    Flush,
    Sync,
    /// A file that is to be renamed has vanished.
    Rename,
}

/// The files of the system, of which some calls fail. They take a byte at a time.
#[derive(Drop)]
struct FailingFiles<R> {
    rt: R,
    failing: Failing,
}

#[derive(Drop)]
struct FailingFile<F> {
    inner: F,
    failing: Failing,
    reads: u64,
    writes: u64,
}

/// An error, where calls of this kind fail.
fn fails(failing: Failing, call: Failing) -> io::Result<()> {
    if failing == call {
        return Err(io::Error::from(ErrorKind::Other));
    }
    Ok(())
}

impl<R: Files> Files for FailingFiles<R> {
    type File = FailingFile<R::File>;

    type Dir = R::Dir;

    fn open_file(&self, how: &OpenOptions, path: &str) -> io::Result<FailingFile<R::File>> {
        let inner = self.rt.open_file(how, path)?;
        Ok(FailingFile {
            inner,
            failing: self.failing,
            reads: 0,
            writes: 0,
        })
    }

    fn open_dir(&self, path: &str) -> io::Result<R::Dir> {
        self.rt.open_dir(path)
    }

    fn metadata(&self, path: &str) -> io::Result<Metadata> {
        self.rt.metadata(path)
    }

    fn symlink_metadata(&self, path: &str) -> io::Result<Metadata> {
        self.rt.symlink_metadata(path)
    }

    fn copy(&self, from: &str, to: &str) -> io::Result<u64> {
        self.rt.copy(from, to)
    }

    fn rename(&self, from: &str, to: &str) -> io::Result<()> {
        fails(self.failing, Failing::Rename)?;
        self.rt.rename(from, to)
    }

    fn remove_file(&self, path: &str) -> io::Result<()> {
        self.rt.remove_file(path)
    }

    fn create_dir(&self, path: &str) -> io::Result<()> {
        self.rt.create_dir(path)
    }

    fn remove_dir(&self, path: &str) -> io::Result<()> {
        self.rt.remove_dir(path)
    }

    fn remove_dir_all<B: Allocator>(&self, alloc: B, path: &str) -> io::Result<()> {
        self.rt.remove_dir_all(alloc, path)
    }
}

impl<F: io::Read> io::Read for FailingFile<F> {
    fn read(&mut self, buf: &mut [u8]) -> io::Result<usize> {
        if self.reads > 0 {
            fails(self.failing, Failing::Read)?;
        }
        self.reads = self.reads.saturating_add(1);
        self.inner.read(buf)
    }
}

impl<F: Write> Write for FailingFile<F> {
    fn write(&mut self, buf: &[u8]) -> io::Result<usize> {
        if self.writes > 2 {
            fails(self.failing, Failing::Write)?;
        }
        self.writes = self.writes.saturating_add(1);
        self.inner.write(&buf[..buf.len().min(1)])
    }

    fn flush(&mut self) -> io::Result<()> {
        fails(self.failing, Failing::Flush)?;
        self.inner.flush()
    }
}

impl<F: Seek> Seek for FailingFile<F> {
    fn seek(&mut self, to: SeekFrom) -> io::Result<u64> {
        self.inner.seek(to)
    }
}

impl<F: OpenFile> OpenFile for FailingFile<F> {
    fn metadata(&self) -> io::Result<Metadata> {
        self.inner.metadata()
    }

    fn set_len(&self, size: u64) -> io::Result<()> {
        self.inner.set_len(size)
    }

    fn sync_all(&self) -> io::Result<()> {
        fails(self.failing, Failing::Sync)?;
        self.inner.sync_all()
    }

    fn sync_data(&self) -> io::Result<()> {
        self.inner.sync_data()
    }
}

const FILE: &str = "mz_io_failing_test";

const BESIDE: &str = "mz_io_failing_test.part0";

/// What fails, what it is called, and whether a put succeeds all the same.
const PUTS: &[(Failing, &str, bool)] = &[
    (Failing::None, "no call", true),
    (Failing::Read, "a read", true),
    (Failing::Write, "a full disk", false),
    (Failing::Sync, "what isn't kept", false),
    (Failing::Rename, "a file that vanishes", false),
];

/// A file that isn't put whole is as it was, and nothing is left beside it.
fn expect_put(
    rt: &(impl Abort + AllocGlobal + Files),
    failing: Failing,
    what: &str,
    succeeds: bool,
) {
    fs::write(rt, FILE, "as it was").expect(rt, "a new file");
    let mut folder = DiskFolder::new((FailingFiles { rt, failing }, rt.alloc()));
    let is_put = folder.put(FILE, b"other bytes").is_ok();
    expect_of(rt, is_put == succeeds, "the put", what);
    let held = fs::read_to_string(rt, FILE).expect(rt, "the file");
    let wanted = if succeeds { "other bytes" } else { "as it was" };
    expect_of(rt, held.as_str() == wanted, "the file", what);
    let is_beside = folder.start(BESIDE).is_ok();
    expect_of(rt, !is_beside, "nothing beside", what);
    fs::remove_file(rt, FILE).expect(rt, "the file");
}

#[test]
fn a_put_that_fails_leaves_the_file(rt: HostRuntime) {
    for (failing, what, succeeds) in PUTS {
        expect_put(&rt, *failing, what, *succeeds);
    }
}

/// What can't be written: a full disk, and a folder.
const UNWRITABLE: &[&str] = &["/dev/full", "."];

#[test]
fn what_the_system_refuses_is_not_put(rt: HostRuntime) {
    let mut folder = DiskFolder::new(&rt);
    for name in UNWRITABLE {
        expect_of(&rt, folder.put(name, b"short").is_err(), "the put", name);
    }
}

#[test]
fn a_read_that_fails_is_not_the_end(rt: HostRuntime) {
    const NAME: &str = "mz_io_cut_test";
    fs::write(&rt, NAME, "read in part").expect(&rt, "a new file");
    let files = FailingFiles {
        rt: &rt,
        failing: Failing::Read,
    };
    let mut folder = DiskFolder::new((files, rt.alloc()));
    let read = read_bounded(rt.alloc(), &mut folder, NAME, 50_000);
    expect_of(&rt, matches!(read, Read::Fault), "a fault", NAME);
    fs::remove_file(&rt, NAME).expect(&rt, "the file");
}

const TEXT: &str = "accepted: 1 sorts";

/// What fails, what it is called, and how many bytes of the text the stream is given.
const WRITES: &[(Failing, &str, usize)] = &[
    (Failing::None, "a byte at a time", 17),
    (Failing::Write, "a full disk", 3),
    (Failing::Flush, "a stream that isn't flushed", 1),
];

/// A text is written whole, or it fails and a prefix of it is.
fn expect_written(
    rt: &(impl Abort + AllocGlobal + Files),
    failing: Failing,
    what: &str,
    count: usize,
) {
    const NAME: &str = "mz_io_short_test";
    let files = FailingFiles { rt, failing };
    let mut out = StdSink::new(fs::create(&files, NAME).expect(rt, "a new file"));
    let is_whole = write_whole(&mut out, TEXT.as_bytes()).is_ok();
    expect_of(rt, is_whole == (count == TEXT.len()), "the answer", what);
    let held = fs::read_to_string(rt, NAME).expect(rt, "the file");
    expect_of(
        rt,
        Some(held.as_str()) == TEXT.get(..count),
        "a front",
        what,
    );
    fs::remove_file(rt, NAME).expect(rt, "the file");
}

#[test]
fn a_short_write_is_no_whole_one(rt: HostRuntime) {
    for (failing, what, count) in WRITES {
        expect_written(&rt, *failing, what, *count);
    }
}
