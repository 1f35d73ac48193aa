// Each command over a folder that gives one byte at a time, and an output that takes one.
ghost use Rattle.std.specs.Prelude.{◌≡◌};

use crate::expect::expect_of;
use crate::failing::{RUNS, assert_files, smallest};
use crate::runs::words_of;
use mz_io::{Failed, Folder, Log, MemFolder, MemSink, Note};
use mz_store::Seed;
use mz_tool::{Status, run};
use std::process::Abort;

/// A folder in memory that gives one byte at a time. It tells nothing of its files.
#[derive(Drop)]
struct SlowFolder {
    folder: MemFolder,
    faults: u64,
    put_faults: u64,
    log: Log,
}

impl Folder for SlowFolder {
    ghost use Rattle.std.specs.Prelude.{[], None};

    ghost calls = { λ folder. folder.log.calls };

    ghost told = { ⊥ };

    ghost file = { λ _ _. None };

    ghost left = { λ _. [] };

    ghost faults = { λ folder. folder.faults };

    ghost put_faults = { λ folder. folder.put_faults };

    ghost is_clear = { λ _. ⊥ };

    ghost rooms = { λ _. [] };

    ghost clear_tells = { λ d clear. clear };

    fn start(&mut self, name: &str) -> Result<(), Failed> {
        let done = self.folder.start(name);
        self.log.note(&Note::Start(name, done.is_ok()));
        match done {
            Ok(()) => Ok(()),
            Err(_) => {
                self.faults = self.faults.saturating_add(1);
                Err(Failed)
            }
        }
    }

    fn pull(&mut self, buf: &mut [u8]) -> Result<usize, Failed> {
        let mut one = [0u8];
        if buf.is_empty() {
            self.log.note(&Note::Pull(buf.len(), &buf[..0]));
            return Ok(0);
        }
        match self.folder.pull(&mut one) {
            Ok(0) => {
                self.log.note(&Note::Pull(buf.len(), &buf[..0]));
                Ok(0)
            }
            Ok(_) => {
                buf[0] = one[0];
                self.log.note(&Note::Pull(buf.len(), &buf[..1]));
                Ok(1)
            }
            Err(_) => {
                self.log.note(&Note::PullFails);
                self.faults = self.faults.saturating_add(1);
                Err(Failed)
            }
        }
    }

    fn put(&mut self, name: &str, bytes: &[u8]) -> Result<(), Failed> {
        let done = self.folder.put(name, bytes);
        self.log.note(&Note::Put(name, bytes, done.is_ok()));
        match done {
            Ok(()) => Ok(()),
            Err(_) => {
                self.put_faults = self.put_faults.saturating_add(1);
                Err(Failed)
            }
        }
    }
}

/// Runs a command over the smallest files where they are given, and the output taken, byte by byte.
fn expect_slow(rt: &(impl Abort + AllocGlobal), line: &str, is_put: bool, text: &str) {
    let mut slow = SlowFolder {
        folder: smallest(rt),
        faults: 0,
        put_faults: 0,
        log: Log::new(),
    };
    let mut out = MemSink::new(rt.alloc(), 200).expect(rt, "memory");
    out.take_at_most(1);
    let words = words_of(rt.alloc(), line).expect(rt, "memory");
    let status = run(rt.alloc(), Seed::FIXED, &words, &mut slow, &mut out);
    expect_of(rt, status == Status::Done, "the status", line);
    expect_of(rt, out.bytes() == text.as_bytes(), "the text", line);
    assert_files(rt, &slow.folder, is_put, line);
}

#[test]
fn one_byte_at_a_time(rt: HostRuntime) {
    for (line, _, puts, text) in RUNS {
        expect_slow(&rt, line, *puts > 0, text);
    }
}
