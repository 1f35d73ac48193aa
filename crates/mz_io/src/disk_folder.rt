//! The files of the system: a thin adapter, which tells its calls, and nothing of content.
ghost use Rattle.std.specs.Prelude.{◌≡◌, ◌≤◌, [], length, IfOk, OnOk};
ghost use Rattle.std.specs.Io.KnownBytes.{Appends};
ghost use Rattle.mz_io.specs.Outside.{HasCause};
ghost use Rattle.mz_io.specs.Streams.{IsPulled, left_of};

use crate::log::{Log, Note};
use crate::{Failed, Folder};
use std::fs::{self, File, OpenFile};
use std::io::{self, ErrorKind, Read, Write};
use std::rt::Files;

/// The files of the system, by their paths.
///
/// Each `Err` of the system is a failure, whatever its cause, and is counted.
#[derive(Drop)]
pub struct DiskFolder<R: Files + Alloc> {
    rt: R,
    started: Option<R::File>,
    faults: u64,
    put_faults: u64,
    log: Log,
}

impl<R: Files + Alloc> DiskFolder<R> {
    /// The files of the system, of which none is started.
    pub fn new(rt: R) -> DiskFolder<R>
        ensures faults { result.faults ≡ 0 }
        ensures put_faults { result.put_faults ≡ 0 }
        ensures calls { result.log.calls ≡ [] }
    {
        DiskFolder {
            rt,
            started: None,
            faults: 0,
            put_faults: 0,
            log: Log::new(),
        }
    }

    /// Has the system open the file, or counts a fault.
    fn open(&mut self, name: &str) -> Result<(), Failed>
        ensures cause { HasCause self.old.faults self.new.faults result }
        ensures put_faults { self.new.put_faults ≡ self.old.put_faults }
        ensures log { self.new.log ≡ self.old.log }
    {
        match fs::open(&self.rt, name) {
            Ok(file) => {
                self.started = Some(file);
                Ok(())
            }
            Err(_) => {
                self.started = None;
                self.faults = self.faults.saturating_add(1);
                Err(Failed)
            }
        }
    }

    /// Has the system read from the started file, or counts a fault.
    fn read(&mut self, buf: &mut [u8]) -> Result<usize, Failed>
        ensures bound { IfOk result (λ n. n ≤ length buf.new) }
        ensures bytes { IsPulled (left_of R.File.remaining self.old.started) (left_of R.File.remaining self.new.started) result buf.new }
        ensures cause { HasCause self.old.faults self.new.faults result }
        ensures put_faults { self.new.put_faults ≡ self.old.put_faults }
        ensures log { self.new.log ≡ self.old.log }
    {
        let Some(file) = &mut self.started else {
            return Ok(0);
        };
        match file.read(buf) {
            Ok(count) => Ok(count),
            Err(_) => {
                self.started = None;
                self.faults = self.faults.saturating_add(1);
                Err(Failed)
            }
        }
    }
}

/// How many names are tried for the file that is written beside another.
const MOST_NAMES: u32 = 1_000;

/// A new file beside the one of this name, with its own name. One that is there already is left as
/// it is.
fn create_beside<R: Files + Alloc>(rt: &R, name: &str) -> io::Result<(String<R::A>, R::File)> {
    for i in 0..MOST_NAMES {
        let beside = format!(in rt.alloc(); "{name}.part{i}")?;
        match File::create_new(rt, beside.as_str()) {
            Ok(file) => return Ok((beside, file)),
            Err(error) if error.kind() == ErrorKind::AlreadyExists => {}
            Err(error) => return Err(error),
        }
    }
    Err(io::Error::from(ErrorKind::AlreadyExists))
}

/// Writes all bytes behind what the file holds, and has the system keep them.
fn fill<F: Write + OpenFile>(file: &mut F, bytes: &[u8]) -> io::Result<()>
    ensures { OnOk result (Appends (F.contents file.old) (F.contents file.new) bytes.now) }
{
    file.write_all(bytes)?;
    file.sync_all()
}

/// Puts a new file, once it is whole, in the place of the one of this name. After an error nothing of
/// it is left.
fn replace<R: Files + Alloc>(rt: &R, name: &str, bytes: &[u8]) -> io::Result<()> {
    let (beside, mut file) = create_beside(rt, name)?;
    let mut done = fill(&mut file, bytes);
    drop(file);
    if done.is_ok() {
        done = fs::rename(rt, beside.as_str(), name);
    }
    if done.is_err() {
        let _ = fs::remove_file(rt, beside.as_str());
    }
    done
}

/// Whether something other than a file stands under the name, as a terminal or a link, which is
/// written to and not replaced.
fn is_other<R: Files>(rt: &R, name: &str) -> bool {
    match fs::symlink_metadata(rt, name) {
        Ok(found) => !found.is_file(),
        Err(_) => false,
    }
}

/// Writes a whole file, in place of one that is there.
fn put_whole<R: Files + Alloc>(rt: &R, name: &str, bytes: &[u8]) -> io::Result<()> {
    if is_other(rt, name) {
        fs::write(rt, name, bytes)
    } else {
        replace(rt, name, bytes)
    }
}

impl<R: Files + Alloc> Folder for DiskFolder<R> {
    ghost use Rattle.std.specs.Prelude.{[], None};

    ghost calls = { λ folder. folder.log.calls };

    ghost told = { ⊥ };

    ghost file = { λ _ _. None };

    ghost left = { λ _. [] };

    ghost faults = { λ folder. folder.faults };

    ghost put_faults = { λ folder. folder.put_faults };

    ghost is_clear = { λ _. ⊥ };

    ghost rooms = { λ _. [] };

    ghost clear_tells = { λ d clear. clear };

    fn start(&mut self, name: &str) -> Result<(), Failed> {
        let done = self.open(name);
        self.log.note(&Note::Start(name, done.is_ok()));
        done
    }

    fn pull(&mut self, buf: &mut [u8]) -> Result<usize, Failed> {
        match self.read(buf) {
            Ok(count) => {
                self.log.note(&Note::Pull(buf.len(), &buf[..count]));
                Ok(count)
            }
            Err(_) => {
                self.log.note(&Note::PullFails);
                Err(Failed)
            }
        }
    }

    fn put(&mut self, name: &str, bytes: &[u8]) -> Result<(), Failed> {
        self.started = None;
        let done = put_whole(&self.rt, name, bytes);
        self.log.note(&Note::Put(name, bytes, done.is_ok()));
        match done {
            Ok(()) => Ok(()),
            Err(_) => {
                self.put_faults = self.put_faults.saturating_add(1);
                Err(Failed)
            }
        }
    }
}
