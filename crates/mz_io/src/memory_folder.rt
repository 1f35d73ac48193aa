//! A folder in memory, whose calls fail as listed: the program's outside in its tests.
ghost use Rattle.std.specs.Prelude.{◌≡◌, ◌≤◌, ◌+◌, ◌<◌, ◌++◌, ◌∷◌, [], ℕ, Some, OnOk, OnErr, option_copied, vec_len, vec_capacity};

use crate::entry::{Entry, copy_front, left, place_of, store};
use crate::log::{Log, Note};
use crate::plan::Plan;
use crate::room::Room;
use crate::rooms::serving_place;
use crate::{Failed, Folder};
use std::alloc::{AllocError, Global};

/// A folder in memory.
///
/// It counts its trait calls from 1 and fails those that are listed, a `start` of a name that isn't
/// there and a `put` for which no room was made, and no other. Memory is taken by its own calls
/// alone: a `put` fills a room.
#[derive(Drop)]
pub struct MemFolder {
    alloc: Global,
    files: Vec<Entry>,
    rooms: Vec<Room>,
    started: Option<usize>,
    offset: usize,
    plan: Plan,
    faults: u64,
    put_faults: u64,
    log: Log,
    // Each room can become a file without more memory.
    ghost spare: { vec_len files + vec_len rooms ≤ vec_capacity files },
}

impl MemFolder {
    ghost use Rattle.std.specs.Prelude.{List, None};
    ghost use Rattle.mz_io.specs.Outside.{SameFiles, SameOthers};
    ghost use Rattle.mz_io.specs.MemFolder.{file as file_in, left as left_in, rooms as rooms_in, SameContents, SameCalls, IsUnchanged};

    /// An empty folder, of which no call is listed to fail.
    pub fn new(alloc: Global) -> MemFolder
        ensures files { (name : List ℕ) → file_in result name ≡ None }
        ensures left { left_in result ≡ [] }
        ensures rooms { rooms_in result ≡ [] }
        ensures calls { result.plan.calls ≡ 0 }
        ensures listed { result.plan.listed.items ≡ [] }
        ensures faults { result.faults ≡ 0 }
        ensures put_faults { result.put_faults ≡ 0 }
        ensures log { result.log.calls ≡ [] }
    {
        MemFolder {
            alloc,
            files: Vec::new(alloc),
            rooms: Vec::new(alloc),
            started: None,
            offset: 0,
            plan: Plan::new(alloc),
            faults: 0,
            put_faults: 0,
            log: Log::new(),
        }
    }

    /// Adds a file, or gives a file other bytes. Nothing is started then.
    pub fn add(&mut self, name: &str, bytes: &[u8]) -> Result<(), AllocError>
        ensures ok { OnOk result (file_in self.new name.now ≡ Some bytes.now) }
        ensures others { SameOthers name.now (file_in self.old) (file_in self.new) }
        ensures stopped { OnOk result (left_in self.new ≡ []) }
        ensures rooms { rooms_in self.new ≡ rooms_in self.old }
        ensures calls { SameCalls self.old self.new }
        ensures err { OnErr result (SameContents self.old self.new) }
    {
        let file = Entry {
            name: String::from_str(self.alloc, name)?,
            bytes: bytes.to_vec(self.alloc)?,
        };
        let more = self.rooms.len() + 1;
        self.files.reserve(more)?;
        store(&mut self.files, file);
        self.started = None;
        Ok(())
    }

    /// Makes room for one later `put` of at most `size` bytes under this name, whether the file is
    /// there or not.
    pub fn room(&mut self, name: &str, size: u64) -> Result<(), AllocError>
        ensures ok { OnOk result (rooms_in self.new ≡ rooms_in self.old ++ (name.now, size) ∷ []) }
        ensures files { SameFiles (file_in self.old) (file_in self.new) }
        ensures left { left_in self.new ≡ left_in self.old }
        ensures calls { SameCalls self.old self.new }
        ensures err { OnErr result (rooms_in self.new ≡ rooms_in self.old) }
    {
        let room = Room::new(self.alloc, name, size as usize)?;
        let more = self.rooms.len() + 1;
        self.files.reserve(more)?;
        self.rooms.push(room)?;
        Ok(())
    }

    /// The bytes of a file, and `None` exactly where there is no such file.
    pub fn file(&self, name: &str) -> Option<&[u8]>
        ensures { option_copied result ≡ file_in self.now name.now }
    {
        match place_of(&self.files, name) {
            Some(i) => Some(self.files[i].bytes.as_slice()),
            None => None,
        }
    }

    /// Lists a trait call that is to fail. They are counted from 1.
    pub fn fail_call(&mut self, number: u64) -> Result<(), AllocError>
        ensures ok { OnOk result (self.new.plan.listed.items ≡ self.old.plan.listed.items ++ number ∷ []) }
        ensures number { self.new.plan.calls ≡ self.old.plan.calls }
        ensures contents { SameContents self.old self.new }
        ensures faults { self.new.faults ≡ self.old.faults }
        ensures put_faults { self.new.put_faults ≡ self.old.put_faults }
        ensures err { OnErr result (SameCalls self.old self.new) }
    {
        self.plan.list(number)
    }
}

impl Folder for MemFolder {
    ghost use Rattle.mz_io.specs.Calls.{starts, puts, pulled};
    ghost use Rattle.std.specs.Prelude.{⊤, ◌↔◌, ◌⊎◌, length, IsErr, IsNone, IsSome, IfOk, is_ok, if◌then◌else◌};
    ghost use Rattle.mz_io.specs.Outside.{HasCause, SameFiles, SameOthers, Pulls, HasRoom, serves, without_first};
    ghost use Rattle.mz_io.specs.MemFolder.{file as file_in, left as left_in, rooms as rooms_in, NextIsListed};
    ghost use Rattle.mz_io.specs.Plan.{IsClear, CountsCall};

    ghost calls = { λ folder. folder.log.calls };

    ghost told = { ⊤ };

    ghost file = { file_in };

    ghost left = { left_in };

    ghost faults = { λ folder. folder.faults };

    ghost put_faults = { λ folder. folder.put_faults };

    ghost is_clear = { λ folder. IsClear folder.plan };

    ghost rooms = { rooms_in };

    ghost clear_tells = { λ folder clear. tt };

    fn start(&mut self, name: &str) -> Result<(), Failed>
        ensures logged { self.new.log.calls ≡ self.old.log.calls ++ starts name.now (is_ok result) ∷ [] }

        // It fails exactly where the call is listed, or no file has the name.
        ensures fails { IsErr result ↔ (NextIsListed self.old ⊎ IsNone (file_in self.old name.now)) }
        ensures calls { CountsCall self.old.plan self.new.plan }
        ensures started { OnOk result (file_in self.old name.now ≡ Some (left_in self.new)) }
        ensures stopped { OnErr result (left_in self.new ≡ []) }
        ensures files { SameFiles (file_in self.old) (file_in self.new) }
        ensures rooms { rooms_in self.new ≡ rooms_in self.old }
        ensures cause { HasCause self.old.faults self.new.faults result }
        ensures ok_counts_nothing { OnOk result (self.new.faults ≡ self.old.faults) }
        ensures put_faults { self.new.put_faults ≡ self.old.put_faults }
        ensures stays_clear { IsClear self.old.plan → IsClear self.new.plan }
        ensures only_missing { IsClear self.old.plan → IsSome (file_in self.old name.now) → self.new.faults ≡ self.old.faults }
    {
        let fails = self.plan.fails_next();
        self.offset = 0;
        self.started = place_of(&self.files, name);
        if fails || self.started.is_none() {
            self.started = None;
            self.faults = self.faults.saturating_add(1);
            self.log.note(&Note::Start(name, false));
            return Err(Failed);
        }
        self.log.note(&Note::Start(name, true));
        Ok(())
    }

    fn pull(&mut self, buf: &mut [u8]) -> Result<usize, Failed>
        ensures logged { self.new.log.calls ≡ self.old.log.calls ++ pulled result buf.new ∷ [] }

        // It fails exactly where the call is listed.
        ensures fails { IsErr result ↔ NextIsListed self.old }
        ensures calls { CountsCall self.old.plan self.new.plan }
        ensures bound { IfOk result (λ n. n ≤ length buf.new) }
        ensures bytes { Pulls (left_in self.old) (left_in self.new) result buf.new }
        ensures files { SameFiles (file_in self.old) (file_in self.new) }
        ensures rooms { rooms_in self.new ≡ rooms_in self.old }
        ensures cause { HasCause self.old.faults self.new.faults result }
        ensures ok_counts_nothing { OnOk result (self.new.faults ≡ self.old.faults) }
        ensures put_faults { self.new.put_faults ≡ self.old.put_faults }
        ensures stays_clear { IsClear self.old.plan → IsClear self.new.plan }
        ensures never { IsClear self.old.plan → self.new.faults ≡ self.old.faults }
    {
        if self.plan.fails_next() {
            self.started = None;
            self.faults = self.faults.saturating_add(1);
            self.log.note(&Note::PullFails);
            return Err(Failed);
        }
        let taken = copy_front(left(&self.files, self.started, self.offset), buf);
        self.offset = self.offset.saturating_add(taken);
        self.log.note(&Note::Pull(buf.len(), &buf[..taken]));
        Ok(taken)
    }

    fn put(&mut self, name: &str, bytes: &[u8]) -> Result<(), Failed>
        ensures logged { self.new.log.calls ≡ self.old.log.calls ++ puts name.now bytes.now (is_ok result) ∷ [] }

        // It fails exactly where the call is listed, or no room of the name holds the bytes.
        ensures fails { IsErr result ↔ (NextIsListed self.old ⊎ (HasRoom (rooms_in self.old) name.now (length bytes.now) → ⊥)) }
        ensures calls { CountsCall self.old.plan self.new.plan }
        ensures put { OnOk result (file_in self.new name.now ≡ Some bytes.now) }
        ensures others { SameOthers name.now (file_in self.old) (file_in self.new) }
        ensures kept { OnErr result (SameFiles (file_in self.old) (file_in self.new)) }
        ensures stopped { left_in self.new ≡ [] }
        ensures rooms { rooms_in self.new
            ≡ (if is_ok result then without_first (serves name.now (length bytes.now)) (rooms_in self.old) else rooms_in self.old) }
        ensures cause { HasCause self.old.put_faults self.new.put_faults result }
        ensures ok_counts_nothing { OnOk result (self.new.put_faults ≡ self.old.put_faults) }
        ensures faults { self.new.faults ≡ self.old.faults }
        ensures stays_clear { IsClear self.old.plan → IsClear self.new.plan }
        ensures only_room { IsClear self.old.plan → HasRoom (rooms_in self.old) name.now (length bytes.now) → self.new.put_faults ≡ self.old.put_faults }
    {
        let fails = self.plan.fails_next();
        self.started = None;
        match serving_place(&self.rooms, name, bytes.len()) {
            Some(i) if !fails => {
                let room = self.rooms.remove(i);
                store(&mut self.files, room.filled(bytes));
                self.log.note(&Note::Put(name, bytes, true));
                Ok(())
            }
            _ => {
                self.put_faults = self.put_faults.saturating_add(1);
                self.log.note(&Note::Put(name, bytes, false));
                Err(Failed)
            }
        }
    }
}
