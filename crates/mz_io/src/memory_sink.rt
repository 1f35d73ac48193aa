//! A sink in memory, whose calls fail as listed: what the program prints in its tests.
ghost use Rattle.std.specs.Prelude.{◌≡◌, ◌≤◌, ◌+◌, ◌-◌, ◌<◌, ◌^◌, ◌++◌, ◌∷◌, [], ℕ, OnOk, OnErr, IfOk, length, vec_len, vec_capacity};
ghost use Rattle.mz_io.specs.Calls.{taken};

use crate::log::{Log, Note};
use crate::plan::Plan;
use crate::{Failed, Sink};
use std::alloc::{AllocError, Global};

/// A sink in memory.
///
/// It counts its trait calls from 1 and fails those that are listed, and a piece for which no room
/// is left, and no other. Memory is taken by its own calls alone: `new` makes the whole room.
#[derive(Drop)]
pub struct MemSink {
    bytes: Vec<u8>,
    room: usize,
    most: usize,
    plan: Plan,
    faults: u64,
    log: Log,
    // What room is left needs no more memory.
    ghost spare: { vec_len bytes + room ≤ vec_capacity bytes },
    ghost takes: { 0 < most },
    // It holds what its calls took.
    ghost holds: { bytes.items ≡ taken log.calls },
}

impl MemSink {
    ghost use Rattle.mz_io.specs.MemSink.{written as written_in, room as room_in, most as most_in, SameContents, SameCalls};

    /// An empty sink that takes `room` bytes, and of which no call is listed to fail.
    pub fn new(alloc: Global, room: u64) -> Result<MemSink, AllocError>
        ensures bytes { IfOk result (λ sink. written_in sink ≡ []) }
        ensures room { IfOk result (λ sink. room_in sink ≡ room) }
        ensures most { IfOk result (λ sink. most_in sink ≡ 2 ^ 64 - 1) }
        ensures calls { IfOk result (λ sink. sink.plan.calls ≡ 0) }
        ensures listed { IfOk result (λ sink. sink.plan.listed.items ≡ []) }
        ensures faults { IfOk result (λ sink. sink.faults ≡ 0) }
        ensures log { IfOk result (λ sink. sink.log.calls ≡ []) }
    {
        let bytes = Vec::with_capacity(alloc, room as usize)?;
        Ok(MemSink {
            bytes,
            room: room as usize,
            most: usize::MAX,
            plan: Plan::new(alloc),
            faults: 0,
            log: Log::new(),
        })
    }

    /// The bytes written so far.
    pub fn bytes(&self) -> &[u8]
        ensures { result.now ≡ written_in self.now }
    {
        &self.bytes
    }

    /// Lists a trait call that is to fail. They are counted from 1.
    pub fn fail_call(&mut self, number: u64) -> Result<(), AllocError>
        ensures ok { OnOk result (self.new.plan.listed.items ≡ self.old.plan.listed.items ++ number ∷ []) }
        ensures number { self.new.plan.calls ≡ self.old.plan.calls }
        ensures contents { SameContents self.old self.new }
        ensures faults { self.new.faults ≡ self.old.faults }
        ensures err { OnErr result (SameCalls self.old self.new) }
    {
        self.plan.list(number)
    }

    /// From now on a call takes at most `count` bytes.
    pub fn take_at_most(&mut self, count: u64)
        requires { 0 < count }
        ensures most { most_in self.new ≡ count }
        ensures bytes { written_in self.new ≡ written_in self.old }
        ensures room { room_in self.new ≡ room_in self.old }
        ensures calls { SameCalls self.old self.new }
    {
        self.most = count as usize;
    }
}

impl Sink for MemSink {
    ghost use Rattle.mz_io.specs.Calls.{written as write_of};
    ghost use Rattle.std.specs.Prelude.{⊤, ◌↔◌, ◌⊎◌, min, IsErr};
    ghost use Rattle.mz_io.specs.Outside.{HasCause, Appends};
    ghost use Rattle.mz_io.specs.MemSink.{written as written_in, room as room_in, most as most_in, NextIsListed};
    ghost use Rattle.mz_io.specs.Plan.{IsClear, CountsCall};

    ghost calls = { λ sink. sink.log.calls };

    ghost told = { ⊤ };

    ghost written = { written_in };

    ghost faults = { λ sink. sink.faults };

    ghost is_clear = { λ sink. IsClear sink.plan };

    ghost room = { room_in };

    ghost tells = { λ told sink. sink.holds };

    fn write(&mut self, piece: &[u8]) -> Result<usize, Failed>
        ensures logged { self.new.log.calls ≡ self.old.log.calls ++ write_of result piece.now ∷ [] }

        // It fails exactly where the call is listed, or no room is left for a piece that isn't empty.
        ensures fails { IsErr result ↔ (NextIsListed self.old ⊎ ((0 < length piece.now) × (room_in self.old ≡ 0))) }
        ensures calls { CountsCall self.old.plan self.new.plan }
        ensures count { IfOk result (λ n. n ≡ min (min (length piece.now) (room_in self.old)) (most_in self.old)) }
        ensures some { IfOk result (λ n. 0 < length piece.now → 0 < n) }
        ensures most { most_in self.new ≡ most_in self.old }
        ensures bytes { Appends (written_in self.old) (written_in self.new) result piece.now }
        ensures lessens { IfOk result (λ n. room_in self.new + n ≡ room_in self.old) }
        ensures keeps { OnErr result (room_in self.new ≡ room_in self.old) }
        ensures cause { HasCause self.old.faults self.new.faults result }
        ensures ok_counts_nothing { OnOk result (self.new.faults ≡ self.old.faults) }
        ensures stays_clear { IsClear self.old.plan → IsClear self.new.plan }
        ensures only_full { IsClear self.old.plan → (0 < length piece.now → 0 < room_in self.old) → self.new.faults ≡ self.old.faults }
    {
        let fails = self.plan.fails_next();
        let count = piece.len().min(self.room).min(self.most);
        if fails || (count == 0 && !piece.is_empty()) {
            self.faults = self.faults.saturating_add(1);
            self.log.note(&Note::WriteFails(piece));
            return Err(Failed);
        }
        match self.bytes.extend_from_slice(&piece[..count]) {
            Ok(()) => {
                self.room -= count;
                self.log.note(&Note::Write(&piece[..count]));
                Ok(count)
            }
            Err(_) => unreachable!(),
        }
    }
}
