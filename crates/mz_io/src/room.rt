//! A place for a file to come, made before its bytes are known.
ghost use Rattle.std.specs.Prelude.{◌≡◌, ◌≤◌, [], ℕ, List, length, map, string_bytes, vec_capacity, vec_len, IfOk};

use crate::entry::Entry;
use std::alloc::{AllocError, Global};

/// The memory for one file of at most `size` bytes under a name.
#[derive(Drop)]
pub struct Room {
    pub name: String,
    pub size: usize,
    pub bytes: Vec<u8>,
    ghost holds: { size ≤ vec_capacity bytes },
    ghost empty: { bytes.items ≡ [] },
}

impl Room {
    /// Makes the memory for the file and for its name.
    pub fn new(alloc: Global, name: &str, size: usize) -> Result<Room, AllocError>
        ensures name { IfOk result (λ room. string_bytes room.name ≡ name.now) }
        ensures size { IfOk result (λ room. room.size ≡ size) }
    {
        let name = String::from_str(alloc, name)?;
        let bytes = Vec::with_capacity(alloc, size)?;
        Ok(Room { name, size, bytes })
    }

    /// The file that fills the room.
    pub fn filled(self, bytes: &[u8]) -> Entry
        requires { length bytes.now ≤ self.size }
        ensures name { result.name ≡ self.name }
        ensures bytes { result.bytes.items ≡ bytes.now }
    {
        let Room {
            name,
            size: _,
            bytes: mut held,
        } = self;
        match held.extend_from_slice(bytes) {
            Ok(()) => Entry { name, bytes: held },
            Err(_) => unreachable!(),
        }
    }
}
