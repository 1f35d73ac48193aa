//! The rooms of a folder in memory: which of them a file goes into.
ghost use Rattle.std.specs.Prelude.{◌≡◌, ◌<◌, ◌≤◌, ℕ, length, IfSome, IfNone, slice_index_or, remove, position, string_bytes};
ghost use Rattle.mz_io.specs.Memory.{rooms_of, room_view};
ghost use Rattle.mz_io.specs.declared.room.Room.{Room};
ghost use Rattle.mz_io.specs.Outside.{serves, without_first, HasRoom};

use crate::room::Room;

fn first_place(rooms: &[Room], name: &str, size: usize) -> Option<usize>
    ensures { result ≡ position (λ room. serves name.now size (room_view room)) rooms.now }
{
    rooms
        .iter()
        .position(|room| room.name.as_str() == name && size <= room.size)
}

/// The place of the first room of this name that holds so many bytes.
pub fn serving_place(rooms: &[Room], name: &str, size: usize) -> Option<usize>
    ensures serves { IfSome result (λ i. (i < length rooms.now) × ((d : Room) → (string_bytes (slice_index_or rooms.now i d).name ≡ name.now) × (size ≤ (slice_index_or rooms.now i d).size))) }
    ensures after { IfSome result (λ i. rooms_of (remove rooms.now i) ≡ without_first (serves name.now size) (rooms_of rooms.now)) }
    ensures some { IfSome result (λ _. HasRoom (rooms_of rooms.now) name.now size) }
    ensures none { IfNone result (HasRoom (rooms_of rooms.now) name.now size → ⊥) }
{
    first_place(rooms, name, size)
}
