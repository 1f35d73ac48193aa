//! The files of a folder in memory, and how far the started one is read.
ghost use Rattle.std.specs.Prelude.{◌≡◌, ◌≤◌, ◌<◌, ◌+◌, ◌^◌, min, ℕ, Option, Some, length, take, position, string_bytes, vec_len, vec_capacity};
ghost use Rattle.mz_io.specs.Memory.{is_named, file_of, left_at};
ghost use Rattle.mz_io.specs.Outside.{SameOthers};

/// A file: its name and what it holds.
#[derive(Drop)]
pub struct Entry {
    pub name: String,
    pub bytes: Vec<u8>,
}

/// The place of the first file of this name.
pub fn place_of(files: &[Entry], name: &str) -> Option<usize>
    ensures { result ≡ position (is_named name.now) files.now }
{
    files.iter().position(|file| file.name.as_str() == name)
}

/// Puts a file in the place of the one of its name, or behind the others.
pub fn store(files: &mut Vec<Entry>, file: Entry)
    requires { vec_len files.old < vec_capacity files.old }
    ensures stored { file_of files.new.items (string_bytes file.name) ≡ Some file.bytes.items }
    ensures others { SameOthers (string_bytes file.name) (file_of files.old.items) (file_of files.new.items) }
    ensures len { vec_len files.new ≤ vec_len files.old + 1 }
    ensures capacity { vec_capacity files.old ≤ vec_capacity files.new }
{
    match place_of(files, file.name.as_str()) {
        Some(i) => {
            let old = &mut files[i];
            *old = file;
        }
        None => match files.push(file) {
            Ok(()) => {}
            Err(_) => unreachable!(),
        },
    }
}

/// What is left of the file at a place, from an offset on.
pub fn left(files: &[Entry], started: Option<usize>, offset: usize) -> &[u8]
    ensures bytes { result.now ≡ left_at files.now started offset }
    ensures fits { 0 < length result.now → offset + length result.now < 2 ^ 64 }
{
    let Some(place) = started else {
        return &[];
    };
    let Some(file) = files.get(place) else {
        return &[];
    };
    if file.bytes.len() <= offset {
        return &[];
    }
    &file.bytes[offset..]
}

/// Copies as much as fits to the front of the buffer, and says how much.
pub fn copy_front(bytes: &[u8], buf: &mut [u8]) -> usize
    ensures count { result ≡ min (length bytes.now) (length buf.new) }
    ensures front { take result buf.new ≡ take result bytes.now }
{
    let count = bytes.len().min(buf.len());
    buf[..count].copy_from_slice(&bytes[..count]);
    count
}
