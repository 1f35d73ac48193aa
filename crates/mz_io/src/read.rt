//! Reading a whole file, up to a limit.
ghost use Rattle.std.specs.Prelude.{◌≡◌, ◌≤◌, ◌∷◌, List, ℕ, true, IsSome, length};
ghost use Rattle.mz_io.specs.Calls.{Grows, AreAnswered, starts};
ghost use Rattle.mz_io.specs.Outside.{Rose, SameFiles};
ghost use Rattle.mz_io.specs.Read.{IfBytes, OnFault, IsReading};

use crate::Folder;
use std::alloc::Global;

/// What came of a file.
#[derive(Debug, Drop)]
pub enum Read {
    /// The whole file.
    Bytes(Vec<u8>),
    /// The file has more bytes than the limit.
    TooLong,
    /// A call on the folder failed, and was counted there.
    Fault,
    /// No memory was left for the bytes.
    Mem,
}

/// Reads a whole file of at most `limit` bytes.
pub fn read_bounded<F: Folder>(alloc: Global, folder: &mut F, name: &str, limit: u64) -> Read
    // The file is started and pulled from, up to the first failure, the limit or the end, and the bytes
    // are those that came.
    ensures log { Grows (F.calls folder.old) (F.calls folder.new) (IsReading limit name.now result) }

    // Where contents are told, they are those of the folder's files.
    ensures answered { F.told → Grows (F.calls folder.old) (F.calls folder.new) (λ calls. AreAnswered (F.file folder.old) (F.left folder.old) calls (F.left folder.new)) }

    // No more are read than the limit.
    ensures within { IfBytes result (λ bytes. length bytes ≤ limit) }

    // A fault was counted. None is where the file is there and no coming call is listed to fail.
    ensures fault { OnFault result (Rose (F.faults folder.old) (F.faults folder.new)) }
    ensures later { F.faults folder.old ≤ F.faults folder.new }
    ensures only_missing { F.is_clear folder.old → IsSome (F.file folder.old name.now) → F.faults folder.new ≡ F.faults folder.old }

    // All else stays.
    ensures files { F.told → SameFiles (F.file folder.old) (F.file folder.new) }
    ensures put_faults { F.put_faults folder.new ≡ F.put_faults folder.old }
    ensures stays_clear { F.is_clear folder.old → F.is_clear folder.new }
    ensures rooms { F.is_clear folder.old → F.rooms folder.new ≡ F.rooms folder.old }
{
    if folder.start(name).is_err() {
        return Read::Fault;
    }
    read_started(alloc, folder, limit)
}

/// Reads what is left of the started file.
fn read_started<F: Folder>(alloc: Global, folder: &mut F, limit: u64) -> Read
    ensures log { (name : List ℕ) → Grows (F.calls folder.old) (F.calls folder.new) (λ more. IsReading limit name result (starts name true ∷ more)) }
    ensures answered { F.told → Grows (F.calls folder.old) (F.calls folder.new) (λ calls. AreAnswered (F.file folder.old) (F.left folder.old) calls (F.left folder.new)) }
    ensures within { IfBytes result (λ bytes. length bytes ≤ limit) }
    ensures fault { OnFault result (Rose (F.faults folder.old) (F.faults folder.new)) }
    ensures later { F.faults folder.old ≤ F.faults folder.new }
    ensures never { F.is_clear folder.old → F.faults folder.new ≡ F.faults folder.old }
    ensures files { F.told → SameFiles (F.file folder.old) (F.file folder.new) }
    ensures put_faults { F.put_faults folder.new ≡ F.put_faults folder.old }
    ensures stays_clear { F.is_clear folder.old → F.is_clear folder.new }
    ensures rooms { F.is_clear folder.old → F.rooms folder.new ≡ F.rooms folder.old }
{
    let mut bytes = Vec::new(alloc);
    let mut chunk = [0u8; 16384];
    'pulls: loop {
        match folder.pull(&mut chunk) {
            Err(_) => return Read::Fault,
            Ok(0) => return Read::Bytes(bytes),
            Ok(count) => {
                if count as u64 > limit - bytes.len() as u64 {
                    return Read::TooLong;
                }
                if bytes.extend_from_slice(&chunk[..count]).is_err() {
                    return Read::Mem;
                }
            }
        }
    }
}
