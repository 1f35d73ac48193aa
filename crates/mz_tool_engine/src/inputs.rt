// The files that a command reads.
ghost use Rattle.std.specs.Prelude.{◌≡◌, ◌<◌, ◌∷◌, ◌^◌, [], length};
ghost use Rattle.mz_io.specs.Calls.{Grows, AreAnswered};
ghost use Rattle.mz_io.specs.Outside.{Rose, SameFiles};
ghost use Rattle.mz_tool_engine.specs.Answering.{IsReadingAll};
ghost use Rattle.mz_tool_engine.specs.Files.{AreThere, BeginsLonger};
ghost use Rattle.mz_tool_engine.specs.Inputs.{names_of, contents_of, AreWithin, IfRead, OnReadFault};
ghost use Rattle.mz_tool_engine.specs.Run.{longest};

use mz_io::{Folder, Read, read_bounded};
use std::alloc::Global;

/// The names of the files that a command reads, in order.
#[derive(Clone, Copy)]
pub enum Inputs<'a> {
    Nothing,
    One(&'a str),
    Two(&'a str, &'a str),
}

/// What these files hold.
#[derive(Drop)]
pub enum Contents {
    Nothing,
    One(Vec<u8>),
    Two(Vec<u8>, Vec<u8>),
}

/// What came of the files.
#[derive(Drop)]
pub enum ReadAll {
    /// All of them, whole.
    Contents(Contents),
    /// One has more bytes than the limit.
    TooLong,
    /// A call on the folder failed, and was counted there.
    Fault,
    /// No memory was left.
    Mem,
}

/// Reads one file whole.
fn read_one<F: Folder>(alloc: Global, limit: u64, name: &str, folder: &mut F) -> ReadAll
    ensures log { Grows (F.calls folder.old) (F.calls folder.new) (IsReadingAll limit (name.now ∷ []) result) }
    ensures answered { F.told → Grows (F.calls folder.old) (F.calls folder.new) (λ calls. AreAnswered (F.file folder.old) (F.left folder.old) calls (F.left folder.new)) }
    ensures files { F.told → SameFiles (F.file folder.old) (F.file folder.new) }
    ensures fault { OnReadFault result (Rose (F.faults folder.old) (F.faults folder.new)) }
    ensures within { IfRead result (λ contents. AreWithin limit contents) }
    ensures put_faults { F.put_faults folder.new ≡ F.put_faults folder.old }
    ensures stays_clear { F.is_clear folder.old → F.is_clear folder.new }
    ensures rooms { F.is_clear folder.old → F.rooms folder.new ≡ F.rooms folder.old }
    ensures only_missing { F.is_clear folder.old → AreThere (F.file folder.old) (name.now ∷ []) → F.faults folder.new ≡ F.faults folder.old }
    ensures unread { F.told → F.is_clear folder.old → BeginsLonger limit (F.file folder.old) (name.now ∷ []) → F.faults folder.new ≡ F.faults folder.old }
{
    match read_bounded(alloc, folder, name, limit) {
        Read::Bytes(bytes) => ReadAll::Contents(Contents::One(bytes)),
        Read::TooLong => ReadAll::TooLong,
        Read::Fault => ReadAll::Fault,
        Read::Mem => ReadAll::Mem,
    }
}

/// Reads two files whole. After a first one that isn't read the second isn't looked for.
fn read_two<F: Folder>(
    alloc: Global,
    limit: u64,
    first: &str,
    second: &str,
    folder: &mut F,
) -> ReadAll
    ensures log { Grows (F.calls folder.old) (F.calls folder.new) (IsReadingAll limit (first.now ∷ second.now ∷ []) result) }
    ensures answered { F.told → Grows (F.calls folder.old) (F.calls folder.new) (λ calls. AreAnswered (F.file folder.old) (F.left folder.old) calls (F.left folder.new)) }
    ensures files { F.told → SameFiles (F.file folder.old) (F.file folder.new) }
    ensures fault { OnReadFault result (Rose (F.faults folder.old) (F.faults folder.new)) }
    ensures within { IfRead result (λ contents. AreWithin limit contents) }
    ensures put_faults { F.put_faults folder.new ≡ F.put_faults folder.old }
    ensures stays_clear { F.is_clear folder.old → F.is_clear folder.new }
    ensures rooms { F.is_clear folder.old → F.rooms folder.new ≡ F.rooms folder.old }
    ensures only_missing { F.is_clear folder.old → AreThere (F.file folder.old) (first.now ∷ second.now ∷ []) → F.faults folder.new ≡ F.faults folder.old }
    ensures unread { F.told → F.is_clear folder.old → BeginsLonger limit (F.file folder.old) (first.now ∷ second.now ∷ []) → F.faults folder.new ≡ F.faults folder.old }
{
    let bytes = match read_bounded(alloc, folder, first, limit) {
        Read::Bytes(bytes) => bytes,
        Read::TooLong => return ReadAll::TooLong,
        Read::Fault => return ReadAll::Fault,
        Read::Mem => return ReadAll::Mem,
    };
    match read_bounded(alloc, folder, second, limit) {
        Read::Bytes(more) => ReadAll::Contents(Contents::Two(bytes, more)),
        Read::TooLong => ReadAll::TooLong,
        Read::Fault => ReadAll::Fault,
        Read::Mem => ReadAll::Mem,
    }
}

impl<'a> Inputs<'a> {
    /// Reads them, whole, each of at most `limit` bytes. After one that isn't read no further one is
    /// looked for.
    pub fn read<F: Folder>(self, alloc: Global, limit: u64, folder: &mut F) -> ReadAll
        ensures log { Grows (F.calls folder.old) (F.calls folder.new) (IsReadingAll limit (names_of self.entry) result) }
        ensures answered { F.told → Grows (F.calls folder.old) (F.calls folder.new) (λ calls. AreAnswered (F.file folder.old) (F.left folder.old) calls (F.left folder.new)) }
        ensures files { F.told → SameFiles (F.file folder.old) (F.file folder.new) }
        ensures fault { OnReadFault result (Rose (F.faults folder.old) (F.faults folder.new)) }
        ensures none { names_of self.entry ≡ [] → folder.new ≡ folder.old }
        ensures within { IfRead result (λ contents. AreWithin limit contents) }
        ensures put_faults { F.put_faults folder.new ≡ F.put_faults folder.old }
        ensures stays_clear { F.is_clear folder.old → F.is_clear folder.new }
        ensures rooms { F.is_clear folder.old → F.rooms folder.new ≡ F.rooms folder.old }
        ensures only_missing { F.is_clear folder.old → AreThere (F.file folder.old) (names_of self.entry) → F.faults folder.new ≡ F.faults folder.old }
        ensures unread { F.told → F.is_clear folder.old → BeginsLonger limit (F.file folder.old) (names_of self.entry) → F.faults folder.new ≡ F.faults folder.old }
    {
        match self {
            Inputs::Nothing => ReadAll::Contents(Contents::Nothing),
            Inputs::One(name) => read_one(alloc, limit, name, folder),
            Inputs::Two(first, second) => read_two(alloc, limit, first, second, folder),
        }
    }
}

impl Contents {
    /// The bytes of the only file.
    pub fn one(&self) -> &[u8]
        requires count { length (contents_of self.now) ≡ 1 }
        requires within { AreWithin longest (contents_of self.now) }
        ensures is { contents_of self.now ≡ result.now ∷ [] }
        ensures short { length result.now < 2 ^ 32 }
    {
        match self {
            Contents::One(bytes) => bytes.as_slice(),
            _ => unreachable!(),
        }
    }

    /// The bytes of the first file and of the second, where there are two.
    pub fn two(&self) -> (&[u8], &[u8])
        requires count { length (contents_of self.now) ≡ 2 }
        requires within { AreWithin longest (contents_of self.now) }
        ensures is { contents_of self.now ≡ result.0.now ∷ result.1.now ∷ [] }
        ensures first { length result.0.now < 2 ^ 32 }
        ensures second { length result.1.now < 2 ^ 32 }
    {
        match self {
            Contents::Two(first, second) => (first.as_slice(), second.as_slice()),
            _ => unreachable!(),
        }
    }
}
