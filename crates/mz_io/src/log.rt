//! The log of a folder or a sink: the calls on it so far, with their answers.
ghost use Rattle.std.specs.Prelude.{◌≡◌, List, [], ◌∷◌, ◌++◌};
ghost use Rattle.std.specs.Borrow.{ftrue};
ghost use Rattle.mz_io.specs.Calls.{Call};

use std::marker::{Model, PhantomData};

/// A call, with its answer.
#[derive(Clone, Copy)]
pub enum Note<'a> {
    /// A file was to be started: its name, and whether it was.
    Start(&'a str, bool),
    /// How many bytes were asked for, and those that came.
    Pull(usize, &'a [u8]),
    PullFails,
    /// A file was to be put: its name and bytes, and whether it was.
    Put(&'a str, &'a [u8], bool),
    /// The bytes that were taken.
    Write(&'a [u8]),
    /// The piece that was handed over.
    WriteFails(&'a [u8]),
}

/// The calls so far. They exist in proofs alone: a log takes no bytes, and to note a call does
/// nothing at run time. A clause reads them as `calls`.
#[derive(Drop)]
pub struct Log {
    marker: PhantomData<u8>,
    pub ghost calls: { List Call },
}

impl Model for Log {
    ghost also_owns = { λ _. ftrue };
}

impl Log {
    ghost use Rattle.mz_io.specs.Noted.{call_of};

    /// A log of no calls.
    pub fn new() -> Log
        ensures { result.calls ≡ [] }
    {
        Log {
            marker: PhantomData,
        }
    }

    /// Notes one call more.
    #[inline(always)]
    pub fn note(&mut self, _call: &Note<'_>)
        ensures { self.new.calls ≡ self.old.calls ++ call_of _call.now ∷ [] }
    {}
}

const _: () = prove!(std::mem::size_of::<Log>() == 0);
