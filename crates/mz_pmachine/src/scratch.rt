//! Scratch buffers that one body leaves to the next.
ghost use Rattle.std.specs.Prelude.{◌≡◌, Some};

use crate::machine::Parts;
use mz_logic_theory::Word;
use std::alloc::{AllocError, Global};

/// What bodies have taken of memory, kept for the next one. What lies there changes no answer.
#[derive(Drop)]
pub struct PortableScratch {
    buffers: Option<Box<Buffers>>,
}

/// The words of the row whose body runs, and what its commands change.
#[derive(Drop)]
pub(crate) struct Buffers {
    pub(crate) words: Vec<Word>,
    pub(crate) parts: Parts,
}

impl PortableScratch {
    /// Nothing kept yet.
    pub fn new() -> PortableScratch {
        PortableScratch { buffers: None }
    }

    /// The buffers of the last body, or new ones.
    pub(crate) fn take(&mut self, alloc: Global) -> Result<Box<Buffers>, AllocError> {
        match self.buffers.take() {
            Some(buffers) => Ok(buffers),
            None => Ok(Box::new(alloc, Buffers::new(alloc))?),
        }
    }

    /// Keeps the buffers for the next body.
    pub(crate) fn keep(&mut self, buffers: Box<Buffers>)
        ensures { self.new.buffers ≡ Some buffers }
    {
        self.buffers = Some(buffers);
    }
}

impl Buffers {
    fn new(alloc: Global) -> Buffers {
        Buffers {
            words: Vec::new(alloc),
            parts: Parts::new(alloc),
        }
    }
}
