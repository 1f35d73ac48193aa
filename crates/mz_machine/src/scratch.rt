//! Scratch buffers that one body leaves to the next.
ghost use Rattle.std.specs.Prelude.{◌≡◌, ℕ, List, IfOk, None, Some};
ghost use Rattle.mz_machine.specs.Tidiness.{IsTidy, AreTidyBuffers};

use crate::machine::Parts;
use crate::params::Entered;
use mz_logic_theory::Word;
use mz_store::Seed;
use std::alloc::{AllocError, Global};

/// What bodies have taken of memory, kept for the next one. What lies there changes no answer.
#[derive(Drop)]
pub struct BodyScratch {
    seed: Seed,
    buffers: Option<Box<Buffers>>,
}

/// What a body's commands change, and whose parameters its store begins with, where the body has run.
#[derive(Drop)]
pub(crate) struct Buffers {
    pub(crate) words: Vec<Word>,
    pub(crate) parts: Parts,
    pub(crate) last: Option<Entered>,
}

impl BodyScratch {
    /// Nothing kept yet. The bodies' terms are numbered with the seed.
    pub fn new(seed: Seed) -> BodyScratch
        ensures { (file : List ℕ) → IsTidy file result }
    {
        BodyScratch {
            seed,
            buffers: None,
        }
    }

    /// The buffers of the last body, or new ones where those are large.
    pub(crate) fn take(&mut self, alloc: Global) -> Result<Box<Buffers>, AllocError>
        ensures tidy { IfOk result (λ buffers. (file : List ℕ) → IsTidy file self.old → AreTidyBuffers file buffers.value) }
        ensures empty { self.new.buffers ≡ None }
    {
        if let Some(buffers) = self.buffers.take() {
            if buffers.parts.are_few(buffers.words.len()) {
                return Ok(buffers);
            }
        }
        Ok(Box::new(alloc, Buffers::new(alloc, self.seed))?)
    }

    /// Keeps the buffers for the next body.
    pub(crate) fn keep(&mut self, buffers: Box<Buffers>)
        ensures { self.new.buffers ≡ Some buffers }
    {
        self.buffers = Some(buffers);
    }
}

impl Buffers {
    fn new(alloc: Global, seed: Seed) -> Buffers
        ensures { (file : List ℕ) → AreTidyBuffers file result }
    {
        Buffers {
            words: Vec::new(alloc),
            parts: Parts::new(alloc, seed),
            last: None,
        }
    }
}
