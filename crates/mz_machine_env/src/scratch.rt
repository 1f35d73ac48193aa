//! Lists that a command fills, kept from one to the next.

use crate::heap::FirstIds;
use mz_store::{Id, Item};
use std::alloc::Global;

/// Lists that a command fills and no other command reads: each begins with whatever they hold. The first
/// ids alone stay what they are.
#[derive(Drop)]
pub struct CommandBuffers {
    /// The operands of a row, with which the heap of its stream begins.
    pub operands: Vec<Id>,
    /// The ids with which the heap of the statement's own stream begins.
    pub ids: FirstIds,
    /// What the stream adds to its heap.
    pub saved: Vec<Id>,
    /// The places of the row's bound parameters.
    pub bound: Vec<u32>,
    /// The targets of the stream.
    pub targets: Vec<Id>,
    /// The items from which the stream takes hypotheses, where these aren't on the stack.
    pub hyps: Vec<Item>,
}

impl CommandBuffers {
    /// Empty lists, which take no memory.
    pub fn new(alloc: Global) -> CommandBuffers {
        CommandBuffers {
            operands: Vec::new(alloc),
            ids: FirstIds::new(alloc),
            saved: Vec::new(alloc),
            bound: Vec::new(alloc),
            targets: Vec::new(alloc),
            hyps: Vec::new(alloc),
        }
    }
}
