// What is known of the axioms and theorems of a binary.

use crate::sets::{Sets, Size};

/// Where an axiom or a theorem stands among the statements.
#[derive(Clone, Copy)]
pub struct Place {
    /// How many public statements stand before it: if it is public, the number of its declaration,
    /// from 0.
    pub number: u32,
    pub is_axiom: bool,
    pub is_local: bool,
}

/// What is known of an axiom or a theorem.
#[derive(Clone, Copy)]
pub struct Row {
    pub place: Place,
    /// The rows of the axioms to which a citation of it comes, as a set: an axiom's is its own, a
    /// theorem's are those of its support.
    pub set: u64,
}

/// The rows of all axioms and theorems so far, and the store of their sets.
#[derive(Drop)]
pub struct Table {
    pub size: Size,
    pub sets: Sets,
    pub rows: Vec<Row>,
}
