// What is said of a specification and a binary together.
use mz_cmd::Refusal;
use mz_spec_proved_theory::M;
use mz_spec_theory::SpecRefusal;

/// How many declarations a specification has of each kind.
#[derive(Clone, Copy, Debug, PartialEq, Eq)]
pub struct Counts {
    pub sorts: u32,
    pub terms: u32,
    pub axioms: u32,
    pub definitions: u32,
    pub theorems: u32,
}

/// What is said of a specification and a binary together.
#[derive(Clone, Copy, Debug, PartialEq, Eq)]
pub enum Verdict {
    /// The binary proves what the specification declares: so many declarations of each kind.
    Accepted(Counts),
    /// The specification's first fault.
    Spec(SpecRefusal),
    /// The binary's first fault, before anything differs.
    Binary(Refusal),
    /// The first difference: at which declaration and at which statement, both counted from 1.
    Match {
        declaration: u32,
        statement: u32,
        rule: M,
    },
    /// Out of memory.
    Mem,
}
