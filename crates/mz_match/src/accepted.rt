// A pair of files that is accepted, as it was read.
use crate::draft::Gaps;
use mz_layout_tables::Mmb;
use mz_match_theory::Counts;
use mz_spec::NamedSpec;

/// A specification and a binary that is accepted against it, as they were read, for those who say more of them.
#[derive(Drop)]
pub struct Accepted<'a> {
    /// What the specification declares, and the names of it.
    pub spec: NamedSpec<'a>,
    /// The binary.
    pub mmb: Mmb<'a>,
    /// How many declarations of each kind there are.
    pub counts: Counts,
    /// Where gaps are let through, the theorems that rest on one.
    pub gaps: Gaps,
}
