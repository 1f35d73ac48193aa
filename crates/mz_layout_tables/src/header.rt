// The header of a binary that is written.

/// What a header says: how many sorts, terms, and axioms and theorems there are, and the places of
/// the two tables and of the list.
#[derive(Clone, Copy)]
pub struct Header {
    pub sorts: u8,
    pub terms: u32,
    pub thms: u32,
    pub terms_at: u32,
    pub thms_at: u32,
    pub list_at: u32,
}
