// What is said of a statement.

/// A good statement.
#[derive(Clone, Copy, Debug, PartialEq, Eq)]
pub struct Statement {
    /// Its number in the list, from 1.
    pub number: u32,
    /// The place of its command in the file, in bytes.
    pub at: u32,
    /// The code of its kind: 02 an axiom, 04 a sort, 05 a term or definition, 06 a theorem.
    pub kind: u8,
    /// Its row in the table of its kind.
    pub row: u32,
    /// Whether it is local: a definition with code 0D, or a theorem with code 0E.
    pub local: bool,
    /// Whether it is a theorem of a draft that rests on a gap: its body leaves one, or cites a theorem
    /// that rests on one.
    pub gap: bool,
}
