ghost use Rattle.std.specs.Prelude.{◌<◌};

use crate::statement::SyntaxStatement;

/// A statement, and where it stands in the text, in bytes.
#[derive(Drop)]
pub struct StatementRead<'a> {
    /// The statement.
    pub statement: SyntaxStatement<'a>,
    /// The place of its first byte.
    pub place: u32,
    /// The place behind its last one.
    pub end: usize,
}
