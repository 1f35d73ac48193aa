// The rows that statements have taken.
ghost use Rattle.std.specs.Prelude.{◌≡◌, ◌<◌, ◌+◌, ◌^◌};
ghost use Rattle.mz_layout_tables.specs.Heads.{next_row, rows_after};

use mz_cmd::StatementCode;

/// How many rows of each table have had their statement.
#[derive(Clone, Copy, Debug, PartialEq, Eq)]
pub struct Rows {
    /// Sorts.
    pub sorts: u32,
    /// Terms and definitions.
    pub terms: u32,
    /// Axioms and theorems.
    pub thms: u32,
}

impl Rows {
    /// The row that a statement with this code takes.
    pub fn next(self, code: StatementCode) -> u32
        ensures { result ≡ next_row self code }
    {
        match code {
            StatementCode::Sort => self.sorts,
            StatementCode::Term | StatementCode::LocalDefinition => self.terms,
            StatementCode::Axiom | StatementCode::Theorem | StatementCode::LocalTheorem =>
                self.thms,
        }
    }

    /// The rows that are taken after it.
    pub fn after(self, code: StatementCode) -> Rows
        requires { next_row self code + 1 < 2 ^ 32 }
        ensures { result ≡ rows_after self code }
    {
        match code {
            StatementCode::Sort => Rows {
                sorts: self.sorts + 1,
                ..self
            },
            StatementCode::Term | StatementCode::LocalDefinition => Rows {
                terms: self.terms + 1,
                ..self
            },
            StatementCode::Axiom | StatementCode::Theorem | StatementCode::LocalTheorem => Rows {
                thms: self.thms + 1,
                ..self
            },
        }
    }
}
