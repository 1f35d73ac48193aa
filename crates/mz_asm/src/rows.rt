// The rows that the lines so far have taken.
ghost use Rattle.std.specs.Prelude.{◌≡◌, ◌≤◌, OnOk};
ghost use Rattle.mz_base.specs.Checks.{Judges};
ghost use Rattle.mz_asm.specs.Rows.{next_row, most_of, taken, number_checks, head_checks, value_checks};

use crate::kind::Kind;
use crate::line::Line;
use crate::rule::A;

/// The greatest number that a command or a row may have.
const GREATEST: u64 = 4_294_967_295;

/// How many rows of each table the lines so far have taken.
#[derive(Clone, Copy)]
pub struct Rows {
    pub sorts: u64,
    pub terms: u64,
    /// Axioms and theorems.
    pub thms: u64,
}

/// The greatest number of a statement's first line: a sort's modifiers are four bits, and a row has
/// at most 65,535 parameters.
fn most_of(kind: Kind) -> u64
    ensures { result ≡ most_of kind }
{
    if kind == Kind::Sort { 15 } else { 65_535 }
}

impl Rows {
    /// The next row of the kind's table.
    pub fn next(self, kind: Kind) -> u64
        ensures { result ≡ next_row self kind }
    {
        match kind {
            Kind::Sort => self.sorts,
            Kind::Term | Kind::Definition | Kind::LocalDefinition => self.terms,
            Kind::Axiom | Kind::Theorem | Kind::LocalTheorem => self.thms,
        }
    }

    /// Whether the numbers of a line are small enough, and its row is the next one.
    pub fn check(self, line: Line) -> Result<(), A>
        ensures { Judges result (number_checks self line) }
    {
        match line {
            Line::Head { kind, row, number } => self.check_head(kind, row, number),
            Line::Unify { value, .. } | Line::Proof { value, .. } => check_value(value),
            _ => Ok(()),
        }
    }

    fn check_head(self, kind: Kind, row: u64, number: u64) -> Result<(), A>
        ensures { Judges result (head_checks self kind row number) }
    {
        if row > GREATEST || number > most_of(kind) {
            return Err(A::Range);
        }
        if kind == Kind::Sort && self.sorts >= 128 {
            return Err(A::Range);
        }
        if row == self.next(kind) {
            Ok(())
        } else {
            Err(A::Row)
        }
    }

    /// The rows taken after a line of this kind.
    pub fn taken(self, kind: Kind) -> Rows
        requires { next_row self kind ≤ 4294967295 }
        ensures { result ≡ taken self kind }
    {
        match kind {
            Kind::Sort => Rows {
                sorts: self.sorts + 1,
                ..self
            },
            Kind::Term | Kind::Definition | Kind::LocalDefinition => Rows {
                terms: self.terms + 1,
                ..self
            },
            Kind::Axiom | Kind::Theorem | Kind::LocalTheorem => Rows {
                thms: self.thms + 1,
                ..self
            },
        }
    }
}

fn check_value(value: u64) -> Result<(), A>
    ensures { Judges result (value_checks value) }
{
    if value <= GREATEST {
        Ok(())
    } else {
        Err(A::Range)
    }
}
