// Places in the list of statements.
ghost use Rattle.std.specs.Prelude.{◌≡◌, ◌<◌, ◌^◌, ◌+◌};
ghost use Rattle.mz_layout_tables.specs.Heads.{next_row};
ghost use Rattle.mz_show.specs.Statements.{place_after, refusal_at};

use mz_cmd::{K, Refusal, StatementCode};
use mz_layout_tables::Rows;

/// A place in the list of statements.
#[derive(Clone, Copy)]
pub struct Place {
    /// The number of the statement that stands there, from 1.
    pub number: u32,
    /// Where it begins, in bytes.
    pub at: u32,
    /// The rows that the statements before it have taken.
    pub rows: Rows,
}

impl Place {
    /// A rule fails at a byte of the statement here.
    pub fn refusal(self, at: u32, rule: K) -> Refusal
        ensures { result ≡ refusal_at self at rule }
    {
        Refusal {
            statement: self.number,
            at,
            rule,
        }
    }

    /// The place after a statement with this code.
    pub fn after(self, code: StatementCode, next: u32) -> Place
        requires number { self.number + 1 < 2 ^ 32 }
        requires row { next_row self.rows code + 1 < 2 ^ 32 }
        ensures { result ≡ place_after self code next }
    {
        Place {
            number: self.number + 1,
            at: next,
            rows: self.rows.after(code),
        }
    }
}
