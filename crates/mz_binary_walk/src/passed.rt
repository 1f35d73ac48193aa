// How far the list of statements was gone over.
ghost use Rattle.std.specs.Prelude.{◌≡◌, ◌<◌, ◌+◌, ◌^◌, IfNone, IfSome};
ghost use Rattle.mz_base.specs.Checks.{AllHold};
ghost use Rattle.mz_layout_tables.specs.Heads.{head_checks, next_row};
ghost use Rattle.mz_binary_theory.specs.Chains.{IsListEnd};
ghost use Rattle.mz_binary_walk.specs.Walk.{GoesOn, IsPlaced, nothing_passed, passed_with, past_public};

use crate::local::is_local;
use mz_layout_tables::{Head, HeadOrEnd, Mmb, Rows, head_at};

/// How far the list of statements was gone over.
#[derive(Clone, Copy, Debug, PartialEq, Eq)]
pub struct Passed {
    /// Where the next statement begins, or the list ends, in bytes.
    pub at: u32,
    /// The rows that the statements before it have taken.
    pub rows: Rows,
    /// How many statements stand before it.
    pub statements: u32,
    /// How many of these are public.
    pub publics: u32,
}

impl Passed {
    /// No statement.
    pub fn nothing(mmb: &Mmb) -> Passed
        ensures nothing { result ≡ nothing_passed mmb.now }
        ensures placed { IsPlaced mmb.now result }
    {
        Passed {
            at: mmb.proof_at(),
            rows: Rows {
                sorts: 0,
                terms: 0,
                thms: 0,
            },
            statements: 0,
            publics: 0,
        }
    }

    /// The statement that comes next, and how far the list was gone over with it; `None` at the list's end.
    pub fn next(self, mmb: &Mmb) -> Option<(Head, Passed)>
        requires placed { IsPlaced mmb.now self }
        requires good { AllHold (head_checks mmb.now self.rows self.at) }
        ensures goes_on { IfSome result (λ next. GoesOn mmb.now self next.0 next.1) }
        ensures ends { IfNone result (IsListEnd mmb.now self.at) }
    {
        match head_at(mmb, self.rows, self.at) {
            Ok(HeadOrEnd::Statement(head)) => Some((head, self.past(head))),
            Ok(HeadOrEnd::End) => None,
            Err(_) => unreachable!(),
        }
    }

    fn past(self, head: Head) -> Passed
        requires row { next_row self.rows head.code + 1 < 2 ^ 32 }
        requires statements { self.statements < head.next }
        requires publics { self.publics < head.next }
        ensures { result ≡ passed_with self head }
    {
        Passed {
            at: head.next,
            rows: self.rows.after(head.code),
            statements: self.statements + 1,
            publics: publics_with(self.publics, is_local(head.code)),
        }
    }
}

/// How many statements are public with one more.
fn publics_with(publics: u32, is_local: bool) -> u32
    requires { publics + 1 < 2 ^ 32 }
    ensures { result ≡ past_public publics is_local }
{
    if is_local { publics } else { publics + 1 }
}
