// What stands at a place of the list of statements.
ghost use Rattle.std.specs.Prelude.{◌≡◌, ◌≤◌, ◌<◌, IfOk, length};
ghost use Rattle.mz_base.specs.Checks.{AllHold, Judges};
ghost use Rattle.mz_layout_tables.specs.Heads.{empty_checks, row_checks};
ghost use Rattle.mz_layout_tables.specs.Tables.{sort_count, term_count, thm_count};
ghost use Rattle.mz_machine_env.specs.Before.{taken_before};
ghost use Rattle.mz_binary_theory.specs.FileRun.{find_at, find_parts};
ghost use Rattle.mz_binary.specs.Remembering.{AreRight};
ghost use Rattle.mz_binary.specs.Progress.{Finds, IsAssertionKind, IsOf, IsTermKind, StandsAt, is_local_kind};

use crate::words::{RightWords, check_words_once};
use mz_cmd::{K, StatementCode};
use mz_layout_tables::{Fault, Head, HeadOrEnd, Mmb, Rows, check_term_words, head_at};
use mz_logic_theory::Terms;

/// What stands at a place, all that is asked of it met, but that its body runs.
#[derive(Clone, Copy)]
pub enum Found {
    /// The end of the list.
    End,
    /// A sort or a plain term.
    Alone(Head),
    /// A definition, an axiom or a theorem, whose body is to run.
    WithBody(Head),
}

/// What stands at a place of the list after statements that took these rows. `right` are words of
/// parameters that were right before, and then the last ones that are.
#[inline(always)]
pub fn found_at(
    mmb: &Mmb,
    rows: Rows,
    at: u32,
    right: &mut Option<RightWords>,
) -> Result<Found, Fault>
    requires sorts { rows.sorts ≤ sort_count mmb.now }
    requires right { AreRight mmb.now right.old }
    ensures found { Finds mmb.now rows (find_at mmb.now (taken_before mmb.now rows) at) result }
    ensures stands { IfOk result (StandsAt mmb.now at) }
    ensures right { AreRight mmb.now right.new }
{
    match head_at(mmb, rows, at)? {
        HeadOrEnd::End => Ok(Found::End),
        HeadOrEnd::Statement(head) => check_parts(mmb, rows, head, right),
    }
}

/// The words and the body of a statement that takes the next row of its kind, as its kind asks them.
fn check_parts(
    mmb: &Mmb,
    rows: Rows,
    head: Head,
    right: &mut Option<RightWords>,
) -> Result<Found, Fault>
    requires right { AreRight mmb.now right.old }
    requires row { AllHold (row_checks mmb.now rows head.at head.code) }
    requires order { head.body ≤ head.next }
    requires within { head.next ≤ length mmb.now }
    requires sorts { rows.sorts ≤ sort_count mmb.now }
    ensures found { Finds mmb.now rows (find_parts mmb.now (taken_before mmb.now rows) head.at head.body head.next head.code) result }
    ensures head { IfOk result (IsOf head) }
    ensures right { AreRight mmb.now right.new }
{
    match head.code {
        StatementCode::Sort => check_empty(mmb, head),
        StatementCode::Term | StatementCode::LocalDefinition => check_term(mmb, rows, head),
        StatementCode::Axiom | StatementCode::Theorem | StatementCode::LocalTheorem => {
            check_thm(mmb, rows, head, right)
        }
    }
}

/// The words of a term's row, and the body of a plain term.
fn check_term(mmb: &Mmb, rows: Rows, head: Head) -> Result<Found, Fault>
    requires kind { IsTermKind head.code }
    requires row { rows.terms < term_count mmb.now }
    requires order { head.body ≤ head.next }
    requires within { head.next ≤ length mmb.now }
    requires sorts { rows.sorts ≤ sort_count mmb.now }
    ensures found { Finds mmb.now rows (find_parts mmb.now (taken_before mmb.now rows) head.at head.body head.next head.code) result }
    ensures head { IfOk result (IsOf head) }
{
    check_term_words(mmb, rows.sorts, rows.terms)?;
    if mmb.has_body(rows.terms) {
        return Ok(Found::WithBody(head));
    }
    check_empty(mmb, head)
}

/// The words of the row of an axiom or a theorem.
fn check_thm(
    mmb: &Mmb,
    rows: Rows,
    head: Head,
    right: &mut Option<RightWords>,
) -> Result<Found, Fault>
    requires right { AreRight mmb.now right.old }
    requires kind { IsAssertionKind head.code }
    requires row { rows.thms < thm_count mmb.now }
    requires sorts { rows.sorts ≤ sort_count mmb.now }
    ensures found { Finds mmb.now rows (find_parts mmb.now (taken_before mmb.now rows) head.at head.body head.next head.code) result }
    ensures head { IfOk result (IsOf head) }
    ensures right { AreRight mmb.now right.new }
{
    check_words_once(mmb, rows.sorts, rows.thms, right)?;
    Ok(Found::WithBody(head))
}

/// That nothing stands in the body, or one byte 00.
fn check_empty(mmb: &Mmb, head: Head) -> Result<Found, Fault>
    requires order { head.body ≤ head.next }
    requires within { head.next ≤ length mmb.now }
    ensures judged { Judges result (empty_checks mmb.now head.at head.body head.next) }
    ensures alone { IfOk result (λ found. found ≡ Found.Alone head) }
{
    if mmb.has_empty_body(head.body, head.next) {
        Ok(Found::Alone(head))
    } else {
        Err((head.at, K::StatementLength))
    }
}

/// Whether the statement of this kind is local.
pub fn is_local(code: StatementCode) -> bool
    ensures { result ≡ is_local_kind code }
{
    matches!(
        code,
        StatementCode::LocalDefinition | StatementCode::LocalTheorem
    )
}
