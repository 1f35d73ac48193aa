// What is asked of a place of the list of statements, before a row's words and the streams are looked at.
ghost use Rattle.std.specs.Prelude.{◌≡◌, ◌<◌, ◌+◌, ◌^◌, IfOk, OnOk};
ghost use Rattle.mz_base.specs.Checks.{Judges};
ghost use Rattle.mz_layout_tables.specs.Heads.{StandsAt, end_checks, head_checks, next_row, row_checks, row_count, rule_of};

use crate::checks::Fault;
use crate::mmb::Mmb;
use crate::rows_so_far::Rows;
use mz_cmd::{K, StatementCode, StmtAt, StmtFault, stmt_at};
use mz_logic_theory::Terms;

/// The first command of a statement, as it is read, and the places of its parts, in bytes.
#[derive(Clone, Copy, Debug, PartialEq, Eq)]
pub struct Head {
    /// Its kind, and whether it is local.
    pub code: StatementCode,
    /// Where it begins.
    pub at: u32,
    /// Where its body begins, right behind the command.
    pub body: u32,
    /// Where the next statement begins.
    pub next: u32,
}

/// What stands at a place of the list.
#[derive(Clone, Copy, Debug, PartialEq, Eq)]
pub enum HeadOrEnd {
    /// The list's end, with no row left.
    End,
    /// A statement that has a row of its kind.
    Statement(Head),
}

/// What stands at a place of the list, after statements that have taken these rows.
///
/// # Errors
///
/// The first rule that fails, at this place: no command, one that begins no statement, a distance
/// that leads into the command or past the file's end, no row for the statement, a local definition
/// whose row has no body; at the end, rows that are left.
pub fn head_at(mmb: &Mmb, rows: Rows, at: u32) -> Result<HeadOrEnd, Fault>
    ensures judged { Judges result (head_checks mmb.now rows at) }
    ensures stands { IfOk result (StandsAt mmb.now rows at) }
{
    match stmt_at(mmb.file(), at) {
        Ok(StmtAt::End) => {
            check_end(mmb, rows, at)?;
            Ok(HeadOrEnd::End)
        }
        Ok(StmtAt::Head { kind, body, next }) => {
            let Ok(code) = StatementCode::try_from(kind) else {
                return Err((at, K::StatementKind));
            };
            check_row(mmb, rows, at, code)?;
            Ok(HeadOrEnd::Statement(Head {
                code,
                at,
                body,
                next,
            }))
        }
        Err(fault) => Err((at, rule_of(fault))),
    }
}

/// The rule that a fault of the list fails.
fn rule_of(fault: StmtFault) -> K
    ensures { result ≡ rule_of fault }
{
    match fault {
        StmtFault::Command => K::Command,
        StmtFault::Kind => K::StatementKind,
        StmtFault::Length => K::StatementLength,
    }
}

/// Whether no row is left.
fn check_end(mmb: &Mmb, rows: Rows, at: u32) -> Result<(), Fault>
    ensures { Judges result (end_checks mmb.now rows at) }
{
    if rows.sorts == mmb.sorts() && rows.terms == mmb.terms() && rows.thms == mmb.thms() {
        Ok(())
    } else {
        Err((at, K::RowsLeft))
    }
}

/// Whether a row is left for the statement, and suits it.
#[tactic(auto, using(crate::proofs::TableLists::row_facts))]
fn check_row(mmb: &Mmb, rows: Rows, at: u32, code: StatementCode) -> Result<(), Fault>
    ensures judged { Judges result (row_checks mmb.now rows at code) }
    // The rows are numbers of 32 bits, so that there is a number after a row.
    ensures fits { OnOk result (next_row rows code + 1 < 2 ^ 32) }
{
    if rows.next(code) >= row_count(mmb, code) {
        return Err((at, K::NoRow));
    }
    if code == StatementCode::LocalDefinition && !mmb.has_body(rows.terms) {
        return Err((at, K::StatementKind));
    }
    Ok(())
}

/// How many rows the table has that a statement with this code takes a row of.
fn row_count(mmb: &Mmb, code: StatementCode) -> u32
    ensures { result ≡ row_count mmb.now code }
{
    match code {
        StatementCode::Sort => mmb.sorts(),
        StatementCode::Term | StatementCode::LocalDefinition => mmb.terms(),
        StatementCode::Axiom | StatementCode::Theorem | StatementCode::LocalTheorem => mmb.thms(),
    }
}
