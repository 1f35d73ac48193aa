// A statement of the list: what is asked of it, and its lines.
ghost use Rattle.std.specs.Prelude.{◌≡◌, ◌≤◌, length};
ghost use Rattle.mz_base.specs.Checks.{AllHold, Judges};
ghost use Rattle.mz_layout_tables.specs.Heads.{IsNextHead, empty_checks};
ghost use Rattle.mz_show.specs.Statements.{place_checks, told_there};
ghost use Rattle.mz_show.specs.Answers.{IsNext, IsWithin, TellsStatement, TellsStreams};

use crate::place::Place;
use crate::row::{has_streams, list_row, unify_at};
use crate::stop::Stop;
use crate::stream::{Stream, end_stands, leads_to, list_commands};
use mz_cmd::{K, Refusal};
use mz_layout_tables::{Head, HeadOrEnd, Mmb, head_at};

/// What stands at a place of the list of statements.
#[derive(Clone, Copy)]
pub enum Next {
    /// A statement of which nothing fails; the place after it.
    Statement(Place),
    /// The list's end, with no row left.
    End,
    Refused(Refusal),
    Mem,
}

/// What stands at a place of the list. A statement's lines are appended to the text.
pub fn list_next(mmb: &Mmb, place: Place, text: &mut Vec<u8>) -> Next
    requires { IsWithin mmb.now place }
    ensures { IsNext mmb.now place text.old.items text.new.items result }
{
    match head_at(mmb, place.rows, place.at) {
        Ok(HeadOrEnd::Statement(head)) => list_head(mmb, place, head, text),
        Ok(HeadOrEnd::End) => Next::End,
        Err((at, rule)) => Next::Refused(place.refusal(at, rule)),
    }
}

/// A statement of which the first command is read.
fn list_head(mmb: &Mmb, place: Place, head: Head, text: &mut Vec<u8>) -> Next
    requires within { IsWithin mmb.now place }
    requires stands { IsNextHead mmb.now place.rows place.at head }
    requires holds { AllHold (place_checks mmb.now place) }
    ensures { IsNext mmb.now place text.old.items text.new.items result }
{
    match list_statement(mmb, place, head, text) {
        Ok(()) => Next::Statement(place.after(head.code, head.next)),
        Err(Stop::Refused(refusal)) => Next::Refused(refusal),
        Err(Stop::Mem) => Next::Mem,
    }
}

/// Appends the lines of a statement of which nothing fails.
fn list_statement(mmb: &Mmb, place: Place, head: Head, text: &mut Vec<u8>) -> Result<(), Stop>
    requires stands { IsNextHead mmb.now place.rows place.at head }
    requires holds { AllHold (place_checks mmb.now place) }
    ensures { TellsStatement mmb.now place head text.old.items text.new.items result }
{
    list_row(mmb, place, head.code, text)?;
    list_streams(mmb, place, head, text)
}

/// Appends the lines of a statement's unify stream and body, where it has them.
fn list_streams(mmb: &Mmb, place: Place, head: Head, text: &mut Vec<u8>) -> Result<(), Stop>
    requires { IsNextHead mmb.now place.rows place.at head }
    ensures { TellsStreams mmb.now place head text.old.items text.new.items result }
{
    if !has_streams(mmb, place, head.code) {
        return Ok(check_empty(mmb, place, head)?);
    }
    let file = mmb.file();
    let unify_from = unify_at(mmb, place, head.code);
    let unify_end = list_commands(Stream::Unify, file, unify_from, text)?;
    if !end_stands(file, unify_end) {
        return Err(Stop::Refused(place.refusal(unify_end, K::Command)));
    }
    text.extend_from_slice(b" u end\n")?;
    let statement = &file[..head.next as usize];
    let body_end = list_commands(Stream::Proof, statement, head.body, text)?;
    if !end_stands(statement, body_end) {
        return Err(Stop::Refused(place.refusal(body_end, K::Command)));
    }
    if !leads_to(statement, body_end, head.next) {
        return Err(Stop::Refused(place.refusal(body_end, K::StatementLength)));
    }
    text.extend_from_slice(b" p end\n")?;
    Ok(())
}

/// Whether nothing stands in the body, or one byte 00.
fn check_empty(mmb: &Mmb, place: Place, head: Head) -> Result<(), Refusal>
    requires order { head.body ≤ head.next }
    requires within { head.next ≤ length mmb.now }
    ensures { Judges result (told_there place (empty_checks mmb.now place.at head.body head.next)) }
{
    if mmb.has_empty_body(head.body, head.next) {
        Ok(())
    } else {
        Err(place.refusal(place.at, K::StatementLength))
    }
}
