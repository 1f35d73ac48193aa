// The lines of the row that a statement takes.
ghost use Rattle.std.specs.Prelude.{◌≡◌, ◌<◌, ◌++◌, OnOk};
ghost use Rattle.mz_layout_tables.specs.Tables.{term_count, thm_count};
ghost use Rattle.mz_layout_tables.specs.Heads.{next_row, row_count};
ghost use Rattle.mz_show.specs.Statements.{has_streams, heading, kind_name, row_number, row_text, term_lines, thm_lines, unify_at, word_lines};

use crate::place::Place;
use crate::words::{put_number, put_param, put_result};
use mz_cmd::{Mem, StatementCode};
use mz_layout_tables::Mmb;
use mz_logic_theory::Terms;

/// Whether the statement has a unify stream and a body with commands.
#[tactic(auto, using(mz_layout_tables::proofs::TableLists::row_facts))]
pub fn has_streams(mmb: &Mmb, place: Place, code: StatementCode) -> bool
    requires { next_row place.rows code < row_count mmb.now code }
    ensures { result ≡ has_streams mmb.now place code }
{
    match code {
        StatementCode::Sort => false,
        StatementCode::Term => mmb.has_body(place.rows.terms),
        _ => true,
    }
}

/// Where the statement's unify stream stands, where it has one.
pub fn unify_at(mmb: &Mmb, place: Place, code: StatementCode) -> u32
    requires { next_row place.rows code < row_count mmb.now code }
    ensures place { result ≡ unify_at mmb.now place code }
{
    match code {
        StatementCode::Sort => 0,
        StatementCode::Term | StatementCode::LocalDefinition => mmb
            .unify_of_term(place.rows.terms)
            .0,
        StatementCode::Axiom | StatementCode::Theorem | StatementCode::LocalTheorem => {
            mmb.unify_of_thm(place.rows.thms).0
        }
    }
}

/// Appends the line of the statement's kind and row, and those of the row's words.
pub fn list_row(mmb: &Mmb, place: Place, code: StatementCode, text: &mut Vec<u8>) -> Result<(), Mem>
    requires { next_row place.rows code < row_count mmb.now code }
    ensures { OnOk result (text.new.items ≡ text.old.items ++ row_text mmb.now place code) }
{
    put_heading(mmb, place, code, text)?;
    list_words(mmb, place, code, text)
}

/// The name of the statement's kind.
#[tactic(auto, using(mz_layout_tables::proofs::TableLists::row_facts))]
fn kind_name(mmb: &Mmb, place: Place, code: StatementCode) -> &'static str
    requires { next_row place.rows code < row_count mmb.now code }
    ensures { result.now ≡ kind_name mmb.now place code }
{
    match code {
        StatementCode::Sort => "sort",
        StatementCode::Term => {
            if mmb.has_body(place.rows.terms) {
                "def"
            } else {
                "term"
            }
        }
        StatementCode::LocalDefinition => "local def",
        StatementCode::Axiom => "axiom",
        StatementCode::Theorem => "theorem",
        StatementCode::LocalTheorem => "local theorem",
    }
}

/// A sort's modifiers, or how many parameters the row has.
#[tactic(auto, using(mz_layout_tables::proofs::TableLists::row_facts))]
fn row_number(mmb: &Mmb, place: Place, code: StatementCode) -> u32
    requires { next_row place.rows code < row_count mmb.now code }
    ensures { result ≡ row_number mmb.now place code }
{
    match code {
        StatementCode::Sort => u32::from(mmb.mods(place.rows.sorts).0),
        StatementCode::Term | StatementCode::LocalDefinition => mmb.arity(place.rows.terms),
        StatementCode::Axiom | StatementCode::Theorem | StatementCode::LocalTheorem => {
            mmb.thm_arity(place.rows.thms)
        }
    }
}

/// Appends the line of the statement's kind and row.
fn put_heading(mmb: &Mmb, place: Place, code: StatementCode, text: &mut Vec<u8>) -> Result<(), Mem>
    requires { next_row place.rows code < row_count mmb.now code }
    ensures { OnOk result (text.new.items ≡ text.old.items ++ heading mmb.now place code) }
{
    text.extend_from_slice(kind_name(mmb, place, code).as_bytes())?;
    put_number(place.rows.next(code), text)?;
    put_number(row_number(mmb, place, code), text)?;
    text.extend_from_slice(b"\n")
}

/// Appends the lines of the row's words.
fn list_words(mmb: &Mmb, place: Place, code: StatementCode, text: &mut Vec<u8>) -> Result<(), Mem>
    requires { next_row place.rows code < row_count mmb.now code }
    ensures { OnOk result (text.new.items ≡ text.old.items ++ word_lines mmb.now place code) }
{
    match code {
        StatementCode::Sort => Ok(()),
        StatementCode::Term | StatementCode::LocalDefinition => {
            list_term(mmb, place.rows.terms, text)
        }
        StatementCode::Axiom | StatementCode::Theorem | StatementCode::LocalTheorem => {
            list_thm(mmb, place.rows.thms, text)
        }
    }
}

/// Appends the lines of a term's parameters and of its result.
#[tactic(auto, using(mz_layout_tables::proofs::TableLists::row_facts))]
fn list_term(mmb: &Mmb, t: u32, text: &mut Vec<u8>) -> Result<(), Mem>
    requires { t < term_count mmb.now }
    ensures { OnOk result (text.new.items ≡ text.old.items ++ term_lines mmb.now t) }
{
    for i in 0..mmb.arity(t) {
        put_param(mmb.param(t, i), text)?;
    }
    put_result(mmb.result(t), text)
}

/// Appends the lines of the parameters of an axiom or a theorem.
#[tactic(auto, using(mz_layout_tables::proofs::TableLists::row_facts))]
fn list_thm(mmb: &Mmb, thm: u32, text: &mut Vec<u8>) -> Result<(), Mem>
    requires { thm < thm_count mmb.now }
    ensures { OnOk result (text.new.items ≡ text.old.items ++ thm_lines mmb.now thm) }
{
    for i in 0..mmb.thm_arity(thm) {
        put_param(mmb.thm_param(thm, i), text)?;
    }
    Ok(())
}
