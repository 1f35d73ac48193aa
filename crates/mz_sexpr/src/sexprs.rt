ghost use Rattle.std.specs.Prelude.{ℕ, List, ◌≡◌, ◌++◌, ◌+◌, OnOk, IfOk, ◌<◌, ◌≤◌, ◌^◌, length, drop, get_or, map};
ghost use Rattle.std.specs.List.{take_while};
ghost use Rattle.std.specs.Option.{option_to_list};
ghost use Rattle.mz_sexpr.specs.Grammar.{is_letter};
ghost use Rattle.mz_sexpr.specs.Scan.{class_after, token_of};
ghost use Rattle.mz_sexpr.specs.Rows.{entry, entries, option_entry, level, Steps};
ghost use Rattle.mz_sexpr.specs.RowsRead.{AreRows};
ghost use Rattle.mz_sexpr.specs.Reading.{IsReading};

use crate::ends::{ends_of, put_sizes};
use crate::rule::{TextRefusal, U};
use crate::scan::{Class, Seen, class_at, fault_at};
use std::alloc::{AllocError, Global};
use std::marker::Model;

/// A node: how many lists are around it, how many rows it and its parts take, and the place of its
/// first byte. That byte says whether it is a list, and an atom's bytes are read off the text.
#[derive(Clone, Copy)]
pub(crate) struct Row {
    pub(crate) depth: u16,
    pub(crate) size: u16,
    pub(crate) at: u32,
}

/// The nodes of a text. They lie flat, in the order of their first bytes, and are spoken of by
/// their numbers from 0. An atom is a slice of the text itself.
#[derive(Drop)]
pub struct Sexprs<'a> {
    pub(crate) text: &'a [u8],
    pub(crate) rows: Vec<Row>,
    // for each node, the number of the first later one that is no part of it; none where the rows'
    // sizes yield them
    pub(crate) ends: Vec<u32>,
}

impl<'a> Model for Sexprs<'a> {
    ghost use Rattle.std.specs.Prelude.{map};
    ghost use Rattle.mz_sexpr.specs.Node.{Nodes};
    ghost use Rattle.mz_sexpr.specs.NodesCode.{nodes_code};

    ghost Value = { Nodes };

    ghost coded = { nodes_code };

    ghost use Rattle.mz_sexpr.specs.Rows.{entry, level, all_ends, IsLinked};

    ghost view = { λ a. level (map (entry a.text.now) a.rows.items) 0 };

    ghost invariant = { λ a. IsLinked (map (entry a.text.now) a.rows.items) (all_ends a.rows.items a.ends.items) };
}

/// What reading a text answers.
#[derive(Drop)]
pub enum SexprRead<'a> {
    /// The nodes.
    Nodes(Sexprs<'a>),
    /// The first byte that may not stand where it does, or the end with a list unclosed.
    Refused(TextRefusal),
    /// No memory was left.
    Mem,
}

/// The rows of a text, before their ends are known.
#[derive(Drop)]
pub(crate) enum RowsRead {
    Rows(Vec<Row>),
    Refused(TextRefusal),
    Mem,
}

fn is_letter(byte: u8) -> bool
    ensures { result ≡ Rattle.mz_sexpr.specs.Grammar.is_letter byte }
{
    !matches!(byte, b'(' | b')' | b' ' | b'\n')
}

/// The longest run of letters in front.
pub(crate) fn word_of(rest: &[u8]) -> &[u8]
    ensures { result.now ≡ take_while Rattle.mz_sexpr.specs.Grammar.is_letter rest.now }
{
    for n in 0..rest.len() {
        if !is_letter(rest[n]) {
            return &rest[..n];
        }
    }
    rest
}

/// The node that begins at the byte, if one does.
fn row_at(at: usize, seen: Seen, class: Class) -> Option<Row>
    requires at { at < 2 ^ 32 }
    requires depth { seen.depth ≤ 4096 }
    ensures { (text : List ℕ) → class ≡ class_after seen.last (get_or text at 0) (drop (at + 1) text) → at < length text
        → option_to_list (option_entry text result) ≡ entries seen.depth (token_of at seen.last class (drop at text)) }
{
    match (seen.last, class) {
        (Class::Letter, Class::Letter) => None,
        (_, Class::Opening | Class::Letter) => Some(Row {
            depth: seen.depth as u16,
            size: 0,
            at: at as u32,
        }),
        _ => None,
    }
}

fn push_if_any(rows: &mut Vec<Row>, row: Option<Row>) -> Result<(), AllocError>
    ensures { OnOk result (rows.new.items ≡ rows.old.items ++ option_to_list row) }
{
    if let Some(row) = row {
        rows.push(row)?;
    }
    Ok(())
}

/// The rows of a text, or the first of its bytes that may not stand where it does.
fn read_rows(alloc: Global, text: &[u8]) -> RowsRead
    requires { length text.now < 2 ^ 32 }
    ensures { AreRows text.now result }
{
    let mut rows: Vec<Row> = Vec::new(alloc);
    let mut seen = Seen::nothing();
    for i in 0..text.len() {
        let class = class_at(seen.last, text, i);
        if let Some(refusal) = fault_at(seen, i, text[i], class) {
            return RowsRead::Refused(refusal);
        }
        let row = row_at(i, seen, class);
        let Ok(()) = push_if_any(&mut rows, row) else {
            return RowsRead::Mem;
        };
        seen = seen.with(class);
    }
    if seen.depth == 0 {
        RowsRead::Rows(rows)
    } else {
        RowsRead::Refused(seen.refusal(text.len(), U::Parenthesis))
    }
}

/// The nodes of a text: the ends of its rows are kept where not all sizes fit into the rows.
fn linked<'a>(alloc: Global, text: &'a [u8], mut rows: Vec<Row>) -> Result<Sexprs<'a>, AllocError>
    requires steps { Steps 0 (map (entry text.now) rows.items) }
    requires short { length rows.items < 2 ^ 32 }
    ensures { IfOk result (λ nodes. nodes ≡ level (map (entry text.now) rows.items) 0) }
{
    if put_sizes(&mut rows) {
        return Ok(Sexprs {
            text,
            rows,
            ends: Vec::new(alloc),
        });
    }
    let ends = ends_of(alloc, &rows)?;
    Ok(Sexprs { text, rows, ends })
}

/// The nodes of a text, or the first of its bytes that may not stand where it does. The text has
/// at most 4,294,967,295 bytes.
pub fn read_sexprs<'a>(alloc: Global, text: &'a [u8]) -> SexprRead<'a>
    requires { length text.now < 2 ^ 32 }
    ensures { IsReading text.now result }
{
    match read_rows(alloc, text) {
        RowsRead::Rows(rows) => match linked(alloc, text, rows) {
            Ok(nodes) => SexprRead::Nodes(nodes),
            Err(_) => SexprRead::Mem,
        },
        RowsRead::Refused(refusal) => SexprRead::Refused(refusal),
        RowsRead::Mem => SexprRead::Mem,
    }
}
