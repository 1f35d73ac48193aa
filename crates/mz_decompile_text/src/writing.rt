//! Writing a phrase with a list of the lists that are not closed yet.
ghost use Rattle.std.specs.Prelude.{◌≡◌, ◌<◌, ◌≤◌, ◌+◌, ◌*◌, ◌++◌, OnOk, length};
ghost use Rattle.mz_decompile_text.specs.Phrases.{written};
ghost use Rattle.mz_decompile_text.specs.ByNumber.{phrase_at};
ghost use Rattle.mz_decompile_text.specs.Writing.{AreOpen, IsOpen, left, left_of, weight, weight_of, separator};
ghost use Rattle.mz_decompile_text.specs.Staying.{StaysIn};

use crate::phrases::{Phrases, Shape};
use std::alloc::{AllocError, Global};

/// A list that is being written: its parts that are left, and whether none is written yet.
#[derive(Drop)]
pub struct Open<'a> {
    pub parts: &'a [usize],
    pub first: bool,
}

/// Appends the text of a phrase.
pub(crate) fn write_phrase(
    alloc: Global,
    phrases: &Phrases,
    n: usize,
    out: &mut Vec<u8>,
) -> Result<(), AllocError>
    requires { n < length phrases.now }
    ensures ok { OnOk result (out.new.items ≡ out.old.items ++ written (phrase_at phrases.now n)) }
    ensures stays { StaysIn out.old.items out.new.items }
{
    let mut lists = Vec::new(alloc);
    begin(phrases, n, &mut lists, out)?;
    while let Some(list) = lists.pop() {
        go_on(phrases, list, &mut lists, out)?;
    }
    Ok(())
}

/// Writes a token, or the opening bracket of a list, whose parts are left then.
fn begin<'a>(
    phrases: &'a Phrases,
    n: usize,
    lists: &mut Vec<Open<'a>>,
    out: &mut Vec<u8>,
) -> Result<(), AllocError>
    requires number { n < length phrases.now }
    requires lists { AreOpen phrases.now lists.old.items }
    ensures lists { OnOk result (AreOpen phrases.now lists.new.items) }
    ensures does { OnOk result (out.new.items ++ left phrases.now lists.new.items
        ≡ out.old.items ++ (written (phrase_at phrases.now n) ++ left phrases.now lists.old.items)) }
    ensures less { OnOk result (weight phrases.now lists.new.items
        ≤ 2 * length (written (phrase_at phrases.now n)) + weight phrases.now lists.old.items) }
    ensures stays { StaysIn out.old.items out.new.items }
{
    match phrases.shape(n) {
        Shape::Word(bytes) => out.extend_from_slice(bytes)?,
        Shape::Parts(parts) => {
            out.push(b'(')?;
            lists.push(Open { parts, first: true })?;
        }
    }
    Ok(())
}

/// Writes the next part of a list up to its own parts, or the closing bracket.
fn go_on<'a>(
    phrases: &'a Phrases,
    list: Open<'a>,
    lists: &mut Vec<Open<'a>>,
    out: &mut Vec<u8>,
) -> Result<(), AllocError>
    requires list { IsOpen phrases.now list }
    requires lists { AreOpen phrases.now lists.old.items }
    ensures lists { OnOk result (AreOpen phrases.now lists.new.items) }
    ensures does { OnOk result (out.new.items ++ left phrases.now lists.new.items
        ≡ out.old.items ++ (left_of phrases.now list.entry ++ left phrases.now lists.old.items)) }
    ensures less { OnOk result (weight phrases.now lists.new.items
        < weight_of phrases.now list.entry + weight phrases.now lists.old.items) }
    ensures stays { StaysIn out.old.items out.new.items }
{
    match list.parts {
        [] => {
            out.push(b')')?;
            Ok(())
        }
        [part, rest @ ..] => {
            separate(list.first, out)?;
            lists.push(Open {
                parts: rest,
                first: false,
            })?;
            begin(phrases, *part, lists, out)
        }
    }
}

/// Writes the space before a part, unless it is the first.
fn separate(first: bool, out: &mut Vec<u8>) -> Result<(), AllocError>
    ensures ok { OnOk result (out.new.items ≡ out.old.items ++ separator first) }
    ensures stays { StaysIn out.old.items out.new.items }
{
    if !first {
        out.push(b' ')?;
    }
    Ok(())
}
