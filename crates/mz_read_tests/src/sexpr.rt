ghost use Rattle.std.specs.Prelude.{◌<◌, IfSome};
ghost use Rattle.mz_sexpr.specs.Number.{node_count};

use crate::expect::{expect, expect_bytes};
use mz_sexpr::{SexprRead, Sexprs, read_sexprs};
use std::alloc::{AllocError, Global};

/// A node is its place and `(`, or `()` for a list without parts, or the atom; then `.` where it is
/// the last of its list.
fn write_node(alloc: Global, nodes: &Sexprs, n: u32, out: &mut Vec<u8>) -> Result<(), AllocError>
    requires { n < node_count nodes.now }
{
    let word = if nodes.is_atom(n) {
        nodes.atom(n)
    } else if nodes.first(n).is_some() {
        b"(".as_slice()
    } else {
        b"()".as_slice()
    };
    let end = if nodes.next(n).is_none() { ". " } else { " " };
    let place = format!(in alloc; "{}", nodes.at(n))?;
    let node = [place.as_bytes(), word, end.as_bytes()].concat(alloc)?;
    out.extend_from_slice(&node)
}

/// The node with its parts, and the later nodes of its list, no more than `limit` in one another or
/// after one another.
fn outline(
    alloc: Global,
    nodes: &Sexprs,
    node: Option<u32>,
    limit: u32,
    out: &mut Vec<u8>,
) -> Result<(), AllocError>
    requires { IfSome node (λ n. n < node_count nodes.now) }
{
    if limit == 0 {
        return Ok(());
    }
    let Some(n) = node else {
        return Ok(());
    };
    write_node(alloc, nodes, n, out)?;
    outline(alloc, nodes, nodes.first(n), limit - 1, out)?;
    outline(alloc, nodes, nodes.next(n), limit - 1, out)
}

fn whole_outline(alloc: Global, nodes: &Sexprs) -> Result<Vec<u8>, AllocError> {
    let mut out: Vec<u8> = Vec::new(alloc);
    outline(alloc, nodes, nodes.roots(), 10000, &mut out)?;
    Ok(out)
}

/// The outline of a text that is read.
fn description(alloc: Global, text: &[u8]) -> Result<Vec<u8>, AllocError> {
    if text.len() >= 10000 {
        return Err(AllocError);
    }
    match read_sexprs(alloc, text) {
        SexprRead::Nodes(nodes) => whole_outline(alloc, &nodes),
        SexprRead::Refused(_) | SexprRead::Mem => Err(AllocError),
    }
}

/// Texts, each with its outline, written by hand.
const TEXTS: &[(&str, &str)] = &[
    ("", ""),
    ("\n -- only a comment", ""),
    ("-- )(", ""),
    ("a", "0a. "),
    ("(sort wff provable)", "0(. 1sort 6wff 10provable. "),
    ("(a (b) ()) c", "0( 1a 3( 4b. 7(). 11c. "),
    ("()()", "0() 2(). "),
    ("((a)b)c", "0( 1( 2a. 4b. 6c. "),
    // `--` within an atom is no comment; elsewhere it is one, to the end of its line
    ("a--b", "0a--b. "),
    ("-- x\na", "5a. "),
    ("(--b)\n)", "0(). "),
    ("a --b\n--\n--", "0a. "),
    ("a-- b", "0a-- 4b. "),
    ("a(--)\n)b", "0a 1() 7b. "),
    // one `-` is an atom
    ("-", "0-. "),
    ("- -", "0- 2-. "),
    ("-(a)-", "0- 1( 2a. 4-. "),
];

#[test]
fn nodes(rt: HostRuntime) {
    for (text, wanted) in TEXTS {
        let found = description(rt.alloc(), text.as_bytes()).expect(&rt, "memory");
        expect_bytes(&rt, &found, wanted.as_bytes(), text);
    }
}

/// The outline of so many lists in one another.
fn nested(alloc: Global, depth: usize) -> Result<Vec<u8>, AllocError> {
    let front: Vec<u8> = vec![in alloc; b'('; depth]?;
    let back: Vec<u8> = vec![in alloc; b')'; depth]?;
    let text = [front.as_slice(), back.as_slice()].concat(alloc)?;
    description(alloc, &text)
}

#[test]
fn deep_lists(rt: HostRuntime) {
    let outline = nested(rt.alloc(), 4096).expect(&rt, "memory");
    expect(&rt, outline.starts_with(b"0(. 1(. 2(. "), "the first ones");
    expect(&rt, outline.ends_with(b" 4094(. 4095(). "), "the last ones");
}
