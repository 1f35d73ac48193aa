// The proofs that worked bodies make, node by node.

ghost use Rattle.std.specs.Prelude.{◌≡◌, ◌<◌, length};
ghost use Rattle.mz_machine_env.specs.OwnRow.{MayRun};

use crate::binary::FOLD;
use crate::machine::{CITE, CITES, FOLDS, Theorem, may_run};
use mz_base::Mode;
use mz_binary_theory::Statement;
use mz_cmd::{Mem, Steps, StmtAt, stmt_at};
use mz_layout_tables::Mmb;
use mz_machine::{BodyChecked, check_body};
use mz_trace::{Run, RunNode, Traced, trace};
use std::alloc::{AllocError, Global};
use std::marker::Brand;
use std::sync::ledger::{Blank, Ledger};

/// The proof that the body makes of the theorem whose statement stands at a place, where the body runs.
fn traced<L: Ledger>(
    alloc: Global,
    blank: Blank,
    mmb: &Mmb,
    theorem: Theorem,
    at: u32,
) -> Result<Run, Mem>
    requires name { blank.name ≡ L.name }
    requires parts { blank.parts ≡ L.parts }
    requires some { 0 < blank.parts }
    requires may_run { MayRun mmb.now 0x06 theorem.row theorem.before }
{
    let mut steps = Steps::<L>::start(blank);
    let Ok(StmtAt::Head { body, next, .. }) = stmt_at(mmb.file(), at) else {
        return Err(AllocError);
    };
    if body > next || next as usize > mmb.file().len() {
        return Err(AllocError);
    }
    let Theorem { row, before, .. } = theorem;
    let places = (body, next);
    let strict = Mode::Strict;
    let BodyChecked::Good(_) = check_body(alloc, mmb, strict, 0x06, row, before, places, &mut steps)
    else {
        return Err(AllocError);
    };
    let statement = Statement {
        number: 1,
        at,
        kind: 6,
        row,
        local: false,
        gap: false,
    };
    match trace(alloc, mmb, &statement, &mut steps) {
        Traced::Run(run) => Ok(run),
        Traced::Mem => Err(AllocError),
    }
}

/// The same of a file whose theorem may run.
fn proof_of(alloc: Global, file: &[u8], theorem: Theorem, at: u32) -> Result<Run, Mem> {
    if file.len() >= 200 {
        return Err(AllocError);
    }
    let Ok(mmb) = Mmb::read(file) else {
        return Err(AllocError);
    };
    if !may_run(&mmb, theorem.row, theorem.before) {
        return Err(AllocError);
    }
    traced::<Brand>(alloc, Blank::new(1), &mmb, theorem, at)
}

/// What is behind the numbers, where they are the first of these.
fn behind<'a>(wanted: Option<&'a [u32]>, first: &[u32]) -> Option<&'a [u32]> {
    let wanted = wanted?;
    if wanted.get(..first.len()) == Some(first) {
        wanted.get(first.len()..)
    } else {
        None
    }
}

/// The same of one number.
fn after<'a>(wanted: Option<&'a [u32]>, first: u32) -> Option<&'a [u32]> {
    let wanted = wanted?;
    if wanted.get(0) == Some(&first) {
        wanted.get(1..)
    } else {
        None
    }
}

/// Whether a node is these numbers: 0 for a variable, 1 an application, 2 a hypothesis, 3 a let, 4 a
/// citation, 5 a conversion of a proof, 6 a reflexivity, 7 a turned conversion, 8 a congruence, 9 an
/// unfolding; then its own numbers in order.
fn is_node(node: &RunNode, wanted: &[u32]) -> bool {
    let wanted = Some(wanted);
    let left = match node {
        RunNode::Var(place) => after(after(wanted, 0), *place),
        RunNode::App(term, es) => behind(after(after(wanted, 1), *term), es),
        RunNode::Hyp(i) => after(after(wanted, 2), *i),
        RunNode::Let(i) => after(after(wanted, 3), *i),
        RunNode::Use(row, claim, es, proofs) => {
            let operands = after(after(after(wanted, 4), *row), *claim);
            behind(behind(operands, es), proofs)
        }
        RunNode::Conv(claim, conv, proof) => {
            after(after(after(after(wanted, 5), *claim), *conv), *proof)
        }
        RunNode::Refl(e) => after(after(wanted, 6), *e),
        RunNode::Sym(conv) => after(after(wanted, 7), *conv),
        RunNode::Cong(term, convs) => behind(after(after(wanted, 8), *term), convs),
        RunNode::Unfold(term, body, es, met, conv) => {
            let operands = after(after(after(wanted, 9), *term), *body);
            after(behind(behind(operands, es), met), *conv)
        }
    };
    match left {
        Some(left) => left.is_empty(),
        None => false,
    }
}

/// A sort, an axiom that states the first of two parameters, and a theorem that cites it with a dummy for
/// the second.
const SPARE: &[u8] = &[
    0x4D, 0x4D, 0x30, 0x42, 1, 1, 0, 0, 0, 0, 0, 0, 2, 0, 0, 0, 0x30, 0, 0, 0, 0x30, 0, 0, 0, 0x68,
    0, 0, 0, 0, 0, 0, 0, 0, 0, 0, 0, 0, 0, 0, 0, 4, 0, 0, 0, 0, 0, 0, 0, 2, 0, 0, 0, 0x40, 0, 0, 0,
    1, 0, 0, 0, 0x58, 0, 0, 0, 0, 0, 0, 0, 0, 0, 0, 0, 0, 0, 0, 0, 0, 0, 0, 0, 0x32, 0, 0, 0, 0, 0,
    0, 0, 0, 0, 0, 0, 0, 0, 0, 0, 0x32, 0, 0, 0, 0, 0, 0, 0, 0x44, 2, 0x42, 4, 0x12, 0, 0x46, 7,
    0x12, 0x13, 0x12, 0x14, 0, 0,
];

/// What stands before the theorem's body and what comes then, the theorem and where its statement
/// stands; the nodes, the lets, the proof behind them, and the sorts of the dummies.
type Case = (
    (&'static [u8], usize),
    &'static [u8],
    (Theorem, u32),
    &'static [&'static [u32]],
    &'static [u32],
    u32,
    &'static [u32],
);

const CASES: &[Case] = &[
    // Each application is made again, so each has a node of its own.
    (
        (FOLD, 139),
        &[
            0x15, 0x12, 0x10, 0x10, 0x16, 0x12, 0x50, 1, 0x52, 1, 0x17, 0x12, 0x50, 1, 0x12, 0x10,
            0x10, 0x1B, 0x18, 0, 0,
        ],
        (FOLDS, 138),
        &[
            &[0, 0],
            &[1, 0, 0],
            &[1, 0, 1],
            &[2, 0],
            &[1, 1, 0],
            &[1, 1, 0],
            &[1, 0, 0],
            &[1, 0, 6],
            &[6, 7],
            &[9, 1, 7, 0, 8],
            &[5, 4, 9, 3],
        ],
        &[],
        10,
        &[],
    ),
    // The same, with both sides saved: what is referred to makes no node.
    (
        (FOLD, 139),
        &[
            0x13, 0x12, 0x10, 0x11, 0x16, 0x12, 0x51, 1, 0x52, 2, 0x17, 0x52, 3, 0x52, 1, 0x1B,
            0x18, 0, 0,
        ],
        (FOLDS, 138),
        &[
            &[0, 0],
            &[1, 0, 0],
            &[1, 0, 1],
            &[2, 0],
            &[1, 1, 0],
            &[6, 2],
            &[9, 1, 2, 0, 5],
            &[5, 4, 6, 3],
        ],
        &[],
        7,
        &[],
    ),
    // A conversion that is saved, and used three times, once turned.
    (
        (FOLD, 139),
        &[
            0x20, 0x12, 0x10, 0x11, 0x16, 0x12, 0x51, 1, 0x52, 1, 0x52, 3, 0x52, 2, 0x17, 0x1C,
            0x52, 3, 0x52, 1, 0x1B, 0x18, 0x1E, 0x17, 0x19, 0x52, 4, 0x17, 0x52, 4, 0, 0,
        ],
        (FOLDS, 138),
        &[
            &[0, 0],
            &[1, 0, 0],
            &[1, 0, 1],
            &[2, 0],
            &[1, 1, 0],
            &[6, 2],
            &[9, 1, 2, 0, 5],
            &[5, 4, 6, 3],
            &[7, 6],
            &[5, 2, 8, 7],
            &[5, 4, 6, 9],
        ],
        &[],
        10,
        &[],
    ),
    // A citation, and one that gets a name.
    (
        (CITE, 106),
        &[0x54, 0, 0, 0],
        (CITES, 102),
        &[&[0, 0], &[4, 0, 0, 0]],
        &[],
        1,
        &[],
    ),
    (
        (CITE, 106),
        &[0x55, 0, 0, 0],
        (CITES, 102),
        &[&[0, 0], &[4, 0, 0, 0], &[3, 0]],
        &[1],
        2,
        &[],
    ),
    // That one saved, which gives it a second name.
    (
        (CITE, 103),
        &[8, 0x12, 0x12, 0x55, 0, 0x1F, 0, 0],
        (CITES, 102),
        &[&[0, 0], &[4, 0, 0, 0], &[3, 0], &[3, 1]],
        &[1, 2],
        3,
        &[],
    ),
    // A conversion of operands.
    (
        (FOLD, 139),
        &[
            0x16, 0x12, 0x10, 0x10, 0x16, 0x12, 0x50, 1, 0x52, 1, 0x17, 0x12, 0x50, 1, 0x12, 0x10,
            0x10, 0x1B, 0x1A, 0x18, 0, 0,
        ],
        (FOLDS, 138),
        &[
            &[0, 0],
            &[1, 0, 0],
            &[1, 0, 1],
            &[2, 0],
            &[1, 1, 0],
            &[1, 1, 0],
            &[1, 0, 0],
            &[1, 0, 6],
            &[6, 6],
            &[8, 0, 8],
            &[9, 1, 7, 0, 9],
            &[5, 4, 10, 3],
        ],
        &[],
        11,
        &[],
    ),
    // A dummy, which is a variable behind the parameter. The rows are those of the file with a citation.
    (
        (SPARE, 112),
        &[0x12, 0x13, 0x12, 0x14, 0, 0],
        (CITES, 110),
        &[&[0, 0], &[0, 1], &[4, 0, 0, 0, 1]],
        &[],
        2,
        &[0],
    ),
];

fn file_of(alloc: Global, front: &[u8], cut: usize, then: &[u8]) -> Result<Vec<u8>, Mem> {
    let mut file = Vec::new(alloc);
    file.extend_from_slice(front.get(..cut).unwrap_or(front))?;
    file.extend_from_slice(then)?;
    Ok(file)
}

/// Whether the nodes are these numbers, each.
fn are_nodes(run: &Run, wanted: &[&[u32]]) -> bool {
    let nodes = run.nodes();
    for i in 0..nodes.len() {
        let Some(node) = wanted.get(i) else {
            return false;
        };
        if !is_node(&nodes[i], node) {
            return false;
        }
    }
    nodes.len() == wanted.len()
}

/// Whether the proofs with names are these, in order.
fn are_lets(run: &Run, wanted: &[u32]) -> bool {
    'lets: for i in 0..run.let_count() {
        if wanted.get(i as usize) != Some(&run.let_root(i)) {
            return false;
        }
    }
    run.let_count() as usize == wanted.len()
}

/// Whether the last proof is the node with this number.
fn is_last(run: &Run, nodes: &[&[u32]], root: u32) -> bool {
    match nodes.get(root as usize) {
        Some(node) => run.root() == root && is_node(run.node(run.root()), node),
        None => false,
    }
}

#[test]
fn proofs_of_bodies(rt: HostRuntime) {
    for ((front, cut), then, (theorem, at), nodes, lets, root, dummies) in CASES {
        let file = file_of(rt.alloc(), front, *cut, then).expect(&rt, "memory");
        let run = proof_of(rt.alloc(), &file, *theorem, *at).expect(&rt, "memory");
        assert!(rt; are_nodes(&run, nodes), "nodes of {then:?}");
        assert!(rt; are_lets(&run, lets), "lets of {then:?}");
        assert!(rt; is_last(&run, nodes, *root), "the last proof of {then:?}");
        assert!(rt; run.dummies() == *dummies, "dummies of {then:?}");
    }
}
