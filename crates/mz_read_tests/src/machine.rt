// Bodies by themselves, whole and command by command, and what they cite first.

ghost use Rattle.std.specs.Prelude.{◌≡◌, ◌≤◌, ◌<◌, ◌+◌, ◌^◌, IsTrue, ℕ, length};
ghost use Rattle.mz_layout_tables.specs.Tables.{sort_count, term_count, thm_count};
ghost use Rattle.mz_machine_env.specs.Before.{HasRightParams, HasRightWords};
ghost use Rattle.mz_machine_env.specs.OwnRow.{MayRun};

use crate::binary::{FOLD, with_byte};
use mz_axioms::cited_at;
use mz_base::Mode;
use mz_binary_theory::Statement;
use mz_cmd::{Cmd, K, Mem, Steps, StmtAt, stmt_at};
use mz_layout_tables::{Mmb, Rows, check_term_words, check_thm_words};
use mz_logic_theory::Terms;
use mz_machine::{BodyChecked, BodyEnd, Finished, Machine, Stepped, check_body};
use mz_pmachine::check_portable;
use std::alloc::{AllocError, Global};
use std::marker::Brand;
use std::sync::ledger::{Blank, Ledger};

/// A sort, an axiom that states its parameter, and a theorem that cites it.
pub const CITE: &[u8] = &[
    0x4D, 0x4D, 0x30, 0x42, 1, 1, 0, 0, 0, 0, 0, 0, 2, 0, 0, 0, 0x30, 0, 0, 0, 0x30, 0, 0, 0, 0x60,
    0, 0, 0, 0, 0, 0, 0, 0, 0, 0, 0, 0, 0, 0, 0, 4, 0, 0, 0, 0, 0, 0, 0, 1, 0, 0, 0, 0x40, 0, 0, 0,
    1, 0, 0, 0, 0x50, 0, 0, 0, 0, 0, 0, 0, 0, 0, 0, 0, 0x32, 0, 0, 0, 0, 0, 0, 0, 0, 0, 0, 0, 0, 0,
    0, 0, 0x32, 0, 0, 0, 0, 0, 0, 0, 0x44, 2, 0x42, 4, 0x12, 0, 0x46, 7, 0x12, 0x12, 0x54, 0, 0, 0,
];

/// A theorem of a file: its row, the rows before it, and the places of its body.
#[derive(Clone, Copy)]
pub struct Theorem {
    pub row: u32,
    pub before: Rows,
    pub body: (u32, u32),
}

/// That of the file with a double negation.
pub const FOLDS: Theorem = Theorem {
    row: 0,
    before: Rows {
        sorts: 1,
        terms: 2,
        thms: 0,
    },
    body: (140, 159),
};

/// That of the file with a citation.
pub const CITES: Theorem = Theorem {
    row: 1,
    before: Rows {
        sorts: 1,
        terms: 0,
        thms: 1,
    },
    body: (104, 109),
};

/// Whether the words of the first terms' rows are right.
fn are_terms_right(mmb: &Mmb, sorts: u32, terms: u32) -> bool
    requires sorts { sorts ≤ sort_count mmb.now }
    requires terms { terms ≤ term_count mmb.now }
    ensures { IsTrue result → (t : ℕ) → t < terms → HasRightWords mmb.now sorts t }
{
    'terms: for t in 0..terms {
        let Ok(()) = check_term_words(mmb, sorts, t) else {
            return false;
        };
    }
    true
}

/// Whether those of the first assertions' rows are.
fn are_thms_right(mmb: &Mmb, sorts: u32, thms: u32) -> bool
    requires sorts { sorts ≤ sort_count mmb.now }
    requires thms { thms ≤ thm_count mmb.now }
    ensures { IsTrue result → (i : ℕ) → i < thms → HasRightParams mmb.now sorts i }
{
    'thms: for i in 0..thms {
        let Ok(()) = check_thm_words(mmb, sorts, i) else {
            return false;
        };
    }
    true
}

/// Whether the rows before the theorem are there, its own is the next one, and the words of all are right.
pub fn may_run(mmb: &Mmb, row: u32, before: Rows) -> bool
    ensures { IsTrue result → MayRun mmb.now 0x06 row before }
{
    if before.sorts > mmb.sorts() || before.terms > mmb.terms() {
        return false;
    }
    if row != before.thms || row >= mmb.thms() {
        return false;
    }
    if !are_terms_right(mmb, before.sorts, before.terms) {
        return false;
    }
    are_thms_right(mmb, before.sorts, row + 1)
}

/// What becomes of the theorem's body, by the standard machine or by identity.
fn check_alone<L: Ledger>(
    alloc: Global,
    blank: Blank,
    mmb: &Mmb,
    theorem: Theorem,
    mode: Option<Mode>,
) -> BodyChecked
    requires name { blank.name ≡ L.name }
    requires parts { blank.parts ≡ L.parts }
    requires some { 0 < blank.parts }
    requires may_run { MayRun mmb.now 0x06 theorem.row theorem.before }
    requires order { theorem.body.0 ≤ theorem.body.1 }
    requires within { theorem.body.1 ≤ length mmb.now }
{
    let mut steps = Steps::<L>::start(blank);
    let Theorem { row, before, body } = theorem;
    match mode {
        Some(mode) => check_body(alloc, mmb, mode, 0x06, row, before, body, &mut steps),
        None => check_portable(alloc, mmb, 0x06, row, before, body, &mut steps),
    }
}

/// The same of a file whose theorem may run.
fn body_of(
    alloc: Global,
    file: &[u8],
    theorem: Theorem,
    mode: Option<Mode>,
) -> Result<BodyChecked, Mem> {
    if file.len() >= 200
        || theorem.body.0 > theorem.body.1
        || theorem.body.1 as usize > file.len()
    {
        return Err(AllocError);
    }
    let Ok(mmb) = Mmb::read(file) else {
        return Err(AllocError);
    };
    if !may_run(&mmb, theorem.row, theorem.before) {
        return Err(AllocError);
    }
    Ok(check_alone::<Brand>(alloc, Blank::new(1), &mmb, theorem, mode))
}

/// A body that has run.
const GOOD: BodyChecked = BodyChecked::Good(BodyEnd {
    hyps: 1,
    dummies: 0,
    sorry: false,
});

/// One with a gap.
const GAPPED: BodyChecked = BodyChecked::Good(BodyEnd {
    hyps: 1,
    dummies: 0,
    sorry: true,
});

/// One without hypotheses.
const CITED_ALONE: BodyChecked = BodyChecked::Good(BodyEnd {
    hyps: 0,
    dummies: 0,
    sorry: false,
});

/// Of the file with a double negation a byte in place of that at 157, a reflexivity; a mode of the
/// standard machine, or none for comparison by identity; and what becomes of the body. By identity the
/// left side of the unfolding isn't that of the conversion, since another command has built it.
const FOLDED: &[(u8, Option<Mode>, BodyChecked)] = &[
    (0x18, Some(Mode::Strict), GOOD),
    (
        0x20,
        Some(Mode::Strict),
        BodyChecked::Refused {
            at: 157,
            rule: K::Sorry,
        },
    ),
    (0x20, Some(Mode::Draft), GAPPED),
    (
        0x18,
        None,
        BodyChecked::Refused {
            at: 156,
            rule: K::Unfold,
        },
    ),
];

#[test]
fn bodies_alone(rt: HostRuntime) {
    for (byte, mode, wanted) in FOLDED {
        let file = with_byte(rt.alloc(), 157, *byte).expect(&rt, "memory");
        let found = body_of(rt.alloc(), &file, FOLDS, *mode).expect(&rt, "memory");
        assert_eq!(rt; found, *wanted, "{byte} at 157");
    }
    for mode in [Some(Mode::Strict), Some(Mode::Draft), None] {
        let found = body_of(rt.alloc(), CITE, CITES, mode).expect(&rt, "memory");
        assert_eq!(rt; found, CITED_ALONE, "a citation");
    }
}

/// What becomes of the commands and the END behind them, on a machine by itself.
fn by_hand<L: Ledger>(
    alloc: Global,
    blank: Blank,
    mmb: &Mmb,
    theorem: Theorem,
    commands: &[(u8, u32)],
) -> Result<Finished, Mem>
    requires name { blank.name ≡ L.name }
    requires parts { blank.parts ≡ L.parts }
    requires some { 0 < blank.parts }
    requires may_run { MayRun mmb.now 0x06 theorem.row theorem.before }
{
    let mut steps = Steps::<L>::start(blank);
    let mut machine = Machine::begin(alloc, mmb, Mode::Strict, 0x06, theorem.row, theorem.before)?;
    'commands: for (code, value) in commands {
        if *code == 0 {
            return Err(AllocError);
        }
        let cmd = Cmd {
            code: *code,
            value: *value,
            len: 5,
        };
        match machine.step(cmd, &mut steps) {
            Stepped::Machine(after) => machine = after,
            Stepped::Refused(rule) => return Ok(Finished::Refused(rule)),
            Stepped::Mem => return Err(AllocError),
        }
    }
    Ok(machine.finish(&mut steps))
}

/// The same of a file whose theorem may run.
fn ended(
    alloc: Global,
    file: &[u8],
    theorem: Theorem,
    commands: &[(u8, u32)],
) -> Result<Finished, Mem> {
    if file.len() >= 200 {
        return Err(AllocError);
    }
    let Ok(mmb) = Mmb::read(file) else {
        return Err(AllocError);
    };
    if !may_run(&mmb, theorem.row, theorem.before) {
        return Err(AllocError);
    }
    by_hand::<Brand>(alloc, Blank::new(1), &mmb, theorem, commands)
}

/// A file, its theorem, the commands of a body before its END, by codes and operands, and what becomes
/// of them: the bodies that the files have; one command too few; and a place that isn't in the heap.
const BY_HAND: &[(&[u8], Theorem, &[(u8, u32)], Finished)] = &[
    (
        FOLD,
        FOLDS,
        &[
            (0x12, 0),
            (0x10, 0),
            (0x10, 0),
            (0x16, 0),
            (0x12, 0),
            (0x10, 1),
            (0x12, 1),
            (0x17, 0),
            (0x12, 0),
            (0x10, 1),
            (0x12, 0),
            (0x10, 0),
            (0x10, 0),
            (0x1B, 0),
            (0x18, 0),
        ],
        Finished::Body(BodyEnd {
            hyps: 1,
            dummies: 0,
            sorry: false,
        }),
    ),
    (
        CITE,
        CITES,
        &[(0x12, 0), (0x12, 0), (0x14, 0)],
        Finished::Body(BodyEnd {
            hyps: 0,
            dummies: 0,
            sorry: false,
        }),
    ),
    (
        CITE,
        CITES,
        &[(0x12, 0), (0x12, 0)],
        Finished::Refused(K::FinalStack),
    ),
    (CITE, CITES, &[(0x12, 1)], Finished::Refused(K::HeapIndex)),
];

#[test]
fn bodies_command_by_command(rt: HostRuntime) {
    for (file, theorem, commands, wanted) in BY_HAND {
        let found = ended(rt.alloc(), file, *theorem, commands).expect(&rt, "memory");
        assert_eq!(rt; found, *wanted, "{commands:?}");
    }
}

/// The row that the statement at a place cites first from another place on, and the place behind; the
/// outer `None` where the other is no place of its body.
fn cited_from(file: &[u8], at: u32, pos: u32) -> Option<Option<(u32, u32)>> {
    if file.len() >= 200 {
        return None;
    }
    let Ok(mmb) = Mmb::read(file) else {
        return None;
    };
    let Ok(StmtAt::Head { body, next, .. }) = stmt_at(mmb.file(), at) else {
        return None;
    };
    if pos < body || pos > next {
        return None;
    }
    let statement = Statement {
        number: 1,
        at,
        kind: 6,
        row: 0,
        local: false,
        gap: false,
    };
    Some(cited_at(&mmb, &statement, pos))
}

/// Places of a statement and of a command of its body, and what is cited from there on.
const CITED: &[(u32, u32, Option<(u32, u32)>)] = &[
    (98, 100, None),
    (102, 104, Some((0, 108))),
    (102, 106, Some((0, 108))),
    (102, 108, None),
    (102, 109, None),
];

#[test]
fn first_citations(rt: HostRuntime) {
    for (at, pos, wanted) in CITED {
        assert_eq!(rt;
            cited_from(CITE, *at, *pos),
            Some(*wanted),
            "{at} from {pos}"
        );
    }
}
