ghost use Rattle.std.specs.Prelude.{◌≡◌, ◌+◌, ◌<◌, IsTrue};
ghost use Rattle.mz_cmd.specs.Codes.{is_known};

use mz_cmd::{
    Cmd, CmdFault, Mem, ProofCode, StatementCode, Steps, StmtAt, StmtFault, UnifyCode, UnknownCode,
    cmd_at, is_known_code, put_cmd, stmt_at,
};
use std::alloc::Global;
use std::marker::Brand;
use std::process::Abort;
use std::sync::ledger::{Blank, Ledger};

/// Bytes, a place, and the command there: its code, its operand and its length.
const COMMANDS: &[(&[u8], u32, u8, u32, u8)] = &[
    (&[0x00], 0, 0x00, 0, 1),
    (&[0x12], 0, 0x12, 0, 1),
    (&[0x52, 0x01], 0, 0x12, 1, 2),
    (&[0x52, 0x00], 0, 0x12, 0, 2),
    (&[0x92, 0x01, 0x00], 0, 0x12, 1, 3),
    (&[0x92, 0x34, 0x12], 0, 0x12, 0x1234, 3),
    (&[0xD2, 1, 0, 0, 0], 0, 0x12, 1, 5),
    (&[0xC4, 0x78, 0x56, 0x34, 0x12], 0, 0x04, 0x1234_5678, 5),
    (
        &[0xC4, 0xFF, 0xFF, 0xFF, 0xFF, 9],
        0,
        0x04,
        4_294_967_295,
        5,
    ),
    (&[0x40, 0x05], 0, 0x00, 5, 2),
    (&[0xE0, 1, 2, 3, 4], 0, 0x20, 0x0403_0201, 5),
    (&[0xFF, 0x44, 2, 0], 1, 0x04, 2, 2),
    (&[0xFF, 0x44, 2, 0], 3, 0x00, 0, 1),
];

/// Bytes, a place, and why no command stands there: cut at each place, and unknown in each size.
const NO_COMMANDS: &[(&[u8], u32, CmdFault)] = &[
    (&[], 0, CmdFault::Cut),
    (&[0xFF, 0x44, 2, 0], 4, CmdFault::Cut),
    (&[0x44], 0, CmdFault::Cut),
    (&[0x84], 0, CmdFault::Cut),
    (&[0x84, 3], 0, CmdFault::Cut),
    (&[0xC4], 0, CmdFault::Cut),
    (&[0xC4, 5], 0, CmdFault::Cut),
    (&[0xC4, 5, 0], 0, CmdFault::Cut),
    (&[0xC4, 5, 0, 0], 0, CmdFault::Cut),
    (&[0x40], 0, CmdFault::Cut),
    (&[0x41], 0, CmdFault::Cut),
    (&[0x01], 0, CmdFault::Unknown),
    (&[0x41, 0], 0, CmdFault::Unknown),
    (&[0x81, 0, 0], 0, CmdFault::Unknown),
    (&[0xC1, 0, 0, 0, 0], 0, CmdFault::Unknown),
    (&[0x34], 0, CmdFault::Unknown),
    (&[0x3F], 0, CmdFault::Unknown),
];

fn expect_command(rt: &impl Abort, bytes: &[u8], pos: u32, wanted: Result<Cmd, CmdFault>) {
    assert!(rt; pos as usize <= bytes.len());
    assert_eq!(rt; cmd_at(bytes, pos), wanted, "{bytes:?} at {pos}");
}

#[test]
fn commands_are_read(rt: HostRuntime) {
    for (bytes, pos, code, value, len) in COMMANDS {
        let wanted = Cmd {
            code: *code,
            value: *value,
            len: *len,
        };
        expect_command(&rt, bytes, *pos, Ok(wanted));
    }
    for (bytes, pos, fault) in NO_COMMANDS {
        expect_command(&rt, bytes, *pos, Err(*fault));
    }
}

const KNOWN: &[u8] = &[
    0x00, 0x02, 0x04, 0x05, 0x06, 0x0A, 0x0C, 0x0D, 0x0E, 0x10, 0x11, 0x12, 0x13, 0x14, 0x15, 0x16,
    0x17, 0x18, 0x19, 0x1A, 0x1B, 0x1C, 0x1D, 0x1E, 0x1F, 0x20, 0x30, 0x31, 0x32, 0x33, 0x36,
];

fn is_statement(code: u8) -> bool {
    StatementCode::try_from(code).map(u8::from).is_ok()
}

fn is_proof(code: u8) -> bool {
    ProofCode::try_from(code).map(u8::from).is_ok()
}

fn is_unify(code: u8) -> bool {
    UnifyCode::try_from(code).map(u8::from).is_ok()
}

fn expect_code(rt: &impl Abort, holds: bool, code: u8) {
    assert!(rt; holds, "code {code}");
}

#[test]
fn codes_are_known(rt: HostRuntime) {
    for code in 0..=255 {
        expect_code(&rt, is_known_code(code) == KNOWN.contains(&code), code);
        expect_code(
            &rt,
            is_statement(code) == matches!(code, 2 | 4..=6 | 13 | 14),
            code,
        );
        expect_code(&rt, is_proof(code) == matches!(code, 16..=32), code);
        expect_code(&rt, is_unify(code) == matches!(code, 48..=51 | 54), code);
    }
    let local = StatementCode::try_from(0x0D);
    expect_code(&rt, local == Ok(StatementCode::LocalDefinition), 0x0D);
    expect_code(
        &rt,
        ProofCode::try_from(0x1D) == Ok(ProofCode::ConvRef),
        0x1D,
    );
    expect_code(&rt, UnifyCode::try_from(0x36) == Ok(UnifyCode::Hyp), 0x36);
    expect_code(
        &rt,
        UnifyCode::try_from(0x10) == Err(UnknownCode(0x10)),
        0x10,
    );
}

/// The list of a file of one sort.
const LIST: &[u8] = &[0x44, 2, 0];

/// Bytes, a place, and the statement there: its kind, where its body begins, and the next place.
const HEADS: &[(&[u8], u32, u8, u32, u32)] = &[
    (LIST, 0, 0x04, 2, 2),
    (&[0x44, 2], 0, 0x04, 2, 2),
    (&[0x84, 3, 0, 0], 0, 0x04, 3, 3),
    (&[0xC4, 5, 0, 0, 0, 0], 0, 0x04, 5, 5),
    (&[0x46, 3, 0], 0, 0x06, 2, 3),
];

/// Bytes and a place at which the list ends.
const ENDS: &[(&[u8], u32)] = &[
    (LIST, 2),
    (&[0x84, 3, 0, 0], 3),
    (&[0xC4, 5, 0, 0, 0, 0], 5),
    (&[0x40, 0x05], 0),
];

/// Bytes, a place, and why no statement stands there: commands that are cut or unknown, distances past
/// the end or into the command, and codes that begin no statement, reported before the distance.
const NO_STATEMENTS: &[(&[u8], u32, StmtFault)] = &[
    (&[0x44], 0, StmtFault::Command),
    (&[0x44, 0, 0], 0, StmtFault::Length),
    (&[0x44, 2], 2, StmtFault::Command),
    (&[0x40], 0, StmtFault::Command),
    (&[0x46, 4, 0], 0, StmtFault::Length),
    (&[0xC6, 0xFF, 0xFF, 0xFF, 0xFF], 0, StmtFault::Length),
    (&[0x46, 1, 0], 0, StmtFault::Length),
    (&[0x06], 0, StmtFault::Length),
    (&[0x4A, 2], 0, StmtFault::Kind),
    (&[0x0C], 0, StmtFault::Kind),
    (&[0x52, 0x09], 0, StmtFault::Kind),
    (&[0x48, 0x02], 0, StmtFault::Command),
    (&[0x00], 2, StmtFault::Command),
    (LIST, u32::MAX, StmtFault::Command),
];

fn expect_statement(rt: &impl Abort, bytes: &[u8], pos: u32, wanted: Result<StmtAt, StmtFault>) {
    assert!(rt; bytes.len() < 100);
    assert_eq!(rt; stmt_at(bytes, pos), wanted, "{bytes:?} at {pos}");
}

#[test]
fn statements_are_found(rt: HostRuntime) {
    for (bytes, pos, kind, body, next) in HEADS {
        let wanted = StmtAt::Head {
            kind: *kind,
            body: *body,
            next: *next,
        };
        expect_statement(&rt, bytes, *pos, Ok(wanted));
    }
    for (bytes, pos) in ENDS {
        expect_statement(&rt, bytes, *pos, Ok(StmtAt::End));
    }
    for (bytes, pos, fault) in NO_STATEMENTS {
        expect_statement(&rt, bytes, *pos, Err(*fault));
    }
}

/// A code and an operand, with their shortest spelling.
const SPELLINGS: &[(u8, u32, &[u8])] = &[
    (0x00, 0, &[0x00]),
    (0x04, 2, &[0x44, 0x02]),
    (0x12, 1, &[0x52, 0x01]),
    (0x04, 255, &[0x44, 0xFF]),
    (0x04, 256, &[0x84, 0x00, 0x01]),
    (0x04, 65_535, &[0x84, 0xFF, 0xFF]),
    (0x04, 65_536, &[0xC4, 0x00, 0x00, 0x01, 0x00]),
    (0x36, 0, &[0x36]),
    (0x05, 4_294_967_295, &[0xC5, 0xFF, 0xFF, 0xFF, 0xFF]),
];

fn spelling(alloc: Global, code: u8, value: u32) -> Result<Vec<u8>, Mem>
    requires { IsTrue (is_known code) }
{
    let mut out = Vec::new(alloc);
    put_cmd(&mut out, code, value)?;
    Ok(out)
}

#[test]
fn the_shortest_spelling_is_written(rt: HostRuntime) {
    for (code, value, wanted) in SPELLINGS {
        assert!(rt; is_known_code(*code));
        let found = spelling(rt.alloc(), *code, *value).expect(&rt, "memory");
        assert!(rt; found.as_slice() == *wanted, "code {code}, value {value}");
    }
}

fn tick_twice<L: Ledger>(steps: &mut Steps<L>)
    ensures { steps.new ≡ steps.old + 2 }
{
    steps.tick();
    steps.tick();
}

fn count_from_none<L: Ledger>(blank: Blank)
    requires name { blank.name ≡ L.name }
    requires parts { blank.parts ≡ L.parts }
    requires some { 0 < blank.parts }
{
    let mut steps = Steps::<L>::start(blank);
    tick_twice(&mut steps);
}

#[test]
fn steps_take_no_bytes(rt: HostRuntime) {
    count_from_none::<Brand>(Blank::new(1));
    assert_eq!(rt; size_of::<Steps<Brand>>(), 0);
}
