// Commands and their spellings.
ghost use Rattle.std.specs.Prelude.{◌≡◌, ◌≤◌, ◌++◌, ◌^◌, ◌<◌, [], ℕ, List, length, drop, IsTrue, OnOk, OnErr, Ok, Err, ◌↔◌, if◌then◌else◌};
ghost use Rattle.mz_base.specs.Checks.{Judges};
ghost use Rattle.mz_cmd.specs.Codes.{is_known};
ghost use Rattle.mz_cmd.specs.Spelling.{Spells, shortest};
ghost use Rattle.mz_cmd.specs.Reading.{StandsAt, command_checks, first_command, command_at};

use crate::code::is_known_bit;
use byteorder::{ByteOrder, LittleEndian};
use std::alloc::AllocError;
use thiserror::Error;

/// Out of memory.
pub type Mem = AllocError;

/// A command: its code (below 64), its operand (0 where none is spelled), and how many bytes its
/// spelling takes (1, 2, 3 or 5).
#[derive(Clone, Copy, Debug, PartialEq, Eq)]
pub struct Cmd {
    pub code: u8,
    pub value: u32,
    pub len: u8,
}

/// Why no command stands at a place.
#[derive(Clone, Copy, Debug, PartialEq, Eq, Error)]
pub enum CmdFault {
    /// The bytes end before the command does.
    #[error("the bytes end before the command does")]
    Cut,
    /// The command is whole, and the format has none with its code.
    #[error("no command has this code")]
    Unknown,
}

// The size of the operand, in the two high bits of a command's first byte.
const ONE_BYTE: u8 = 0x40;

const TWO_BYTES: u8 = 0x80;

const FOUR_BYTES: u8 = 0xC0;

// The command with this code, operand and length, if the format has one with its code.
#[inline(always)]
fn spelled(code: u8, value: u32, len: u8) -> Result<Cmd, CmdFault>
    requires { code < 64 }
    ensures { result ≡ (if is_known code then Ok (record { code = code; value = value; len = len }) else Err CmdFault.Unknown) }
{
    if !is_known_bit(code) {
        return Err(CmdFault::Unknown);
    }
    Ok(Cmd { code, value, len })
}

// The command at the front, in any of its spellings.
#[inline(always)]
fn first_cmd(bytes: &[u8]) -> Result<Cmd, CmdFault>
    ensures { result ≡ first_command bytes.now }
{
    let Some(first) = bytes.first() else {
        return Err(CmdFault::Cut);
    };
    let head = *first;
    let code = head % 64;
    if head < ONE_BYTE {
        return spelled(code, 0, 1);
    }
    let operand = &bytes[1..];
    if head < TWO_BYTES {
        if operand.len() < 1 {
            return Err(CmdFault::Cut);
        }
        return spelled(code, u32::from(operand[0]), 2);
    }
    if head < FOUR_BYTES {
        if operand.len() < 2 {
            return Err(CmdFault::Cut);
        }
        return spelled(code, u32::from(LittleEndian::read_u16(operand)), 3);
    }
    if operand.len() < 4 {
        return Err(CmdFault::Cut);
    }
    spelled(code, LittleEndian::read_u32(operand), 5)
}

/// The command at a place, in any of its spellings. A command that isn't whole before the end of
/// the bytes is `Cut`, whatever its code.
#[inline(always)]
pub fn cmd_at(bytes: &[u8], pos: u32) -> Result<Cmd, CmdFault>
    requires { pos ≤ length bytes.now }
    ensures stands { (c : Cmd) → (result ≡ Ok c) ↔ StandsAt bytes.now pos c }
    ensures fault { Judges result (command_checks (drop pos bytes.now)) }
    // The same as a function of the bytes.
    ensures computed { result ≡ command_at bytes.now pos }
{
    first_cmd(&bytes[pos as usize..])
}

/// Appends the one shortest spelling of a command.
pub fn put_cmd(out: &mut Vec<u8>, code: u8, value: u32) -> Result<(), Mem>
    requires { IsTrue (is_known code) }
    ensures ok { OnOk result (out.new.items ≡ out.old.items ++ shortest code value) }
    ensures err { OnErr result (out.new.items ≡ out.old.items) }
{
    if value == 0 {
        out.extend_from_slice(&[code])
    } else if value < 1 << 8 {
        out.extend_from_slice(&[ONE_BYTE + code, value as u8])
    } else if value < 1 << 16 {
        let mut spelling = [TWO_BYTES + code, 0, 0];
        LittleEndian::write_u16(&mut spelling[1..], value as u16);
        out.extend_from_slice(&spelling)
    } else {
        let mut spelling = [FOUR_BYTES + code, 0, 0, 0, 0];
        LittleEndian::write_u32(&mut spelling[1..], value);
        out.extend_from_slice(&spelling)
    }
}

/// What is spelled is read again, whatever follows it.
pub fn spelling_is_read_again()
    ensures { (bytes rest : List ℕ) (code value : ℕ) → Spells bytes code value → command_at (bytes ++ rest) 0 ≡ Ok (record { code = code; value = value; len = length bytes }) }
{}

/// No spelling of a command is a proper prefix of another's: bytes begin with at most one.
pub fn one_spelling_at_the_front()
    ensures prefix { (bytes rest : List ℕ) (code value code' value' : ℕ) → Spells bytes code value → Spells (bytes ++ rest) code' value' → rest ≡ [] }
    ensures front { (a b x y : List ℕ) (code value code' value' : ℕ) → Spells a code value → Spells b code' value' → a ++ x ≡ b ++ y → (a ≡ b) × (code ≡ code') × (value ≡ value') }
{}

/// The shortest spelling is one, none is shorter, and no other is as short.
pub fn shortest_is_least()
    ensures spelled { (code value : ℕ) → IsTrue (is_known code) → value < 2 ^ 32 → Spells (shortest code value) code value }
    ensures least { (bytes : List ℕ) (code value : ℕ) → Spells bytes code value → length (shortest code value) ≤ length bytes }
    ensures only { (bytes : List ℕ) (code value : ℕ) → Spells bytes code value → length bytes ≡ length (shortest code value) → bytes ≡ shortest code value }
{}
