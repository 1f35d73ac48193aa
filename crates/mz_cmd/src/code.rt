// The codes of commands, in the low six bits of a command's first byte.
ghost use Rattle.std.specs.Prelude.{◌≡◌, ◌↔◌, ◌<◌, ℕ, IsTrue, Some};
ghost use Rattle.mz_cmd.specs.Codes.{is_known, statement_byte, proof_byte, unify_byte, statement_code, proof_code, unify_code};

use thiserror::Error;

/// The code that ends a list of statements, a proof and a unify stream.
pub const END: u8 = 0x00;

// Codes of the format that begin no statement here.
const LOCAL_AXIOM: u8 = 0x0A;

const LOCAL_SORT: u8 = 0x0C;

/// A code that begins a statement.
#[derive(Clone, Copy, Debug, PartialEq, Eq)]
pub enum StatementCode {
    Axiom = 0x02,
    Sort = 0x04,
    /// A term or a definition.
    Term = 0x05,
    Theorem = 0x06,
    LocalDefinition = 0x0D,
    LocalTheorem = 0x0E,
}

/// A code of a statement's body, its proof.
#[derive(Clone, Copy, Debug, PartialEq, Eq)]
pub enum ProofCode {
    Term = 0x10,
    TermSave = 0x11,
    Ref = 0x12,
    Dummy = 0x13,
    Thm = 0x14,
    ThmSave = 0x15,
    Hyp = 0x16,
    Conv = 0x17,
    Refl = 0x18,
    Symm = 0x19,
    Cong = 0x1A,
    Unfold = 0x1B,
    ConvCut = 0x1C,
    ConvRef = 0x1D,
    ConvSave = 0x1E,
    Save = 0x1F,
    Sorry = 0x20,
}

/// A code of a unify stream, the pattern of a definition or an assertion.
#[derive(Clone, Copy, Debug, PartialEq, Eq)]
pub enum UnifyCode {
    Term = 0x30,
    TermSave = 0x31,
    Ref = 0x32,
    Dummy = 0x33,
    Hyp = 0x36,
}

/// A byte that is no code of the set it was looked up in.
#[derive(Clone, Copy, Debug, PartialEq, Eq, Error)]
#[error("no command here has code {0}")]
pub struct UnknownCode(pub u8);

impl From<StatementCode> for u8 {
    ghost from_gives = { λ code byte. byte ≡ statement_byte code };

    fn from(code: StatementCode) -> u8 {
        code as u8
    }
}

impl From<ProofCode> for u8 {
    ghost from_gives = { λ code byte. byte ≡ proof_byte code };

    fn from(code: ProofCode) -> u8 {
        code as u8
    }
}

impl From<UnifyCode> for u8 {
    ghost from_gives = { λ code byte. byte ≡ unify_byte code };

    fn from(code: UnifyCode) -> u8 {
        code as u8
    }
}

impl TryFrom<u8> for StatementCode {
    ghost use Rattle.mz_cmd.specs.Decoded.{DecodesStatement};

    type Error = UnknownCode;

    ghost try_from_gives = { DecodesStatement };

    fn try_from(byte: u8) -> Result<StatementCode, UnknownCode> {
        match byte {
            0x02 => Ok(StatementCode::Axiom),
            0x04 => Ok(StatementCode::Sort),
            0x05 => Ok(StatementCode::Term),
            0x06 => Ok(StatementCode::Theorem),
            0x0D => Ok(StatementCode::LocalDefinition),
            0x0E => Ok(StatementCode::LocalTheorem),
            _ => Err(UnknownCode(byte)),
        }
    }
}

impl TryFrom<u8> for ProofCode {
    ghost use Rattle.mz_cmd.specs.Decoded.{DecodesProof};

    type Error = UnknownCode;

    ghost try_from_gives = { DecodesProof };

    fn try_from(byte: u8) -> Result<ProofCode, UnknownCode> {
        match byte {
            0x10 => Ok(ProofCode::Term),
            0x11 => Ok(ProofCode::TermSave),
            0x12 => Ok(ProofCode::Ref),
            0x13 => Ok(ProofCode::Dummy),
            0x14 => Ok(ProofCode::Thm),
            0x15 => Ok(ProofCode::ThmSave),
            0x16 => Ok(ProofCode::Hyp),
            0x17 => Ok(ProofCode::Conv),
            0x18 => Ok(ProofCode::Refl),
            0x19 => Ok(ProofCode::Symm),
            0x1A => Ok(ProofCode::Cong),
            0x1B => Ok(ProofCode::Unfold),
            0x1C => Ok(ProofCode::ConvCut),
            0x1D => Ok(ProofCode::ConvRef),
            0x1E => Ok(ProofCode::ConvSave),
            0x1F => Ok(ProofCode::Save),
            0x20 => Ok(ProofCode::Sorry),
            _ => Err(UnknownCode(byte)),
        }
    }
}

impl TryFrom<u8> for UnifyCode {
    ghost use Rattle.mz_cmd.specs.Decoded.{DecodesUnify};

    type Error = UnknownCode;

    ghost try_from_gives = { DecodesUnify };

    fn try_from(byte: u8) -> Result<UnifyCode, UnknownCode> {
        match byte {
            0x30 => Ok(UnifyCode::Term),
            0x31 => Ok(UnifyCode::TermSave),
            0x32 => Ok(UnifyCode::Ref),
            0x33 => Ok(UnifyCode::Dummy),
            0x36 => Ok(UnifyCode::Hyp),
            _ => Err(UnknownCode(byte)),
        }
    }
}

/// Whether some command of the format has this code.
pub fn is_known_code(code: u8) -> bool
    ensures { IsTrue result ↔ IsTrue (is_known code) }
{
    matches!(code, END | LOCAL_AXIOM | LOCAL_SORT)
        || StatementCode::try_from(code).is_ok()
        || ProofCode::try_from(code).is_ok()
        || UnifyCode::try_from(code).is_ok()
}

/// The codes that some command of the format has, a bit for each.
const KNOWN: u64 = 0x004F_0001_FFFF_7475;

/// The same of the six bits that a first byte has for its code, by one test of a bit: it is asked at
/// each command.
#[inline(always)]
pub(crate) fn is_known_bit(code: u8) -> bool
    requires { code < 64 }
    ensures { result ≡ is_known code }
{
    (KNOWN >> code) & 1 == 1
}

/// Each code is the one that its byte is read as.
pub fn codes_are_read_back()
    ensures of_statements { (k : StatementCode) (b : ℕ) → (statement_code b ≡ Some k) ↔ (statement_byte k ≡ b) }
    ensures of_proofs { (k : ProofCode) (b : ℕ) → (proof_code b ≡ Some k) ↔ (proof_byte k ≡ b) }
    ensures of_unify_streams { (k : UnifyCode) (b : ℕ) → (unify_code b ≡ Some k) ↔ (unify_byte k ≡ b) }
{}
