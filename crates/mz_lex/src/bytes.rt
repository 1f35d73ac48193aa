// Classes of bytes, and how far their runs go.
ghost use Rattle.std.specs.Prelude.{◌≡◌, ◌≤◌, length};
ghost use Rattle.mz_lex.specs.Kinds.{is_allowed as allowed, is_number_start as number_start, is_space as space, is_symbol_byte};
ghost use Rattle.mz_lex.specs.Scan.{IsRun, is_in};

use mz_base::{is_digit, is_name_byte};

/// The bytes of which runs are made.
#[derive(Clone, Copy)]
pub enum Class {
    Name,
    Digit,
    Comment,
    Math,
}

/// Whether the byte is whitespace: a space or a newline.
pub fn is_space(byte: u8) -> bool
    ensures { result ≡ space byte }
{
    matches!(byte, b' ' | b'\n')
}

pub fn is_allowed(byte: u8) -> bool
    ensures { result ≡ allowed byte }
{
    matches!(byte, b' '..=b'~' | b'\n')
}

pub fn is_number_start(byte: u8) -> bool
    ensures { result ≡ number_start byte }
{
    matches!(byte, b'1'..=b'9')
}

pub fn is_symbol(byte: u8) -> bool
    ensures { result ≡ is_symbol_byte byte }
{
    matches!(
        byte,
        b'*' | b'.' | b':' | b';' | b'(' | b')' | b'>' | b'{' | b'}' | b'=' | b'_'
    )
}

impl Class {
    fn contains(self, byte: u8) -> bool
        ensures { result ≡ is_in self byte }
    {
        match self {
            Class::Name => is_name_byte(byte),
            Class::Digit => is_digit(byte),
            Class::Comment => matches!(byte, b' '..=b'~'),
            Class::Math => is_allowed(byte) && byte != b'$',
        }
    }

    /// Where the class's bytes from a place on end.
    pub fn run_end(self, text: &[u8], from: usize) -> usize
        requires { from ≤ length text.now }
        ensures { IsRun (is_in self) text.now from result }
    {
        let mut end = from;
        while end < text.len() && self.contains(text[end]) {
            end += 1;
        }
        end
    }
}
