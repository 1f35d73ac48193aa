// Identifiers, and the bytes of which they are made.
ghost use Rattle.std.specs.Prelude.{◌≡◌};
ghost use Rattle.std.specs.List.{list_all};
ghost use Rattle.mz_base.specs.Identifiers.{is_digit as digit, is_name, is_name_byte as name_byte, is_name_start as name_start};

/// Whether the byte is a digit.
pub fn is_digit(byte: u8) -> bool
    ensures { result ≡ digit byte }
{
    matches!(byte, b'0'..=b'9')
}

/// Whether an identifier may begin with the byte: a letter or `_`.
pub fn is_name_start(byte: u8) -> bool
    ensures { result ≡ name_start byte }
{
    matches!(byte, b'a'..=b'z' | b'A'..=b'Z' | b'_')
}

/// Whether an identifier may go on with the byte: a letter, a digit or `_`.
pub fn is_name_byte(byte: u8) -> bool
    ensures { result ≡ name_byte byte }
{
    is_name_start(byte) || is_digit(byte)
}

fn are_name_bytes(bytes: &[u8]) -> bool
    ensures { result ≡ list_all name_byte bytes.now }
{
    for byte in bytes {
        if !is_name_byte(*byte) {
            return false;
        }
    }
    true
}

/// Whether the bytes are an identifier: a letter or `_`, then letters, digits and `_`, but not `_`
/// alone.
pub fn is_identifier(bytes: &[u8]) -> bool
    ensures { result ≡ is_name bytes.now }
{
    match bytes {
        [] => false,
        [first, rest @ ..] => {
            is_name_start(*first) && are_name_bytes(rest) && bytes != b"_".as_slice()
        }
    }
}
