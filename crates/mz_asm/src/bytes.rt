// Tokens and lines in bytes.
ghost use Rattle.std.specs.Prelude.{◌≡◌, ◌≤◌, ◌<◌, ◌+◌, ◌==◌, drop, length, bytes_eq};
ghost use Rattle.std.specs.List.{position_or_len, before_first, after_first};

/// Whether the token is this one.
pub fn is(word: &[u8], other: &[u8]) -> bool
    ensures { result ≡ bytes_eq word.now other.now }
{
    word == other
}

/// The place of the first such byte, or the number of bytes where there is none.
pub fn place_of(mark: u8, bytes: &[u8]) -> usize
    ensures place { result ≡ position_or_len (λ b. b == mark) bytes.now }
    ensures within { result ≤ length bytes.now }
{
    let mut at = 0;
    'places: while at < bytes.len() {
        if bytes[at] == mark {
            return at;
        }
        at += 1;
    }
    at
}

/// The bytes before the first space.
pub fn first_word(bytes: &[u8]) -> &[u8]
    ensures { result.now ≡ before_first (λ b. b == 32) bytes.now }
{
    &bytes[..place_of(b' ', bytes)]
}

/// The bytes behind the first space, none where there is none.
pub fn other_words(bytes: &[u8]) -> &[u8]
    ensures { result.now ≡ after_first (λ b. b == 32) bytes.now }
{
    let at = place_of(b' ', bytes);
    if at < bytes.len() {
        behind(bytes, at)
    } else {
        &bytes[at..]
    }
}

/// What stands behind the byte at a place.
pub fn behind(bytes: &[u8], at: usize) -> &[u8]
    requires { at < length bytes.now }
    ensures { result.now ≡ drop (at + 1) bytes.now }
{
    &bytes[at + 1..]
}
