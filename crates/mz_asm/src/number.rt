// The numbers and words of a listing.
ghost use Rattle.std.specs.Prelude.{◌≡◌, ◌≤◌, ◌<◌, IsTrue, length};
ghost use Rattle.std.specs.List.{list_all};
ghost use Rattle.mz_asm.specs.Numbers.{are_digits, is_numeral as numeral, number_of, number_in, word_in};

use mz_base::is_digit;
use mz_logic_theory::Word;

/// The number for which all numbers stand that are too large.
const TOO_LARGE: u64 = 4_294_967_296;

/// Whether all bytes are digits.
fn are_digits(bytes: &[u8]) -> bool
    ensures { result ≡ are_digits bytes.now }
{
    for byte in bytes {
        if !is_digit(*byte) {
            return false;
        }
    }
    true
}

/// Whether the bytes are a number without leading zeros.
fn is_numeral(bytes: &[u8]) -> bool
    ensures { result ≡ numeral bytes.now }
{
    match bytes.first() {
        None => false,
        Some(first) => are_digits(bytes) && (*first != b'0' || bytes.len() == 1),
    }
}

/// The number that digits write.
fn value_of(digits: &[u8]) -> u64
    requires { IsTrue (are_digits digits.now) }
    ensures value { result ≡ number_of digits.now }
{
    let mut value: u64 = 0;
    for digit in digits {
        value = value * 10 + u64::from(*digit - b'0');
        if value > TOO_LARGE {
            value = TOO_LARGE;
        }
    }
    value
}

/// The number for which bytes stand, where they are one.
pub fn number(bytes: &[u8]) -> Option<u64>
    ensures { result ≡ number_in bytes.now }
{
    if is_numeral(bytes) {
        Some(value_of(bytes))
    } else {
        None
    }
}

/// The word for which sixteen hexadecimal digits stand, none where there are other bytes.
pub fn word(text: &[u8]) -> Option<Word>
    ensures { result ≡ word_in text.now }
{
    let mut bytes = [0; 8];
    let Ok(()) = hex::decode_to_slice(text, &mut bytes) else {
        return None;
    };
    // Capital digits are read too, and aren't a listing's.
    let mut digits = [0; 16];
    let Ok(()) = hex::encode_to_slice(bytes, &mut digits) else {
        return None;
    };
    if &digits[..] == text {
        Some(Word(u64::from_be_bytes(bytes)))
    } else {
        None
    }
}
