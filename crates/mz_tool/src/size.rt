// How large a sample is, and the argument that says it.
ghost use Rattle.std.specs.Prelude.{◌≡◌, ◌≤◌, ◌↔◌, ℕ, decimal, IfSome, IfNone, IsTrue};
ghost use Rattle.mz_tool.specs.Sizes.{BeginsNumber};

/// The most definitions of a sample.
const LARGEST: u32 = 10_000;

/// How many definitions a sample has, from 1 to 10,000.
#[derive(Clone, Copy)]
pub struct SampleSize {
    pub number: u32,
    pub ghost some: { 1 ≤ number },
    pub ghost few: { number ≤ 10000 },
}

impl SampleSize {
    /// The size that an argument says: a number in decimal, without a sign or leading zeros. None where it
    /// says none, or one that is out of range.
    pub fn read(word: &str) -> Option<SampleSize>
        ensures number { IfSome result (λ size. word.now ≡ decimal size.number) }
        ensures other { IfNone result ((n : ℕ) → 1 ≤ n → n ≤ 10000 → word.now ≡ decimal n → ⊥) }
    {
        if !begins_number(word.as_bytes()) {
            return None;
        }
        let Ok(number) = word.parse::<u32>() else {
            return None;
        };
        if number == 0 || number > LARGEST {
            return None;
        }
        Some(SampleSize { number })
    }
}

/// Whether an argument begins with a digit other than 0.
fn begins_number(word: &[u8]) -> bool
    ensures { IsTrue result ↔ BeginsNumber word.now }
{
    match word {
        [first, ..] => *first > b'0' && *first <= b'9',
        [] => false,
    }
}
