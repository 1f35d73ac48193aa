use mz_base::Hashing;

/// What the numbers are made with by which a store's terms are looked up. It is drawn by chance, so that
/// a file can't be chosen for terms that share them, which take long to compare. No answer but out of
/// memory depends on it.
#[derive(Clone, Copy, Debug, PartialEq, Eq)]
pub struct Seed(pub u64);

impl Seed {
    /// The seed of those who draw none: 2^64 over the golden section, an odd number without a pattern.
    pub const FIXED: Seed = Seed(0x9e37_79b9_7f4a_7c15);
}

impl From<Seed> for Hashing {
    fn from(seed: Seed) -> Hashing {
        Hashing::seeded(seed.0)
    }
}
