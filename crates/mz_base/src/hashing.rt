// How names and constants are hashed.
use std::hash::{BuildHasher, FoldHasher, Hasher};

/// Makes the hashers of maps by names and by constants of notations. Each begins with what a seed left, which the program draws
/// by chance: who makes a file doesn't know which of its names share a hash, and such names take long to tell apart.
///
/// `FoldHasher` isn't cryptographic: eight bytes that are its multiplier would make it forget the seed, and no identifier has
/// them. No answer but out of memory depends on it.
#[derive(Clone, Copy)]
pub struct Hashing {
    initial: FoldHasher,
}

impl Hashing {
    /// That of a seed.
    pub fn seeded(seed: u64) -> Hashing {
        let mut initial = FoldHasher::default();
        initial.write_u64(seed);
        Hashing { initial }
    }

    /// That of those who draw no seed.
    pub fn fixed() -> Hashing {
        Hashing {
            initial: FoldHasher::default(),
        }
    }
}

impl BuildHasher for Hashing {
    type Hasher = FoldHasher;

    ghost build_hasher = { λ hashing. hashing.initial };

    fn build_hasher(&self) -> FoldHasher {
        self.initial
    }
}
