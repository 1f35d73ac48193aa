// The seed by which terms and names are looked up.
use mz_store::Seed;
use std::random::RandomSource;

/// A seed that the system draws by chance, and the one that is fixed where it draws none.
pub fn seed_of(rt: &impl RandomSource) -> Seed {
    let mut bytes = [0; 8];
    match rt.fill_bytes(&mut bytes) {
        Ok(()) => Seed(u64::from_le_bytes(bytes)),
        Err(_) => Seed::FIXED,
    }
}
