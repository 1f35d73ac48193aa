// Places by keys.
ghost use Rattle.std.specs.Prelude.{◌≡◌, Some, List, ℕ, [], OnOk, OnErr, bytes_eq, if◌then◌else◌};
ghost use Rattle.mz_lex.specs.Places.{place_of};

use indexmap::IndexMap;
use mz_base::Hashing;
use std::alloc::{AllocError, Global};
use std::marker::Model;

/// So many keys are gone through faster than they are hashed.
pub(crate) const FEW: usize = 8;

/// Keys with a place each. They are hashed from the run's seed, so that no text can choose keys that
/// are slow to find.
#[derive(Drop)]
pub struct Places<P> {
    places: IndexMap<Vec<u8>, P, Hashing>,
}

impl<P> Model for Places<P> {
    ghost use Rattle.std.specs.Prelude.{List, ℕ, map};

    ghost Value = { List (List ℕ × P) };

    ghost view = { λ a. map (λ e. (e.0.items, e.1)) a.places.entries };
}

impl<P: Copy + Drop> Places<P> {
    /// No keys.
    pub fn new(alloc: Global, hashing: Hashing) -> Places<P>
        ensures { result ≡ [] }
    {
        Places {
            places: IndexMap::with_hasher(alloc, hashing),
        }
    }

    /// The place of the key, if it has one.
    pub fn get(&self, word: &[u8]) -> Option<P>
        ensures { result ≡ place_of self.now word.now }
    {
        if self.places.len() <= FEW {
            return self.among_few(word);
        }
        self.places.get(word).copied()
    }

    /// The place of the key, by going through all.
    fn among_few(&self, word: &[u8]) -> Option<P>
        ensures { result ≡ place_of self.now word.now }
    {
        'keys: for i in 0..self.places.len() {
            let Some((key, place)) = self.places.get_index(i) else {
                return None;
            };
            if word == key.as_slice() {
                return Some(*place);
            }
        }
        None
    }

    /// Gives the key this place. The key is copied.
    ///
    /// # Errors
    ///
    /// Where there is no memory. The places are unchanged then.
    pub fn insert(&mut self, alloc: Global, word: &[u8], place: P) -> Result<(), AllocError>
        ensures ok { OnOk result ((w : List ℕ) → place_of self.new w ≡ (if bytes_eq word.now w then Some place else place_of self.old w)) }
        ensures err { OnErr result (self.new ≡ self.old) }
    {
        let word = word.to_vec(alloc)?;
        self.places.insert(word, place)?;
        Ok(())
    }
}
