//! The words of binders.
ghost use Rattle.std.specs.Prelude.{ℕ, ◌≡◌, ◌<◌, ◌+◌, ◌*◌, ◌^◌, All, IfOk, List, length, if◌then◌else◌};
ghost use Rattle.mz_logic_theory.specs.Words.{BitsRight, binders_of};
ghost use Rattle.mz_logic_theory.specs.WordsWritten.{CanBeWords, bits_of, bound_from, result_word as word_of_result};
ghost use Rattle.mz_logic_theory.specs.declared.binder.Binder.{Binder as BinderOf};
ghost use Rattle.mz_logic_theory.specs.declared.binder.SortMods.{SortMods};
ghost use Rattle.mz_emit_bodies.specs.Bits.{AreWordsOf, place_bits};

use mz_cmd::Mem;
use mz_logic_theory::{Binder, Deps, ResultType, Word};
use std::alloc::Global;

/// The words of parameters, and at each place the bit of its bound parameter, 0 for a regular one.
#[derive(Drop)]
pub struct BinderWords {
    /// The words, in order.
    pub params: Vec<Word>,
    // the bit at each place
    bits: Vec<u64>,
}

/// The bits of the places.
fn deps_bits(bits: &[u64], places: &Deps) -> u64
    requires { All (λ j. j < length bits.now) places.now }
    ensures { (bs : List BinderOf) → bits.now ≡ place_bits 0 bs → result ≡ bits_of (bound_from 0 bs) places.now }
{
    let mut deps = 0;
    for place in places.as_slice() {
        deps |= bits[*place as usize];
    }
    deps
}

/// Bit 63 says that it is bound, bits 56 to 62 are its sort, and the others its dependencies.
fn word(sort: u32, bound: bool, deps: u64) -> Word
    requires sort { sort < 128 }
    requires deps { deps < 2 ^ 56 }
    ensures { result.0 ≡ (if bound then 2 ^ 63 else 0) + sort * 2 ^ 56 + deps }
{
    Word((u64::from(bound) << 63) + (u64::from(sort) << 56) + deps)
}

impl BinderWords {
    /// The words of these parameters, at most 55 of them bound (the .mmb format, on parameters).
    ///
    /// # Errors
    ///
    /// Where there is no memory.
    pub fn of(alloc: Global, binders: &[Binder]) -> Result<BinderWords, Mem>
        requires { (ss : List SortMods) × CanBeWords ss binders.now }
        ensures words { IfOk result (λ w. AreWordsOf binders.now w) }
        ensures binders { IfOk result (λ w. binders_of w.params.items ≡ binders.now) }
        ensures right { IfOk result (λ w. BitsRight w.params.items) }
    {
        let mut params = Vec::new(alloc);
        let mut bits = Vec::new(alloc);
        let mut bound: u32 = 0;
        for binder in binders {
            if binder.bound {
                let bit = 1 << bound;
                params.push(word(binder.sort, true, bit))?;
                bits.push(bit)?;
                bound += 1;
            } else {
                let deps = deps_bits(&bits, &binder.deps);
                params.push(word(binder.sort, false, deps))?;
                bits.push(0)?;
            }
        }
        Ok(BinderWords { params, bits })
    }

    /// The word of a result over these parameters.
    pub fn result_word(&self, result_type: &ResultType) -> Word
        requires words { (bs : List BinderOf) × AreWordsOf bs self.now × All (λ j. j < length bs) result_type.now.deps }
        requires sort { result_type.now.sort < 128 }
        ensures { (bs : List BinderOf) → AreWordsOf bs self.now → result ≡ word_of_result bs result_type.now }
    {
        word(
            result_type.sort,
            false,
            deps_bits(&self.bits, &result_type.deps),
        )
    }
}
