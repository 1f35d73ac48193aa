//! A row's parameters, as the first expressions of a store.
ghost use Rattle.std.specs.Prelude.{◌≡◌, ◌<◌, ◌^◌, IfOk, IfSome, IsTrue, OnOk, length};
ghost use Rattle.mz_logic_theory.specs.Words.{BitsRight};
ghost use Rattle.mz_machine_env.specs.OwnRow.{IsNextRow, kind_of, mode_for, own_words, words_from};
ghost use Rattle.mz_machine.specs.Parameters.{AreEntered, IsOwn, Remembers};

use mz_logic_theory::Word;
use mz_machine_env::{BodyKind, Environment, deps_mode, own_arity, own_words_at, read_words};
use mz_store::{DepsMode, Store};
use std::alloc::AllocError;

/// Whose parameters a store was begun with: so many words, of which the first stands at a place of the
/// file.
#[derive(Clone, Copy)]
pub(crate) struct Entered {
    pub(crate) at: u32,
    pub(crate) params: u32,
    /// How many of them are bound.
    pub(crate) bound: u32,
    pub(crate) mode: DepsMode,
}

impl Entered {
    /// Whether a body of the next row of the kind, whose words begin at a place, begins with the same.
    fn is_of(self, env: &Environment, kind: BodyKind, row: u32, at: u32) -> bool
        requires next { IsNextRow env.now.file env.now.rows row (kind_of kind) }
        requires at { own_words env.now.file row (kind_of kind) ≡ words_from env.now.file at (length (own_words env.now.file row (kind_of kind))) }
        ensures { IsTrue result → (own_words env.now.file row (kind_of kind) ≡ words_from env.now.file self.at self.params) × (self.mode ≡ mode_for (kind_of kind)) }
    {
        // Only of a row that shares its words the file is asked how many they are.
        if self.mode != deps_mode(kind) || self.at != at {
            return false;
        }
        self.params == own_arity(env, kind, row)
    }
}

/// Makes a store that of the parameters of the next row of the kind, and says whose they are. Where they
/// are those that it was begun with, only what came after them is taken out.
///
/// # Errors
///
/// Where there is no memory.
pub(crate) fn enter(
    env: &Environment,
    kind: BodyKind,
    row: u32,
    last: Option<Entered>,
    words: &mut Vec<Word>,
    store: &mut Store,
) -> Result<Entered, AllocError>
    requires next { IsNextRow env.now.file env.now.rows row (kind_of kind) }
    requires bits { BitsRight (own_words env.now.file row (kind_of kind)) }
    requires few { length (own_words env.now.file row (kind_of kind)) < 2 ^ 32 }
    requires last { IfSome last (λ last. Remembers env.now.file last store.old) }
    ensures entered { OnOk result (AreEntered (own_words env.now.file row (kind_of kind)) (mode_for (kind_of kind)) store.new) }
    ensures own { IfOk result (IsOwn env.now.file row (kind_of kind)) }
{
    let at = own_words_at(env, kind, row);
    if let Some(last) = last {
        if last.is_of(env, kind, row, at) {
            store.restart(last.params, last.bound);
            return Ok(last);
        }
    }
    read_words(words, env, kind, row)?;
    let mode = deps_mode(kind);
    store.begin(words.as_slice(), mode)?;
    let params = store.len() as u32;
    Ok(Entered {
        at,
        params,
        bound: store.bound_count(),
        mode,
    })
}
