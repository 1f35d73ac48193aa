//! A statement's own row, which comes right after the rows before it, and the kind of its body.
ghost use Rattle.std.specs.Prelude.{◌≡◌, ◌≤◌, ◌<◌, ◌^◌, OnOk, length, map, slice_get, Some};
ghost use Rattle.mz_store.specs.declared.item.Item.TheVariants.{Proof};
ghost use Rattle.mz_machine_env.specs.OwnRow.{IsNextRow, kind_of, mode_for, own_words, own_proofs, first_ids, first_items, words_from};
ghost use Rattle.mz_machine_theory.specs.Headings.{kind_at, heading_by};

use crate::rows_before::Environment;
use mz_logic_theory::Word;
use mz_store::{DepsMode, Id, Item};
use std::alloc::AllocError;

/// The kind of a statement whose body runs.
#[derive(Clone, Copy, Debug, PartialEq, Eq)]
pub enum BodyKind {
    /// Of an axiom.
    Axiom,
    /// Of a definition.
    Definition,
    /// Of a theorem.
    Theorem,
}

/// The kind of a statement with this code: 02 an axiom, 05 a definition, 06 and all else a theorem.
pub fn kind_by(code: u8) -> BodyKind
    ensures { kind_of result ≡ kind_at code }
{
    match code {
        0x05 => BodyKind::Definition,
        0x02 => BodyKind::Axiom,
        _ => BodyKind::Theorem,
    }
}

/// Which variables the words of expressions are to name: in a definition's body the free ones.
pub fn deps_mode(kind: BodyKind) -> DepsMode
    ensures { result ≡ mode_for (kind_of kind) }
{
    match kind {
        BodyKind::Axiom | BodyKind::Theorem => DepsMode::All,
        BodyKind::Definition => DepsMode::Free,
    }
}

/// How many parameters the next row of the kind has.
#[tactic(auto, using(crate::proofs::BeforeLaws::binders_many))]
pub fn own_arity(env: &Environment, kind: BodyKind, row: u32) -> u32
    requires { IsNextRow env.now.file env.now.rows row (kind_of kind) }
    ensures words { result ≡ length (own_words env.now.file row (kind_of kind)) }
    ensures params { result ≡ length (heading_by env.now.file row (kind_of kind)).params }
{
    match kind {
        BodyKind::Axiom | BodyKind::Theorem => env.own_thm_arity(row),
        BodyKind::Definition => env.own_term_arity(row),
    }
}

/// Where the words of its parameters begin in the file, in bytes.
pub fn own_words_at(env: &Environment, kind: BodyKind, row: u32) -> u32
    requires { IsNextRow env.now.file env.now.rows row (kind_of kind) }
    ensures { own_words env.now.file row (kind_of kind) ≡ words_from env.now.file result (length (own_words env.now.file row (kind_of kind))) }
{
    match kind {
        BodyKind::Axiom | BodyKind::Theorem => env.own_thm_words_at(row),
        BodyKind::Definition => env.own_term_words_at(row),
    }
}

/// The word of its j-th parameter.
fn own_word(env: &Environment, kind: BodyKind, row: u32, j: u32) -> Word
    requires row { IsNextRow env.now.file env.now.rows row (kind_of kind) }
    requires place { j < length (own_words env.now.file row (kind_of kind)) }
    ensures { slice_get (own_words env.now.file row (kind_of kind)) j ≡ Some result }
{
    match kind {
        BodyKind::Axiom | BodyKind::Theorem => env.own_thm_param(row, j),
        BodyKind::Definition => env.own_term_param(row, j),
    }
}

/// The words of its parameters, in the place of what the list had.
///
/// # Errors
///
/// Where there is no memory.
pub fn read_words(
    words: &mut Vec<Word>,
    env: &Environment,
    kind: BodyKind,
    row: u32,
) -> Result<(), AllocError>
    requires { IsNextRow env.now.file env.now.rows row (kind_of kind) }
    ensures { OnOk result (words.new.items ≡ own_words env.now.file row (kind_of kind)) }
{
    let count = own_arity(env, kind, row);
    words.clear();
    words.reserve(count as usize)?;
    'params: for j in 0..count {
        words.push(own_word(env, kind, row, j))?;
    }
    Ok(())
}

/// The first ids, which are those of the parameters, as expressions, in the place of what the list
/// had.
///
/// # Errors
///
/// Where there is no memory.
pub fn first_items(items: &mut Vec<Item>, count: usize) -> Result<(), AllocError>
    ensures { OnOk result (items.new.items ≡ first_items count) }
{
    items.clear();
    items.reserve(count)?;
    'ids: for i in 0..count {
        let id = Id::at(i)?;
        items.push(Item::Expr(id))?;
    }
    Ok(())
}

/// The first ids, which are those of the parameters, in the place of what the list had.
///
/// # Errors
///
/// Where there is no memory.
pub fn first_ids(ids: &mut Vec<Id>, count: u32) -> Result<(), AllocError>
    ensures { OnOk result (ids.new.items ≡ first_ids count) }
{
    ids.clear();
    'params: for i in 0..count {
        ids.push(Id(i))?;
    }
    Ok(())
}

/// Hypotheses as proofs, of which a definition has none, in the place of what the list had.
///
/// # Errors
///
/// Where there is no memory.
pub fn own_proofs(items: &mut Vec<Item>, kind: BodyKind, hyps: &[Id]) -> Result<(), AllocError>
    ensures { OnOk result (items.new.items ≡ own_proofs (kind_of kind) hyps.now) }
{
    match kind {
        BodyKind::Definition => {
            items.clear();
            Ok(())
        }
        BodyKind::Axiom | BodyKind::Theorem => proofs_of(items, hyps),
    }
}

/// Expressions as proofs, in the place of what the list had.
fn proofs_of(items: &mut Vec<Item>, hyps: &[Id]) -> Result<(), AllocError>
    ensures { OnOk result (items.new.items ≡ map Proof hyps.now) }
{
    items.clear();
    'hyps: for hyp in hyps {
        items.push(Item::Proof(*hyp))?;
    }
    Ok(())
}

/// The unify stream of the next row of the kind, from its first byte to the file's end.
pub fn own_stream<'a>(env: &Environment<'a>, kind: BodyKind, row: u32) -> &'a [u8]
    requires { IsNextRow env.now.file env.now.rows row (kind_of kind) }
    ensures stream { result.now ≡ (heading_by env.now.file row (kind_of kind)).stream }
    ensures fits { length result.now < 2 ^ 32 }
    ensures within { length result.now ≤ length env.now.file }
{
    match kind {
        BodyKind::Axiom | BodyKind::Theorem => env.own_thm_stream(row),
        BodyKind::Definition => env.own_term_stream(row),
    }
}
