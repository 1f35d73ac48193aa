// From a text to a binary.
ghost use Rattle.std.specs.Prelude.{Bool, false, ◌≡◌, ◌<◌, ◌^◌, IfOk, ℕ, List, length};
ghost use Rattle.mz_base.specs.Gaps.{gaps_of};
ghost use Rattle.mz_mmu_theory.specs.Statements.{Statement};
ghost use Rattle.mz_mmu_theory.specs.Meaning.{LegalAsStated};
ghost use Rattle.mz_type.specs.StatedView.{AreRead, statements_of};
ghost use Rattle.mz_mmu_theory.specs.TextOf.{TextOf};
ghost use Rattle.mz_mmu_theory.specs.Weight.{IsWithinLimits};
ghost use Rattle.mz_emit.specs.Emitting.{IsLegalWith, HasEmitted};
ghost use Rattle.mz_emit_theory.specs.CompiledLaws.{Answers, FileUsesWhatProofsUse, HasFile, HasOneFile};
ghost use Rattle.mz_emit_theory.specs.Compiling.{CompilesTo, IsBinaryOf, IsCompilable, IsCompilation, IsDecided, ModesCompileAlike};

use crate::emitter::Emitter;
use crate::limit::limit_of;
use mz_base::{Hashing, Mode};
use mz_cmd::Mem;
use mz_emit_theory::{Compiled, Passed, stated_proofs_are_sound};
use mz_logic::words_are_read_back;
use mz_logic_theory::Env;
use mz_mmu::{TextRead, read_text};
use mz_store::Seed;
use mz_type::{
    Beside, Typed, TypedRead, check_text, limits_are_decided, statements_can_be_words, take_last,
    typed_or_faulty,
};
use std::alloc::Global;

/// Emits the statements that declare what the environment has, each in its place, and say these beside it. What one
/// says is let go once it is written.
fn emit_all<'e>(
    alloc: Global,
    seed: Seed,
    env: &'e Env,
    mut besides: Vec<Beside>,
) -> Result<Emitter<'e>, Mem>
    requires many { length env.now ≡ length besides.items }
    requires few { length env.now < 2 ^ 32 }
    requires legal { (mode : Bool) × AreRead mode (statements_of env.now besides.items) × LegalAsStated mode (statements_of env.now besides.items) }
    requires within { IsWithinLimits (statements_of env.now besides.items) }
    ensures { IfOk result (λ emitter. HasEmitted (statements_of env.now besides.entry.items) emitter) }
{
    statements_can_be_words();
    // from the last one on, so that they can be taken from the end
    besides.reverse();
    let mut emitter = Emitter::new(alloc, seed, env);
    let mut place: usize = 0;
    while let Some(beside) = take_last(&mut besides) {
        let Some(decl) = env.get(place) else {
            unreachable!();
        };
        emitter.statement(env, place, decl, &beside)?;
        place += 1;
    }
    Ok(emitter)
}

/// The binary of a well-typed text within the limits. It is one in each mode in which the text is legal as stated.
fn emit(alloc: Global, seed: Seed, text: Typed) -> Result<Vec<u8>, Mem>
    requires { IsWithinLimits text.statements }
    ensures { IfOk result (λ bytes. (gaps : Bool) → IsLegalWith gaps text.entry.statements → IsBinaryOf gaps text.entry.statements bytes.items) }
{
    words_are_read_back();
    stated_proofs_are_sound();
    statements_can_be_words();
    // that the statements are read, and legal as stated
    let _count = text.len();
    let (env, besides) = text.into_parts();
    let emitter = emit_all(alloc, seed, &env, besides)?;
    let bytes = emitter.finish()?;
    Ok(bytes)
}

/// Compiles a well-typed text, in whichever mode its bytes are these statements.
fn compile_typed(alloc: Global, seed: Seed, typed: Typed) -> Compiled
    ensures { (gaps : Bool) (bytes : List ℕ) → TextOf gaps bytes typed.entry.statements → IsCompilation gaps bytes result }
{
    if let Some(Passed { rule, count }) = limit_of(&typed) {
        return Compiled::Limit { rule, count };
    }
    match emit(alloc, seed, typed) {
        Ok(bytes) => Compiled::Bytes(bytes),
        Err(_) => Compiled::Mem,
    }
}

/// Compiles a text in the mode in which it is read. One that is finished is compiled as a finished text.
fn compile_read(alloc: Global, seed: Seed, text: &[u8], mode: Mode) -> Compiled
    requires { length text.now < 2 ^ 32 }
    ensures answer { IsCompilation (gaps_of mode) text.now result }
    ensures finished { (ss : List Statement) → TextOf false text.now ss → IsCompilation false text.now result }
{
    typed_or_faulty();
    let text = match read_text(alloc, Hashing::from(seed), text, mode) {
        TextRead::Text(text) => text,
        TextRead::Refused(refusal) => return Compiled::Refused(refusal),
        TextRead::Mem => return Compiled::Mem,
    };
    match check_text(alloc, text) {
        TypedRead::Typed(typed) => compile_typed(alloc, seed, typed),
        TypedRead::Refused(refusal) => Compiled::Refused(refusal),
        TypedRead::Mem => Compiled::Mem,
    }
}

/// Compiles a text of at most 4,294,967,295 bytes, whose names and terms are looked up by numbers that the seed makes:
/// the binary where the text is well typed and within the limits, else its first fault, or the first limit that it
/// passes. A draft may have gaps; one that is finished is compiled as a finished text.
///
/// The binary's bodies build no application twice, and its streams none once all its dummies are met. So that of a
/// finished text is accepted by verifiers that compare by identity, too.
///
/// The bytes are a function of the text's statements, in which neither the mode nor the seed is: where the text can be
/// compiled, it has its file, and the answer is this file or out of memory; that of a finished text is one in both modes.
pub fn compile_bytes(alloc: Global, seed: Seed, text: &[u8], mode: Mode) -> Compiled
    requires { length text.now < 2 ^ 32 }
    ensures answer { IsCompilation (gaps_of mode) text.now result }
    ensures finished { (ss : List Statement) → TextOf false text.now ss → IsCompilation false text.now result }
    ensures compilable { IsCompilable (gaps_of mode) text.now → (bytes : List ℕ) × CompilesTo (gaps_of mode) text.now bytes × Answers result bytes }
    ensures either_mode { (bytes : List ℕ) → CompilesTo false text.now bytes → Answers result bytes }
{
    compilation_is_decided();
    texts_have_one_file();
    compilable_texts_have_files();
    compile_read(alloc, seed, text, mode)
}

/// Each text can be compiled, or has exactly one first fault, or passes exactly one first limit.
pub fn compilation_is_decided()
    ensures { (gaps : Bool) (text : List ℕ) → IsDecided gaps text }
{
    typed_or_faulty();
    limits_are_decided();
}

/// A text without gaps is compiled alike in both modes.
pub fn modes_compile_alike()
    ensures { (text : List ℕ) → ModesCompileAlike text }
{
    typed_or_faulty();
}

/// A text compiles to one file at most: neither the mode nor the seed shows in its bytes.
pub fn texts_have_one_file()
    ensures { (text : List ℕ) → HasOneFile text }
{
    typed_or_faulty();
}

/// Each text that can be compiled has a file, which is a binary of it.
pub fn compilable_texts_have_files()
    ensures { (text : List ℕ) → HasFile text }
{
    words_are_read_back();
    stated_proofs_are_sound();
    statements_can_be_words();
}

/// In that file a body uses what its stated proof uses: the same assertions, and a gap where the proof uses one.
pub fn files_use_what_proofs_use()
    ensures { (text : List ℕ) → FileUsesWhatProofsUse text }
{
    words_are_read_back();
    stated_proofs_are_sound();
    statements_can_be_words();
}
