// From a text to a specification.
ghost use Rattle.std.specs.Prelude.{◌≡◌, false, ◌<◌, ◌^◌, ◌++◌, IfOk, OnOk, ℕ, List, length};
ghost use Rattle.mz_base.specs.Checks.{AllHold};
ghost use Rattle.mz_mmu_theory.specs.TextOf.{TextOf};
ghost use Rattle.mz_type.specs.TypedText.{statement_at};
ghost use Rattle.mz_prefix.specs.Wording.{local_checks, long_checks, longest, prefix_text, vocabulary_of};
ghost use Rattle.mz_prefix.specs.Names.{AreNamesOf};
ghost use Rattle.mz_prefix.specs.SpecTexts.{DeclaresItsText, IsDecided, IsWording};
ghost use Rattle.mz_prefix.specs.Writing.{statement_text};

use crate::names::Names;
use crate::obstacle::first_long;
use crate::specifications_of_texts_declare;
use mz_base::{Hashing, Mode};
use mz_mmu::{TextRead, read_text};
use mz_sexpr::TextRefusal;
use mz_type::{Typed, TypedRead, check_text, typed_or_faulty};
use std::alloc::{AllocError, Global};

/// What making a specification of a text answers.
#[derive(Debug, Drop)]
pub enum SpecText {
    /// The text is well typed, and nothing stands against its specification: this.
    Text(Vec<u8>),
    /// The first rule that the text breaks.
    Refused(TextRefusal),
    /// The number of the first public statement of which a hypothesis or the conclusion mentions a
    /// local definition.
    Local(u32),
    /// The number of the first public statement of which a hypothesis or the conclusion has more
    /// tokens than a math string may have, or is higher than one may be.
    Long(u32),
    /// The specification has more than 4,294,967,295 bytes: so many.
    Limit { count: u128 },
    /// No memory was left.
    Mem,
}

/// The bytes of the longest specification.
const LONGEST: u128 = 4_294_967_295;

impl<'a> Names<'a> {
    /// Appends the line of the i-th statement, if that is public.
    fn put_statement(&self, text: &Typed, i: u32, out: &mut Vec<u8>) -> Result<(), AllocError>
        requires { i < length text.now.statements }
        ensures { OnOk result (out.new.items ≡ out.old.items ++ statement_text self.now (statement_at text.now.statements i)) }
    {
        if text.is_local(i) {
            return Ok(());
        }
        self.put_decl(text.name(i), text.decl(i), out)
    }

    /// The specification, however long.
    fn write(&self, text: &Typed) -> Result<Vec<u8>, AllocError>
        requires { AreNamesOf text.now.statements self.now }
        ensures { IfOk result (λ spec. spec.items ≡ prefix_text text.now.statements) }
    {
        let mut spec: Vec<u8> = Vec::new(self.alloc);
        for i in 0..text.len() {
            self.put_statement(text, i, &mut spec)?;
        }
        Ok(spec)
    }

    /// The specification, where only its length can stand against it.
    fn write_within(&self, text: &Typed, most: u128) -> SpecText
        requires { AreNamesOf text.now.statements self.now }
        ensures { (bytes : List ℕ) → TextOf false bytes text.now.statements → AllHold (local_checks self.now.locals.items 1 text.now.statements)
            → AllHold (long_checks (vocabulary_of text.now.statements) 1 text.now.statements) → IsWording most bytes result }
    {
        let Ok(spec) = self.write(text) else {
            return SpecText::Mem;
        };
        let count = spec.len() as u128;
        if count > most {
            return SpecText::Limit { count };
        }
        SpecText::Text(spec)
    }
}

/// The answer for a well-typed text whose specification may have at most so many bytes. That a claim
/// mentions a local term comes before that one is too long, in whatever statements.
fn answer(alloc: Global, text: &Typed, most: u128) -> SpecText
    ensures { (bytes : List ℕ) → TextOf false bytes text.now.statements → IsWording most bytes result }
{
    let Ok(names) = Names::of(alloc, text) else {
        return SpecText::Mem;
    };
    match (names.first_local(text), first_long(text)) {
        (Some(statement), _) => SpecText::Local(statement),
        (None, Some(statement)) => SpecText::Long(statement),
        (None, None) => names.write_within(text, most),
    }
}

/// The specification of a text of at most 4,294,967,295 bytes, of at most so many.
fn spec_within(alloc: Global, hashing: Hashing, text: &[u8], most: u128) -> SpecText
    requires { length text.now < 2 ^ 32 }
    ensures { IsWording most text.now result }
{
    let text = match read_text(alloc, hashing, text, Mode::Strict) {
        TextRead::Text(text) => text,
        TextRead::Refused(refusal) => return SpecText::Refused(refusal),
        TextRead::Mem => return SpecText::Mem,
    };
    match check_text(alloc, text) {
        TypedRead::Typed(typed) => answer(alloc, &typed, most),
        TypedRead::Refused(refusal) => SpecText::Refused(refusal),
        TypedRead::Mem => SpecText::Mem,
    }
}

/// Makes a specification of a text of at most 4,294,967,295 bytes, whose names are hashed by `hashing`:
/// its public statements in prefix form, one a line, where the text is well typed; else its first
/// fault, or what stands first against a specification. What it declares agrees with the text's
/// public statements.
pub fn spec_of(alloc: Global, hashing: Hashing, text: &[u8]) -> SpecText
    requires { length text.now < 2 ^ 32 }
    ensures answer { IsWording longest text.now result }
    ensures declares { DeclaresItsText text.now result }
{
    specifications_of_texts_declare();
    spec_within(alloc, hashing, text, LONGEST)
}

/// Each text has a specification, or exactly one first fault, or exactly one thing that stands first
/// against a specification.
pub fn specification_is_decided()
    ensures { (limit : ℕ) (text : List ℕ) → IsDecided limit text }
{
    typed_or_faulty();
}
