// The literals of a general notation.
ghost use Rattle.std.specs.Prelude.{◌≡◌, ◌<◌, ◌^◌, ◌++◌, ◌∷◌, [], List, ℕ, IfOk, OnOk, length, map, ◌+◌};
ghost use Rattle.mz_base.specs.Checks.{each_in_order};
ghost use Rattle.mz_spec_theory.specs.StatementCode.{literal as literal_lem};
ghost use Rattle.mz_spec_theory.specs.Statement.{LiteralText as LiteralLem};
ghost use Rattle.mz_spec_rules.specs.Answers.{JudgesOrMem};
ghost use Rattle.mz_spec_theory.specs.Forms.{AreLiterals, IsLiteral};
ghost use Rattle.mz_spec_rules.specs.Noting.{IsNumeral};
ghost use Rattle.mz_spec_notations.specs.Noting.{literal_size, literals_size};
ghost use Rattle.mz_spec_theory.specs.Dependencies.{Every};
ghost use Rattle.mz_spec_theory.specs.Rules.{is_level};
ghost use Rattle.mz_spec_theory.specs.View.{literal_levels};

use mz_math_theory::Literal;
use mz_spec_rules::{inner, level_of};
use mz_spec_theory::{Halt, LiteralText};
use std::alloc::{AllocError, Global};

/// Literals as spans of a text, which holds a copy of each.
#[derive(Drop)]
pub struct Literals {
    pub text: Vec<u8>,
    pub spans: Vec<Literal>,
}

impl Literals {
    /// The literals, the last one apart.
    ///
    /// # Errors
    ///
    /// At the first precedence that is past the highest one; or where there is no memory.
    pub fn of(
        alloc: Global,
        literals: &[LiteralText<'_>],
        last: LiteralText<'_>,
    ) -> Result<Literals, Halt>
        requires numerals { Every IsNumeral (literal_levels (map literal_lem literals.now ++ literal_lem last ∷ [])) }
        requires small { literals_size (map literal_lem literals.now ++ literal_lem last ∷ []) < 2 ^ 32 }
        ensures judged { JudgesOrMem result (each_in_order is_level (literal_levels (map literal_lem literals.now ++ literal_lem last.entry ∷ []))) }
        ensures literals { IfOk result (λ ls. AreLiterals ls.text.items (map literal_lem literals.now ++ literal_lem last.entry ∷ []) ls.spans.items) }
    {
        let mut all = Literals {
            text: Vec::new(alloc),
            spans: Vec::new(alloc),
        };
        for literal in literals {
            all.push(*literal)?;
        }
        all.push(last)?;
        Ok(all)
    }

    /// Adds a literal.
    fn push(&mut self, literal: LiteralText<'_>) -> Result<(), Halt>
        requires numerals { Every IsNumeral (literal_levels (literal_lem literal ∷ [])) }
        requires small { length self.old.text.items + literal_size (literal_lem literal) < 2 ^ 32 }
        ensures judged { JudgesOrMem result (each_in_order is_level (literal_levels (literal_lem literal.entry ∷ []))) }
        ensures literals { OnOk result ((ls : List LiteralLem) → AreLiterals self.old.text.items ls self.old.spans.items → AreLiterals self.new.text.items (ls ++ literal_lem literal.entry ∷ []) self.new.spans.items) }
        ensures size { OnOk result (length self.new.text.items ≡ length self.old.text.items + literal_size (literal_lem literal.entry)) }
    {
        let span = span_of(&mut self.text, literal)?;
        self.spans.push(span)?;
        Ok(())
    }
}

/// A literal as a span of the text, to whose end it is added.
fn span_of(text: &mut Vec<u8>, literal: LiteralText<'_>) -> Result<Literal, Halt>
    requires numerals { Every IsNumeral (literal_levels (literal_lem literal ∷ [])) }
    requires small { length text.old.items + literal_size (literal_lem literal) < 2 ^ 32 }
    ensures judged { JudgesOrMem result (each_in_order is_level (literal_levels (literal_lem literal.entry ∷ []))) }
    ensures span { IfOk result (λ k. IsLiteral text.new.items (literal_lem literal.entry) k) }
    ensures text { OnOk result ((more : List ℕ) × (text.new.items ≡ text.old.items ++ more)) }
    ensures size { OnOk result (length text.new.items ≡ length text.old.items + literal_size (literal_lem literal.entry)) }
{
    match literal {
        LiteralText::Constant(constant, level) => {
            let level = level_of(level)?;
            let (from, to) = push_bytes(text, inner(constant))?;
            Ok(Literal::Constant { from, to, level })
        }
        LiteralText::Name(name) => {
            let (from, to) = push_bytes(text, name.bytes)?;
            Ok(Literal::Name { from, to })
        }
    }
}

/// Adds bytes to a text, and says where they stand.
fn push_bytes(text: &mut Vec<u8>, bytes: &[u8]) -> Result<(u32, u32), AllocError>
    requires { length text.old.items + length bytes.now < 2 ^ 32 }
    ensures text { OnOk result (text.new.items ≡ text.old.items ++ bytes.now) }
    ensures span { IfOk result (λ span. (span.0 ≡ length text.old.items) × (span.1 ≡ length text.old.items + length bytes.now)) }
{
    let from = text.len() as u32;
    text.extend_from_slice(bytes)?;
    Ok((from, text.len() as u32))
}
