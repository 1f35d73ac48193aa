// Steps of a reader, lexeme by lexeme.
ghost use Rattle.std.specs.Prelude.{◌≡◌, ◌≤◌, ◌<◌, ◌^◌, ◌-◌, ◌++◌, ◌∷◌, [], length, true, IfOk};
ghost use Rattle.mz_lex.specs.Lexemes.{lexeme as lexeme_lem};
ghost use Rattle.mz_lex.specs.RuleText.{place_of, rule_of};
ghost use Rattle.mz_spec_grammar.specs.Standing.{Adds, Advances, Gives, IsNow, Needs, Stops, Takes, at_hand, holds, left, test as test_lem};
ghost use Rattle.mz_spec_theory.specs.StatementCode.{level as level_lem, lexeme};
ghost use Rattle.mz_spec_theory.specs.Stops.{misfit_rule};

use crate::reader::Reader;
use crate::test::Test;
use mz_lex::{LexFault, S, TokenKind, next_token};
use mz_spec_theory::{Fault, Halt, Level, Lexeme};
use std::alloc::Global;

/// The fault where no lexeme comes.
pub fn no_lexeme(fault: LexFault) -> Fault
    ensures { result ≡ record { at = place_of fault; rule = rule_of fault } }
{
    Fault {
        at: fault.place(),
        rule: fault.rule(),
    }
}

/// The lexeme from a place on, or the fault where none comes within a statement.
fn lexeme_at(text: &[u8], at: usize) -> Result<Lexeme<'_>, Halt>
    requires at { at ≤ length text.now }
    requires small { length text.now < 2 ^ 32 }
    ensures next { IsNow text.now at result }
    ensures span { IfOk result (λ found. (at < found.to) × (found.to ≤ length text.now)) }
{
    match next_token(text, at) {
        Ok(None) => Err(Halt::Fault(Fault {
            at: text.len() as u32,
            rule: S::Statement,
        })),
        Ok(Some(token)) => Ok(Lexeme::new(text, token)),
        Err(fault) => Err(Halt::Fault(no_lexeme(fault))),
    }
}

impl<'a> Reader<'a> {
    /// Whether the lexeme at hand passes.
    #[inline(always)]
    pub fn is(&self, test: Test<'_>) -> bool
        ensures passes { result ≡ holds (test_lem test.entry) self.now.hand }
        ensures some { result ≡ true → 0 < left self.now }
    {
        match self.hand {
            Ok(found) => test.fits(found),
            Err(_) => false,
        }
    }

    /// The lexeme at hand.
    #[inline(always)]
    pub fn lexeme(&self) -> Lexeme<'a>
        ensures { lexeme result ≡ at_hand self.now.hand }
    {
        match self.hand {
            Ok(found) => found,
            Err(_) => Lexeme {
                kind: TokenKind::Symbol,
                bytes: b"",
                from: 0,
                to: 0,
            },
        }
    }

    /// Goes on to the next lexeme.
    pub fn advance(&mut self)
        ensures reads { Advances self.old self.new }
        ensures shrinks { left self.new ≤ left self.old - 1 }
    {
        if let Ok(found) = self.hand {
            self.rule = S::Statement;
            self.hand = lexeme_at(self.text, found.to as usize);
        }
    }

    /// Stops: the lexeme at hand doesn't fit.
    pub fn stop(&mut self)
        ensures reads { Stops self.old self.new }
        ensures shrinks { left self.new ≡ 0 }
    {
        if let Ok(found) = self.hand {
            self.hand = Err(Halt::Fault(Fault {
                at: found.from,
                rule: self.rule,
            }));
        }
    }

    /// Stops, unless the lexeme at hand passes.
    #[inline(always)]
    pub fn need(&mut self, test: Test<'_>)
        ensures reads { Needs (test_lem test.entry) self.old self.new }
        ensures shrinks { left self.new ≤ left self.old }
    {
        if !self.is(test) {
            self.stop();
        }
    }

    /// Reads a lexeme that must pass.
    pub fn take(&mut self, test: Test<'_>) -> Lexeme<'a>
        ensures reads { Takes (test_lem test.entry) (lexeme result) self.old self.new }
        ensures shrinks { left self.new ≤ left self.old - 1 }
    {
        self.advance();
        self.need(test);
        self.lexeme()
    }

    /// Reads a precedence.
    pub fn level(&mut self) -> Level<'a>
        ensures reads { Gives (level_lem result) self.old self.new }
        ensures shrinks { left self.new ≤ left self.old }
    {
        self.advance();
        if self.is(Test::Number) {
            return Level::Number(self.lexeme());
        }
        self.need(Test::Keyword(b"max"));
        Level::Max
    }

    /// Adds what was read to a list. Stops where there is no memory.
    pub fn push<T: Drop>(&mut self, items: &mut Vec<T>, item: T)
        ensures reads { Adds (items.old.items ++ item ∷ []) items.new.items self.old self.new }
        ensures shrinks { left self.new ≤ left self.old }
    {
        if items.push(item).is_err() {
            self.hand = Err(Halt::Mem);
        }
    }
}
