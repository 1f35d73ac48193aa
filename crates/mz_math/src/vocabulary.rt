// What the tokens of a math string are read with.
ghost use Rattle.std.specs.Prelude.{◌≡◌, ◌≢◌, ◌↔◌, IsTrue, MatchOption, [], Contains, Some, slice_get};
ghost use Rattle.mz_logic_theory.specs.Declaration.{signatures};
ghost use Rattle.mz_math_theory.specs.Clear.{JoinedBy, LedBy};
ghost use Rattle.mz_math_theory.specs.Grammar.{IsKnown, IsTermName, words_of};
ghost use Rattle.mz_math_theory.specs.Lookups.{NoInfix, NoLeading, NoTermName, NoVariable};

use mz_lex::is_parenthesis;
use mz_logic_theory::Env;
use mz_math_notation::{Notations, Scope};
use mz_math_theory::Notation;
use std::marker::Model;

/// The notations and names so far, the declarations, and the statement's variables.
#[derive(Drop)]
pub struct Vocabulary<'a> {
    notations: &'a Notations,
    env: &'a Env,
    scope: &'a Scope,
}

impl<'a> Model for Vocabulary<'a> {
    ghost use Rattle.mz_logic_theory.specs.Declaration.{signatures};
    ghost use Rattle.mz_math_theory.specs.Grammar.{Words, words_of};

    ghost Value = { Words };

    ghost view = { λ a. words_of a.notations.now (signatures a.env.now) a.scope.now.names };
}

impl<'a> Vocabulary<'a> {
    /// What these notations, declarations and variables offer.
    pub fn new(notations: &'a Notations, env: &'a Env, scope: &'a Scope) -> Vocabulary<'a>
        ensures { result ≡ words_of notations.now (signatures env.now) scope.now.names }
    {
        Vocabulary {
            notations,
            env,
            scope,
        }
    }

    /// The place of the variable of this name.
    pub fn variable(&self, token: &[u8]) -> Option<u32>
        ensures { MatchOption result (NoVariable self.now token.now) (λ x. (token.now ≢ []) × (slice_get self.now.variables x ≡ Some token.now)) }
    {
        self.scope.place_of(token)
    }

    /// The notation that begins with this constant.
    pub fn leading(&self, token: &[u8]) -> Option<&'a Notation>
        ensures { MatchOption result (NoLeading self.now token.now) (λ k. Contains self.now.leading k.now × LedBy k.now token.now) }
    {
        self.notations.led_by(token)
    }

    /// The term of this name, and the number of its parameters.
    pub fn term(&self, token: &[u8]) -> Option<(u32, usize)>
        ensures { MatchOption result (NoTermName self.now token.now) (λ t. IsTermName self.now token.now t.0 t.1) }
    {
        match self.notations.named(token) {
            None => None,
            Some(number) => match self.env.term(number) {
                None => None,
                Some(term) => Some((number, term.params.len())),
            },
        }
    }

    /// The infix notation of this constant.
    pub fn infix(&self, token: &[u8]) -> Option<&'a Notation>
        ensures { MatchOption result (NoInfix self.now token.now) (λ k. Contains self.now.infixes k.now × JoinedBy k.now token.now) }
    {
        self.notations.joined_by(token)
    }

    /// Whether the token is a variable, a parenthesis, a constant or a term's name.
    pub fn is_known(&self, token: &[u8]) -> bool
        ensures { IsTrue result ↔ IsKnown self.now token.now }
    {
        if self.scope.names_variable(token) {
            return true;
        }
        if is_parenthesis(token) {
            return true;
        }
        if self.notations.has_constant(token) {
            return true;
        }
        self.notations.names_term(token)
    }
}
