// The declarations that stand before a statement.
ghost use Rattle.std.specs.Prelude.{◌≡◌, Some, option_map, slice_get, take};
ghost use Rattle.mz_logic_theory.specs.Declaration.{Assertion, Term, assertions, terms};
ghost use Rattle.mz_logic_theory.specs.DeclView.{assertion_view, term_view};

use mz_logic_theory::{Env, TermDecl, ThmDecl};
use std::marker::Model;

/// The first declarations of an environment, which is borrowed.
#[derive(Drop)]
pub struct EnvPrefix<'e> {
    env: &'e Env,
    len: usize,
}

impl<'e> Model for EnvPrefix<'e> {
    ghost use Rattle.std.specs.Prelude.{List, take};
    ghost use Rattle.mz_logic_theory.specs.Declaration.{Declaration};
    ghost use Rattle.mz_logic_theory.specs.Codes.{declaration_code};
    ghost use Rattle.std.specs.Coded.{coded_list};

    ghost Value = { List Declaration };

    ghost coded = { coded_list declaration_code };

    ghost view = { λ p. take p.len p.env.now };
}

impl<'e> EnvPrefix<'e> {
    /// The first `len` declarations, or all where there are fewer.
    pub fn of(env: &'e Env, len: usize) -> EnvPrefix<'e>
        ensures { result ≡ take len env.now }
    {
        EnvPrefix { env, len }
    }

    /// The term with this number, which is one of these declarations.
    pub fn term(&self, number: u32) -> Option<&'e TermDecl>
        ensures { (t : Term) → slice_get (terms self.now) number ≡ Some t → option_map (λ d. term_view d.now) result ≡ Some t }
    {
        self.env.term(number)
    }

    /// The axiom or theorem with this number, which is one of these declarations.
    pub fn thm(&self, number: u32) -> Option<&'e ThmDecl>
        ensures { (a : Assertion) → slice_get (assertions self.now) number ≡ Some a → option_map (λ d. assertion_view d.now) result ≡ Some a }
    {
        self.env.thm(number)
    }
}
