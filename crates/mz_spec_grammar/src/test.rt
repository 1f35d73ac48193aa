// What a lexeme is asked.
ghost use Rattle.std.specs.Prelude.{◌≡◌};
ghost use Rattle.mz_spec_grammar.specs.Standing.{test};
ghost use Rattle.mz_spec_theory.specs.Progress.{is_bare as is_bare_lem};
ghost use Rattle.mz_spec_theory.specs.StatementCode.{modifiers};
ghost use Rattle.mz_spec_theory.specs.Tests.{fits};

use mz_spec_theory::{Kind, Lexeme, Modifiers};

/// To be one of these.
#[derive(Clone, Copy)]
pub enum Test<'a> {
    Keyword(&'a [u8]),
    Symbol(&'a [u8]),
    Name,
    NameOrBlank,
    Formula,
    Number,
    /// The bracket behind a group, of bound names or others.
    Closing(bool),
    /// A modifier that may stand behind these.
    Pure(Modifiers),
    Strict(Modifiers),
    Provable(Modifiers),
    Free(Modifiers),
    /// The dot before a dummy, in this kind of statement.
    Dot(Kind),
    /// The formula of a group, of bound names or others.
    Hypothesis(Kind, bool),
}

/// Whether there is no modifier.
pub fn is_bare(read: Modifiers) -> bool
    ensures { result ≡ is_bare_lem (modifiers read) }
{
    !(read.is_pure || read.is_strict || read.is_provable || read.is_free)
}

impl Test<'_> {
    /// Whether the lexeme passes.
    #[inline(always)]
    pub fn fits(self, found: Lexeme<'_>) -> bool
        ensures { result ≡ fits (test self.entry) found.entry.kind found.entry.bytes.now }
    {
        match self {
            Test::Keyword(text) => found.is_keyword(text),
            Test::Symbol(text) => found.is_symbol(text),
            Test::Name => found.is_name(),
            Test::NameOrBlank => found.is_name_or_blank(),
            Test::Formula => found.is_formula(),
            Test::Number => found.is_number(),
            Test::Closing(true) => found.is_symbol(b"}"),
            Test::Closing(false) => found.is_symbol(b")"),
            Test::Pure(m) => found.is_keyword(b"pure") && is_bare(m),
            Test::Strict(m) => {
                found.is_keyword(b"strict") && !(m.is_strict || m.is_provable || m.is_free)
            }
            Test::Provable(m) => found.is_keyword(b"provable") && !(m.is_provable || m.is_free),
            Test::Free(m) => found.is_keyword(b"free") && !m.is_free,
            Test::Dot(kind) => found.is_symbol(b".") && kind.takes_dummies(),
            Test::Hypothesis(kind, is_bound) => {
                found.is_formula() && kind.takes_formulas(is_bound)
            }
        }
    }
}
