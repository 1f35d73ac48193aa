// What stands first against a specification.
ghost use Rattle.std.specs.Prelude.{◌≡◌, ◌<◌, ◌↔◌, IsTrue, false, length, option_map};
ghost use Rattle.mz_base.specs.Checks.{Answers};
ghost use Rattle.mz_prefix.specs.PublicPart.{IsSayable};
ghost use Rattle.mz_prefix.specs.NamedDeclarations.{Vocabulary};
ghost use Rattle.mz_type.specs.TypedText.{statement_at};
ghost use Rattle.mz_prefix.specs.Wording.{IsBrief, local_checks, local_in, long_checks, long_in};

use crate::names::Names;
use crate::omitted::is_brief;
use mz_type::Typed;

impl<'a> Names<'a> {
    /// Whether the i-th statement is local, or no claim of it mentions a local term.
    fn can_say(&self, text: &Typed, i: u32) -> bool
        requires { i < length text.now.statements }
        ensures { IsTrue result ↔ ((statement_at text.now.statements i).is_local ≡ false → IsSayable self.now.locals.items (statement_at text.now.statements i).decl) }
    {
        text.is_local(i) || self.is_sayable(text.decl(i))
    }

    /// The number of the first public statement of which a claim mentions a local term.
    pub(crate) fn first_local(&self, text: &Typed) -> Option<u32>
        ensures { Answers (option_map local_in result) (local_checks self.now.locals.items 1 text.now.statements) }
    {
        for i in 0..text.len() {
            if !self.can_say(text, i) {
                return Some(i + 1);
            }
        }
        None
    }
}

/// Whether the i-th statement is local, or each claim of it is within the limits.
fn is_brief_at(text: &Typed, i: u32) -> bool
    requires { i < length text.now.statements }
    ensures { (v : Vocabulary) → IsTrue result ↔ ((statement_at text.now.statements i).is_local ≡ false → IsBrief v (statement_at text.now.statements i).decl) }
{
    text.is_local(i) || is_brief(text.decl(i))
}

/// The number of the first public statement of which a claim isn't within the limits.
pub(crate) fn first_long(text: &Typed) -> Option<u32>
    ensures { (v : Vocabulary) → Answers (option_map long_in result) (long_checks v 1 text.now.statements) }
{
    for i in 0..text.len() {
        if !is_brief_at(text, i) {
            return Some(i + 1);
        }
    }
    None
}
