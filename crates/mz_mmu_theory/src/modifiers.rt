//! The modifiers of a sort.
ghost use Rattle.std.specs.Prelude.{◌≡◌};
ghost use Rattle.mz_mmu_theory.specs.Statements;
ghost use Rattle.mz_mmu_theory.specs.Statements.{with_modifier, modifier_bits};
ghost use Rattle.mz_mmu_theory.specs.StatementView.{modifiers as modifiers_view, option_modifiers};

use crate::keyword::is;
use mz_logic_theory::SortMods;

/// A sort's modifiers, as they are met.
#[derive(Clone, Copy)]
pub struct Modifiers {
    pub is_pure: bool,
    pub is_strict: bool,
    pub is_provable: bool,
    pub is_free: bool,
}

impl Modifiers {
    /// None.
    pub const NONE: Modifiers = Modifiers {
        is_pure: false,
        is_strict: false,
        is_provable: false,
        is_free: false,
    };

    /// These and the one of this atom, if it is a modifier's and not met yet.
    pub fn with(self, word: &[u8]) -> Option<Modifiers>
        ensures { option_modifiers result ≡ with_modifier (modifiers_view self) word.now }
    {
        if is(word, b"pure") {
            once(
                self.is_pure,
                Modifiers {
                    is_pure: true,
                    ..self
                },
            )
        } else if is(word, b"strict") {
            once(
                self.is_strict,
                Modifiers {
                    is_strict: true,
                    ..self
                },
            )
        } else if is(word, b"provable") {
            once(
                self.is_provable,
                Modifiers {
                    is_provable: true,
                    ..self
                },
            )
        } else if is(word, b"free") {
            once(
                self.is_free,
                Modifiers {
                    is_free: true,
                    ..self
                },
            )
        } else {
            None
        }
    }

    /// The modifiers as the logic has them.
    pub fn mods(self) -> SortMods
        ensures { result.0 ≡ modifier_bits (modifiers_view self) }
    {
        SortMods(
            bit(self.is_pure, 1)
                + bit(self.is_strict, 2)
                + bit(self.is_provable, 4)
                + bit(self.is_free, 8),
        )
    }
}

/// These modifiers, unless the one was met before.
fn once(met: bool, modifiers: Modifiers) -> Option<Modifiers>
    ensures { option_modifiers result ≡ Statements.once met (modifiers_view modifiers) }
{
    if met { None } else { Some(modifiers) }
}

fn bit(set: bool, value: u8) -> u8
    ensures { result ≡ Statements.bit set value }
{
    if set { value } else { 0 }
}
