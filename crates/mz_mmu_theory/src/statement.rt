ghost use Rattle.std.specs.Prelude.{◌<◌};

use crate::proof::ProofBox;
use mz_logic_theory::{Binders, Decl};

/// What a statement declares, with its name.
#[derive(Drop)]
pub struct Declared<'a> {
    /// The name, as it stands in the text.
    pub name: &'a [u8],
    /// The declaration.
    pub decl: Decl,
    /// A theorem's dummies; a definition's stand in its declaration.
    pub dummies: Binders,
    /// A theorem's proof; nothing else has one.
    pub proof: Option<ProofBox>,
}
