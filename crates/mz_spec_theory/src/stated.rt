ghost use Rattle.std.specs.Prelude.{◌<◌};

use crate::lexeme::Lexeme;

/// A formula of an axiom or a theorem, with the number of hypotheses that it makes.
#[derive(Clone, Copy)]
pub struct Stated<'a> {
    pub math: Lexeme<'a>,
    pub times: usize,
}
