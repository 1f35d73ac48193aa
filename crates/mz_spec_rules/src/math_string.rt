// Math strings as they stand in a statement.
ghost use Rattle.std.specs.Prelude.{◌≡◌};
ghost use Rattle.mz_spec_theory.specs.StatementCode.{lexeme};
ghost use Rattle.mz_spec_theory.specs.Formulas.{inner as inner_lem};

use mz_spec_theory::Lexeme;

/// What stands between the two `$` of a math string.
pub fn inner<'a>(math: Lexeme<'a>) -> &'a [u8]
    ensures { result.now ≡ inner_lem (lexeme math.entry) }
{
    let bytes = math.bytes;
    if bytes.len() < 2 {
        return &[];
    }
    &bytes[1..bytes.len() - 1]
}
