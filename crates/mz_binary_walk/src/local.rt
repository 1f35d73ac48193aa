// Which statements are local.
ghost use Rattle.std.specs.Prelude.{◌≡◌};
ghost use Rattle.mz_cmd.specs.Codes.{statement_byte};
ghost use Rattle.mz_binary_theory.specs.Spelling.{is_local_code};

use mz_cmd::StatementCode;

/// Whether a statement with this code is local.
pub fn is_local(code: StatementCode) -> bool
    ensures { result ≡ is_local_code (statement_byte code) }
{
    match code {
        StatementCode::LocalDefinition | StatementCode::LocalTheorem => true,
        StatementCode::Sort | StatementCode::Term => false,
        StatementCode::Axiom | StatementCode::Theorem => false,
    }
}
