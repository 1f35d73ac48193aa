// Where axioms and theorems stand beside the declarations of a specification.
ghost use Rattle.std.specs.Prelude.{◌≡◌};
ghost use Rattle.mz_axioms.specs.Places.{place_by};

use crate::rows::Place;
use mz_cmd::StatementCode;

/// The place of a statement with this code, if it is an axiom or a theorem, after so many public
/// statements.
pub fn place_of(code: StatementCode, publics: u32) -> Option<Place>
    ensures { result ≡ place_by publics code }
{
    let (is_axiom, is_local) = match code {
        StatementCode::Axiom => (true, false),
        StatementCode::Theorem => (false, false),
        StatementCode::LocalTheorem => (false, true),
        StatementCode::Sort | StatementCode::Term | StatementCode::LocalDefinition => return None,
    };
    Some(Place {
        number: publics,
        is_axiom,
        is_local,
    })
}
