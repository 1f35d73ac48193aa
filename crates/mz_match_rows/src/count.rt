// How many declarations a specification has of each kind.
ghost use Rattle.std.specs.Prelude.{◌≡◌, ◌≤◌, length};
ghost use Rattle.mz_spec_theory.specs.State.{env_of};
ghost use Rattle.mz_match_theory.specs.Verdict.{count as count_lem, counts_of};

use mz_match_theory::Counts;
use mz_spec_proved_theory::{Kind, kind_of};
use mz_spec_theory::Spec;

/// How many declarations there are of each kind.
pub fn count_all(spec: &Spec) -> Counts
    ensures { result ≡ counts_of (env_of spec.now) }
{
    Counts {
        sorts: count(spec, Kind::Sort),
        terms: count(spec, Kind::Term),
        axioms: count(spec, Kind::Axiom),
        definitions: count(spec, Kind::Definition),
        theorems: count(spec, Kind::Theorem),
    }
}

fn count(spec: &Spec, kind: Kind) -> u32
    ensures { result ≡ count_lem kind (env_of spec.now) }
{
    let mut found = 0;
    'declarations: for i in 0..spec.len() {
        if kind_of(spec.decl(i)).is(kind) {
            found += 1;
        }
    }
    found
}
