// What the statements before declare.
ghost use Rattle.std.specs.Prelude.{◌≡◌};
ghost use Rattle.mz_spec_rules.specs.Entries.{state};
ghost use Rattle.mz_spec_theory.specs.State.{nothing};

use mz_base::Hashing;
use mz_logic_theory::Env;
use mz_math_notation::Notations;
use mz_spec_theory::NameSpan;
use mz_spec_variables::NameMap;
use std::alloc::Global;

/// The names of sorts and of axioms and theorems, the declarations, the name span of each, and what has been
/// declared for math strings, where terms have their names; and how all of these names, and those of a
/// statement's variables, are hashed.
#[derive(Drop)]
pub struct State<'a> {
    pub hashing: Hashing,
    pub sort_names: NameMap<'a>,
    pub assertion_names: NameMap<'a>,
    pub env: Env,
    pub spans: Vec<NameSpan>,
    pub notations: Notations,
}

impl<'a> State<'a> {
    /// Nothing is declared.
    pub fn new(alloc: Global, hashing: Hashing) -> State<'a>
        ensures { state result ≡ nothing }
    {
        State {
            hashing,
            sort_names: NameMap::new(alloc, hashing),
            assertion_names: NameMap::new(alloc, hashing),
            env: Env::new(alloc),
            spans: Vec::new(alloc),
            notations: Notations::with_hashing(alloc, hashing),
        }
    }

    /// The declarations and their name spans.
    pub fn into_parts(self) -> (Env, Vec<NameSpan>)
        ensures env { result.0 ≡ self.entry.env }
        ensures spans { result.1.items ≡ self.entry.spans.items }
    {
        (self.env, self.spans)
    }
}
