// The names of an accepted pair, gathered statement by statement.
ghost use Rattle.std.specs.Prelude.{◌≡◌, ℕ, List, [], IfOk, OnOk};
ghost use Rattle.mz_cmd.specs.Codes.{statement_byte};
ghost use Rattle.mz_binary_theory.specs.Spelling.{is_local_code};
ghost use Rattle.mz_spec.specs.Named.{IsNamed};
ghost use Rattle.mz_binary_theory.specs.Good.{IsGood};
ghost use Rattle.mz_decompile_text.specs.Names.{declared_names};
ghost use Rattle.mz_decompile_text.specs.Accepted.{IsNamingOf};
ghost use Rattle.mz_decompile_text.specs.Adding.{IsAdded, local_name, next_name};

use crate::list::NameList;
use crate::names::{PairNames, put_numbered};
use crate::source::prefix_beside;
use mz_binary_walk::{Passed, is_local};
use mz_cmd::{Mem, StatementCode};
use mz_layout_tables::Mmb;
use mz_spec::NamedSpec;
use std::alloc::Global;

impl PairNames {
    /// The names of the statements of a binary that is accepted against a specification.
    pub fn of(alloc: Global, spec: &NamedSpec, mmb: &Mmb) -> Result<PairNames, Mem>
        requires { IsGood mmb.now }
        ensures { (text : List ℕ) → IsNamed text spec.now → IfOk result (IsNamingOf text mmb.now) }
    {
        let mut names = PairNames::with_prefix(alloc, prefix_beside(alloc, spec)?);
        let mut passed = Passed::nothing(mmb);
        'statements: while let Some((head, after)) = passed.next(mmb) {
            let number = after.statements;
            names.add_next(alloc, spec, head.code, passed.publics, number)?;
            passed = after;
        }
        Ok(names)
    }

    /// No names yet.
    fn with_prefix(alloc: Global, prefix: Vec<u8>) -> PairNames
        ensures { result ≡ record { sorts = []; terms = []; assertions = []; prefix = prefix.items } }
    {
        PairNames {
            sorts: NameList::new(alloc),
            terms: NameList::new(alloc),
            assertions: NameList::new(alloc),
            prefix,
        }
    }

    /// Adds the name of the statement of this number, before which so many public ones stand.
    fn add_next(
        &mut self,
        alloc: Global,
        spec: &NamedSpec,
        code: StatementCode,
        publics: u32,
        number: u32,
    ) -> Result<(), Mem>
        ensures { OnOk result (IsAdded code
            (next_name (declared_names spec.now.text.now spec.now.declared) self.old.prefix (is_local_code (statement_byte code)) publics number) self.old self.new) }
    {
        if is_local(code) {
            let name = self.local_name(alloc, number)?;
            return self.add(code, &name);
        }
        self.add(code, spec.name(publics))
    }

    /// The name of the local statement of this number.
    fn local_name(&self, alloc: Global, number: u32) -> Result<Vec<u8>, Mem>
        ensures { IfOk result (λ name. name.items ≡ local_name self.now.prefix number) }
    {
        let mut name = Vec::new(alloc);
        put_numbered(&self.prefix, b'l', number as usize, &mut name)?;
        Ok(name)
    }

    /// Adds a name to those of its kind, which the code of its statement says.
    fn add(&mut self, code: StatementCode, name: &[u8]) -> Result<(), Mem>
        ensures { OnOk result (IsAdded code name.now self.old self.new) }
    {
        match code {
            StatementCode::Sort => self.sorts.push(name),
            StatementCode::Term | StatementCode::LocalDefinition => self.terms.push(name),
            StatementCode::Axiom | StatementCode::Theorem | StatementCode::LocalTheorem => {
                self.assertions.push(name)
            }
        }
    }
}
