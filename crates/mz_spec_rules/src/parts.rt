// The rules of a statement's parts together: its variables, its types and its binders.
ghost use Rattle.std.specs.Prelude.{◌≡◌, ⊤, [], List, MatchOption, map};
ghost use Rattle.mz_spec_theory.specs.Statement.{TypeText};
ghost use Rattle.mz_spec_theory.specs.StatementCode.{lexeme, type_text};
ghost use Rattle.mz_spec_rules.specs.Answers.{JudgesOrMem};
ghost use Rattle.mz_spec_variables.specs.Code.{AreGrouped, AreParts, variable};
ghost use Rattle.mz_spec_rules.specs.Entries.{state};
ghost use Rattle.mz_spec_variables.specs.Index.{IsIndexOf};
ghost use Rattle.mz_spec_theory.specs.Kept.{IsKept};
ghost use Rattle.mz_spec_rules.specs.Noting.{named_rules, noting_rules};
ghost use Rattle.mz_spec_theory.specs.Rules.{parts_rules, variable_rules};
ghost use Rattle.mz_spec_theory.specs.View.{Variable as VariableLem};

use crate::rules::push_names;
use crate::state::State;
use mz_spec_theory::{Halt, Lexeme};
use mz_spec_variables::{NameIndex, NameMap, Parts, TypeAt, Variable};
use std::alloc::Global;

impl<'a> State<'a> {
    /// The names, types and binders of a statement are right.
    pub fn check_parts(
        &self,
        alloc: Global,
        index: &Option<NameIndex<'a>>,
        place: u32,
        parts: &Parts<'_, 'a>,
    ) -> Result<(), Halt>
        requires kept { IsKept (state self.now) }
        requires index { MatchOption index.now ⊤ (IsIndexOf (map variable parts.now.params.items)) }
        requires grouped { AreGrouped parts.now.params.items }
        ensures { (vs : List VariableLem) (types results : List TypeText) → AreParts parts.now vs types results → JudgesOrMem result (parts_rules (state self.now) place vs types results) }
    {
        self.check_variables(alloc, &parts.variables, &parts.types)?;
        self.check_binders(index, place, parts)?;
        Ok(())
    }

    /// The names of variables are their own, and the names in types are known.
    fn check_variables(
        &self,
        alloc: Global,
        variables: &[Variable<'_, 'a>],
        types: &[TypeAt<'_, 'a>],
    ) -> Result<(), Halt>
        ensures { JudgesOrMem result (variable_rules (state self.now) (map variable variables.now) (map (λ t. type_text t.ty.now) types.now)) }
    {
        let mut names = NameMap::new(alloc, self.hashing);
        self.check_variables_in(&mut names, variables, types)
    }

    /// The same with room for the names.
    fn check_variables_in(
        &self,
        names: &mut NameMap<'a>,
        variables: &[Variable<'_, 'a>],
        types: &[TypeAt<'_, 'a>],
    ) -> Result<(), Halt>
        requires none { names.old ≡ [] }
        ensures { JudgesOrMem result (variable_rules (state self.now) (map variable variables.now) (map (λ t. type_text t.ty.now) types.now)) }
    {
        push_names(names, variables)?;
        self.check_types(names, types)?;
        Ok(())
    }

    /// The names of variables are their own, and those of the term and in types are known.
    fn check_names(
        &self,
        alloc: Global,
        name: Lexeme<'a>,
        variables: &[Variable<'_, 'a>],
        types: &[TypeAt<'_, 'a>],
    ) -> Result<(), Halt>
        ensures { JudgesOrMem result (named_rules (state self.now) (lexeme name.entry) (map variable variables.now) (map (λ t. type_text t.ty.now) types.now)) }
    {
        let mut names = NameMap::new(alloc, self.hashing);
        self.check_names_in(&mut names, name, variables, types)
    }

    /// The same with room for the names of variables.
    fn check_names_in(
        &self,
        names: &mut NameMap<'a>,
        name: Lexeme<'a>,
        variables: &[Variable<'_, 'a>],
        types: &[TypeAt<'_, 'a>],
    ) -> Result<(), Halt>
        requires none { names.old ≡ [] }
        ensures { JudgesOrMem result (named_rules (state self.now) (lexeme name.entry) (map variable variables.now) (map (λ t. type_text t.ty.now) types.now)) }
    {
        push_names(names, variables)?;
        self.check_known_term(name)?;
        self.check_types(names, types)?;
        Ok(())
    }

    /// The names, types and binders of a general notation with these parts are right.
    pub fn check_notation(
        &self,
        alloc: Global,
        index: &Option<NameIndex<'a>>,
        place: u32,
        name: Lexeme<'a>,
        parts: &Parts<'_, 'a>,
    ) -> Result<(), Halt>
        requires kept { IsKept (state self.now) }
        requires index { MatchOption index.now ⊤ (IsIndexOf (map variable parts.now.params.items)) }
        requires grouped { AreGrouped parts.now.params.items }
        ensures { (vs : List VariableLem) (types results : List TypeText) → AreParts parts.now vs types results
            → JudgesOrMem result (noting_rules (state self.now) place (lexeme name.entry) vs types results) }
    {
        self.check_names(alloc, name, &parts.variables, &parts.types)?;
        self.check_binders(index, place, parts)?;
        Ok(())
    }
}
