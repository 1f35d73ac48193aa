// The variables of a statement over what is declared.
ghost use Rattle.std.specs.Prelude.{◌≡◌, ◌≢◌, ◌⊎◌, ◌+◌, ◌-◌, ◌<◌, ◌^◌, ◌++◌, ◌∷◌, ⊤, [], ℕ, List, Option, Contains, IfOk, IsTrue, MatchOption, OnOk, length, map, option_map};
ghost use Rattle.mz_base.specs.Identifiers.{is_name};
ghost use Rattle.mz_spec_theory.specs.StatementCode.{lexeme, type_text};
ghost use Rattle.mz_spec_theory.specs.Statement.{TypeText as TypeLem};
ghost use Rattle.mz_math_theory.specs.Kept.{AreVariables};
ghost use Rattle.mz_spec_variables.specs.Code.{AreGrouped, AreParts, IsOfTypes, typed, variable as variable_lem};
ghost use Rattle.mz_spec_rules.specs.Entries.{state};
ghost use Rattle.mz_spec_rules.specs.LastOf.{IsLastOf, sort_at};
ghost use Rattle.mz_spec_variables.specs.Index.{IsIndexOf};
ghost use Rattle.mz_spec_theory.specs.Kept.{IsKept};
ghost use Rattle.mz_spec_theory.specs.State.{binder_of as binder_of_lem, bytes_of as bytes_of_lem, result_of, scope_of as scope_of_lem, sort_number as sort_number_lem, term_number as term_number_lem, variable_bytes};
ghost use Rattle.mz_spec_theory.specs.View.{Variable as VariableLem, alone};

use crate::state::State;
use mz_logic_theory::{Binder, Binders, ResultType};
use mz_math_notation::Scope;
use mz_spec_theory::{Lexeme, TypeText};
use mz_spec_variables::{NameIndex, Parts, Variable, places_among};
use std::alloc::{AllocError, Global};

impl<'a> State<'a> {
    /// The number of the sort of this name; 0 where there is none.
    pub fn sort_number(&self, name: Lexeme<'a>) -> u32
        requires few { length (state self.now).sort_names < 2 ^ 32 }
        ensures { result ≡ sort_number_lem (state self.now) (alone (lexeme name.entry)) }
    {
        match self.sort_names.number_of(name.bytes) {
            Some(number) => number as u32,
            None => 0,
        }
    }

    /// The number of the term of this name; 0 where there is none.
    pub fn term_number(&self, name: Lexeme<'a>) -> u32
        requires { IsKept (state self.now) }
        ensures { result ≡ term_number_lem (state self.now) (lexeme name.entry) }
    {
        match self.notations.named(name.bytes) {
            Some(number) => number,
            None => 0,
        }
    }

    /// The binder of a variable, over these parameters with this index.
    fn binder_of(
        &self,
        alloc: Global,
        index: &Option<NameIndex<'a>>,
        params: &[Variable<'_, 'a>],
        variable: &Variable<'_, 'a>,
    ) -> Result<Binder, AllocError>
        requires few { length (state self.now).sort_names < 2 ^ 32 }
        requires index { MatchOption index.now ⊤ (IsIndexOf (map variable_lem params.now)) }
        requires small { length params.now < 2 ^ 32 }
        ensures { IfOk result (λ binder. binder ≡ binder_of_lem (state self.now) (map variable_lem params.now) (variable_lem variable.now)) }
    {
        let deps = places_among(alloc, index, params, &variable.ty.deps)?;
        let sort = self.sort_number(variable.ty.sort);
        Ok(Binder {
            sort,
            bound: variable.is_bound,
            deps,
        })
    }

    /// The binders of variables, over these parameters with this index.
    pub fn binders_of(
        &self,
        alloc: Global,
        index: &Option<NameIndex<'a>>,
        params: &[Variable<'_, 'a>],
        variables: &[Variable<'_, 'a>],
    ) -> Result<Binders, AllocError>
        requires few { length (state self.now).sort_names < 2 ^ 32 }
        requires index { MatchOption index.now ⊤ (IsIndexOf (map variable_lem params.now)) }
        requires small { length params.now < 2 ^ 32 }
        requires grouped { AreGrouped variables.now }
        ensures { IfOk result (λ binders. binders ≡ map (binder_of_lem (state self.now) (map variable_lem params.now)) (map variable_lem variables.now)) }
    {
        let mut binders = Binders::with_capacity(alloc, variables.len())?;
        self.push_binders(alloc, index, &mut binders, params, variables)?;
        Ok(binders)
    }

    /// Adds them.
    fn push_binders(
        &self,
        alloc: Global,
        index: &Option<NameIndex<'a>>,
        binders: &mut Binders,
        params: &[Variable<'_, 'a>],
        variables: &[Variable<'_, 'a>],
    ) -> Result<(), AllocError>
        requires few { length (state self.now).sort_names < 2 ^ 32 }
        requires index { MatchOption index.now ⊤ (IsIndexOf (map variable_lem params.now)) }
        requires small { length params.now < 2 ^ 32 }
        requires grouped { AreGrouped variables.now }
        requires none { binders.old ≡ [] }
        ensures { OnOk result (binders.new ≡ map (binder_of_lem (state self.now) (map variable_lem params.now)) (map variable_lem variables.now)) }
    {
        let mut group = None;
        for variable in variables {
            self.push_binder(alloc, index, binders, params, variable, group)?;
            group = variable.group;
        }
        Ok(())
    }

    /// Adds the binder of a variable. Where this is of the group of the last one, they share what they depend
    /// on, and its sort's name isn't looked up again.
    fn push_binder(
        &self,
        alloc: Global,
        index: &Option<NameIndex<'a>>,
        binders: &mut Binders,
        params: &[Variable<'_, 'a>],
        variable: &Variable<'_, 'a>,
        group: Option<usize>,
    ) -> Result<(), AllocError>
        requires few { length (state self.now).sort_names < 2 ^ 32 }
        requires index { MatchOption index.now ⊤ (IsIndexOf (map variable_lem params.now)) }
        requires small { length params.now < 2 ^ 32 }
        ensures { OnOk result ((types : ℕ → Option TypeLem) → IsOfTypes types (typed variable.now) → IsLastOf (state self.now) types (map variable_lem params.now) group binders.old
            → binders.new ≡ binders.old ++ binder_of_lem (state self.now) (map variable_lem params.now) (variable_lem variable.now) ∷ []) }
    {
        if variable.is_of(group) {
            return binders.push_alike(last_sort(binders), variable.is_bound);
        }
        let binder = self.binder_of(alloc, index, params, variable)?;
        binders.push(binder)?;
        Ok(())
    }

    /// The result of this type, over the statement's parameters.
    pub fn result_of(
        &self,
        alloc: Global,
        index: &Option<NameIndex<'a>>,
        parts: &Parts<'_, 'a>,
        ty: &TypeText<'a>,
    ) -> Result<ResultType, AllocError>
        requires index { MatchOption index.now ⊤ (IsIndexOf (map variable_lem parts.now.params.items)) }
        requires few { length (state self.now).sort_names < 2 ^ 32 }
        requires small { length parts.now.params.items < 2 ^ 32 }
        ensures { IfOk result (λ r. (vs : List VariableLem) (types results : List TypeLem) → AreParts parts.now vs types results → r ≡ result_of (state self.now) vs (type_text ty.now)) }
    {
        Ok(ResultType {
            sort: self.sort_number(ty.sort),
            deps: places_among(alloc, index, &parts.params, &ty.deps)?,
        })
    }

    /// Adds variables, with their binders over these parameters with this index, to a scope.
    fn push_variables(
        &self,
        alloc: Global,
        index: &Option<NameIndex<'a>>,
        scope: &mut Scope,
        params: &[Variable<'_, 'a>],
        variables: &[Variable<'_, 'a>],
    ) -> Result<(), AllocError>
        requires few { length (state self.now).sort_names < 2 ^ 32 }
        requires index { MatchOption index.now ⊤ (IsIndexOf (map variable_lem params.now)) }
        requires small { length params.now < 2 ^ 32 }
        requires room { length scope.old.names + length variables.now < 2 ^ 32 }
        requires names { AreVariables (scope.old.names ++ map variable_bytes (map variable_lem variables.now)) }
        requires grouped { AreGrouped variables.now }
        ensures names { OnOk result (scope.new.names ≡ scope.old.names ++ map variable_bytes (map variable_lem variables.now)) }
        ensures binders { OnOk result (scope.new.binders ≡ scope.old.binders ++ map (binder_of_lem (state self.now) (map variable_lem params.now)) (map variable_lem variables.now)) }
    {
        let mut group = None;
        for variable in variables {
            self.push_variable(alloc, index, scope, params, variable, group)?;
            group = variable.group;
        }
        Ok(())
    }

    /// Adds a variable. Where it is of the group of the last one, they share what they depend on, and its
    /// sort's name isn't looked up again.
    fn push_variable(
        &self,
        alloc: Global,
        index: &Option<NameIndex<'a>>,
        scope: &mut Scope,
        params: &[Variable<'_, 'a>],
        variable: &Variable<'_, 'a>,
        group: Option<usize>,
    ) -> Result<(), AllocError>
        requires few { length (state self.now).sort_names < 2 ^ 32 }
        requires index { MatchOption index.now ⊤ (IsIndexOf (map variable_lem params.now)) }
        requires small { length params.now < 2 ^ 32 }
        requires name { (variable_bytes (variable_lem variable.now) ≡ []) ⊎ IsTrue (is_name (variable_bytes (variable_lem variable.now))) }
        requires other { variable_bytes (variable_lem variable.now) ≢ [] → Contains scope.old.names (variable_bytes (variable_lem variable.now)) → ⊥ }
        requires room { length scope.old.names < 4294967295 }
        ensures names { OnOk result (scope.new.names ≡ scope.old.names ++ variable_bytes (variable_lem variable.now) ∷ []) }
        ensures binders { OnOk result ((types : ℕ → Option TypeLem) → IsOfTypes types (typed variable.now) → IsLastOf (state self.now) types (map variable_lem params.now) group scope.old.binders
            → scope.new.binders ≡ scope.old.binders ++ binder_of_lem (state self.now) (map variable_lem params.now) (variable_lem variable.now) ∷ []) }
    {
        let name = bytes_of(variable.name);
        if variable.is_of(group) {
            let sort = last_sort(scope.binders());
            return scope.push_alike(name, sort, variable.is_bound);
        }
        let binder = self.binder_of(alloc, index, params, variable)?;
        scope.push(name, binder)
    }

    /// What the statement's math strings see of its variables: parameters first, then dummies.
    pub fn scope_of(
        &self,
        alloc: Global,
        index: &Option<NameIndex<'a>>,
        parts: &Parts<'_, 'a>,
    ) -> Result<Scope, AllocError>
        requires index { MatchOption index.now ⊤ (IsIndexOf (map variable_lem parts.now.params.items)) }
        requires few { length (state self.now).sort_names < 2 ^ 32 }
        requires room { length parts.now.params.items + length parts.now.dummies.items < 2 ^ 32 }
        requires names { AreVariables (map variable_bytes (map variable_lem parts.now.params.items) ++ map variable_bytes (map variable_lem parts.now.dummies.items)) }
        requires grouped_params { AreGrouped parts.now.params.items }
        requires grouped_dummies { AreGrouped parts.now.dummies.items }
        ensures { IfOk result (λ scope. (vs : List VariableLem) (types results : List TypeLem) → AreParts parts.now vs types results → scope ≡ scope_of_lem (state self.now) vs) }
    {
        let mut scope = Scope::new(alloc, self.hashing);
        self.push_variables(alloc, index, &mut scope, &parts.params, &parts.params)?;
        self.push_variables(alloc, index, &mut scope, &parts.params, &parts.dummies)?;
        Ok(scope)
    }
}

/// The sort of the last binder; 0 where there is none.
fn last_sort(binders: &Binders) -> u32
    ensures { result ≡ sort_at binders.now (length binders.now - 1) }
{
    match binders.as_slice().last() {
        None => 0,
        Some(binder) => binder.sort,
    }
}

/// The bytes of a name, none where there is none.
fn bytes_of<'a>(name: Option<Lexeme<'a>>) -> &'a [u8]
    ensures { result.now ≡ bytes_of_lem (option_map lexeme name.entry) }
{
    match name {
        Some(name) => name.bytes,
        None => &[],
    }
}
