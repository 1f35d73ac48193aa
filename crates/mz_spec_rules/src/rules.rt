// The rules of a statement on its names and binders.
ghost use Rattle.std.specs.Prelude.{◌≡◌, ◌↔◌, ◌⊎◌, ◌≤◌, ◌++◌, ⊤, ℕ, [], IfOk, IsTrue, List, MatchOption, OnOk, Some, length, map, option_map, take};
ghost use Rattle.mz_base.specs.Checks.{Judges, each_in_order};
ghost use Rattle.mz_lex.specs.declared.rule.S.TheVariants.{NameTwice};
ghost use Rattle.mz_logic_theory.specs.Modifiers.{IsPure, IsStrict, IsFree};
ghost use Rattle.mz_spec_theory.specs.StatementCode.{lexeme, type_text};
ghost use Rattle.mz_spec_rules.specs.Answers.{JudgesOrMem};
ghost use Rattle.mz_spec_variables.specs.Code.{AreGrouped, AreParts, all_of, variable as variable_lem};
ghost use Rattle.mz_spec_rules.specs.Entries.{state};
ghost use Rattle.mz_spec_variables.specs.Index.{IsIndexOf};
ghost use Rattle.mz_spec_theory.specs.Kept.{IsKept};
ghost use Rattle.mz_spec_theory.specs.Rules.{AreBinders, DependsOnNothing, HasSortThat, HaveBinders, IsBinder, IsDummySort, IsNotPure, IsResult, are_others, binder_rules, is_known, is_other, mods_of as mods_of_lem, new_name, type_checks};
ghost use Rattle.mz_spec_theory.specs.Dependencies.{Every, IsBoundAmong};
ghost use Rattle.mz_spec_theory.specs.View.{Variable as VariableLem, name_texts, names_of};
ghost use Rattle.mz_spec_theory.specs.Statement.{TypeText as TypeLem};

use crate::state::State;
use mz_base::Hashing;
use mz_lex::S;
use mz_logic_theory::SortMods;
use mz_spec_theory::{Fault, Halt, Lexeme, TypeText};
use mz_spec_variables::{NameIndex, NameMap, Parts, TypeAt, Variable, are_bound_before, places_of};
use std::alloc::{AllocError, Global};

/// The name is none of these.
pub fn check_new<'a>(names: &NameMap<'a>, name: Lexeme<'a>) -> Result<(), Fault>
    ensures { Judges result (new_name names.now (lexeme name.entry)) }
{
    if names.number_of(name.bytes).is_some() {
        return Err(name_twice(name));
    }
    Ok(())
}

/// The fault of a name that isn't new.
fn name_twice(name: Lexeme<'_>) -> Fault
    ensures { result ≡ record { at = name.entry.from; rule = NameTwice } }
{
    Fault {
        at: name.from,
        rule: S::NameTwice,
    }
}

/// The name is one of these.
pub fn check_known<'a>(names: &NameMap<'a>, name: Lexeme<'a>) -> Result<(), Fault>
    ensures { Judges result (is_known names.now (lexeme name.entry)) }
{
    if names.number_of(name.bytes).is_none() {
        return Err(Fault {
            at: name.from,
            rule: S::UnknownName,
        });
    }
    Ok(())
}

fn check_all_known<'a>(names: &NameMap<'a>, found: &[Lexeme<'a>]) -> Result<(), Fault>
    ensures { Judges result (each_in_order (is_known names.now) (map lexeme found.now)) }
{
    for name in found {
        check_known(names, *name)?;
    }
    Ok(())
}

/// Adds the name of a variable, where it has one, to those before it.
fn push_name<'a>(names: &mut NameMap<'a>, name: Option<Lexeme<'a>>) -> Result<(), Halt>
    ensures judged { JudgesOrMem result (is_other names.old (option_map lexeme name.entry)) }
    ensures names { OnOk result (names.new ≡ names.old ++ name_texts (option_map lexeme name.entry)) }
{
    if let Some(name) = name {
        if !names.insert(name.bytes)? {
            return Err(Halt::Fault(name_twice(name)));
        }
    }
    Ok(())
}

/// Adds the names of the variables, where no two share one.
pub fn push_names<'a>(names: &mut NameMap<'a>, variables: &[Variable<'_, 'a>]) -> Result<(), Halt>
    requires none { names.old ≡ [] }
    ensures judged { JudgesOrMem result (are_others [] (map variable_lem variables.now)) }
    ensures names { OnOk result (names.new ≡ names_of (map variable_lem variables.now)) }
{
    for variable in variables {
        push_name(names, variable.name)?;
    }
    Ok(())
}

impl<'a> State<'a> {
    /// The name is none of a term.
    pub fn check_new_term(&self, name: Lexeme<'a>) -> Result<(), Fault>
        ensures { Judges result (new_name (state self.now).term_names (lexeme name.entry)) }
    {
        if self.notations.names_term(name.bytes) {
            return Err(name_twice(name));
        }
        Ok(())
    }

    /// The name is one of a term.
    pub fn check_known_term(&self, name: Lexeme<'a>) -> Result<(), Fault>
        ensures { Judges result (is_known (state self.now).term_names (lexeme name.entry)) }
    {
        if !self.notations.names_term(name.bytes) {
            return Err(Fault {
                at: name.from,
                rule: S::UnknownName,
            });
        }
        Ok(())
    }

    /// The sort of the type, and the variables on which it depends, are known.
    fn check_type(&self, names: &NameMap<'a>, ty: &TypeText<'a>) -> Result<(), Fault>
        ensures { Judges result (type_checks (state self.now) names.now (type_text ty.now)) }
    {
        check_known(&self.sort_names, ty.sort)?;
        check_all_known(names, &ty.deps)
    }

    /// Those of each type are.
    pub(crate) fn check_types(
        &self,
        names: &NameMap<'a>,
        types: &[TypeAt<'_, 'a>],
    ) -> Result<(), Fault>
        ensures { Judges result (each_in_order (type_checks (state self.now) names.now) (map (λ t. type_text t.ty.now) types.now)) }
    {
        for ty in types {
            self.check_type(names, ty.ty)?;
        }
        Ok(())
    }

    /// The modifiers of a type's sort, where it is there.
    fn mods_of(&self, ty: &TypeText<'a>) -> Option<SortMods>
        requires kept { IsKept (state self.now) }
        ensures { result ≡ mods_of_lem (state self.now) (type_text ty.now) }
    {
        let number = self.sort_names.number_of(ty.sort.bytes)?;
        self.env.sorts().get(number).copied()
    }

    fn is_strict(&self, ty: &TypeText<'a>) -> bool
        requires kept { IsKept (state self.now) }
        ensures { IsTrue result ↔ HasSortThat (state self.now) IsStrict (type_text ty.now) }
    {
        match self.mods_of(ty) {
            Some(mods) => mods.is_strict(),
            None => false,
        }
    }

    fn is_pure(&self, ty: &TypeText<'a>) -> bool
        requires kept { IsKept (state self.now) }
        ensures { IsTrue result ↔ HasSortThat (state self.now) IsPure (type_text ty.now) }
    {
        match self.mods_of(ty) {
            Some(mods) => mods.is_pure(),
            None => false,
        }
    }

    fn is_strict_or_free(&self, ty: &TypeText<'a>) -> bool
        requires kept { IsKept (state self.now) }
        ensures { IsTrue result ↔ HasSortThat (state self.now) (λ m. IsStrict m ⊎ IsFree m) (type_text ty.now) }
    {
        match self.mods_of(ty) {
            Some(mods) => mods.is_strict() || mods.is_free(),
            None => false,
        }
    }

    /// Whether the parameter at this place stands right behind those before it, where the last of them does,
    /// is of this group, and bound or not. Within a group nothing is looked up twice.
    fn is_binder(
        &self,
        index: &Option<NameIndex<'a>>,
        params: &[Variable<'_, 'a>],
        place: usize,
        variable: &Variable<'_, 'a>,
        last: Option<usize>,
        was_bound: bool,
    ) -> bool
        requires kept { IsKept (state self.now) }
        requires index { MatchOption index.now ⊤ (IsIndexOf (map variable_lem params.now)) }
        requires place { place ≤ length params.now }
        requires last { (g : ℕ) → variable.now.group ≡ Some g → last ≡ Some g → variable.now.is_bound ≡ was_bound → IsBinder (state self.now) (map variable_lem (take place params.now)) (variable_lem variable.now) }
        ensures { IsTrue result ↔ IsBinder (state self.now) (map variable_lem (take place params.now)) (variable_lem variable.now) }
    {
        if is_alike(variable, last, was_bound) {
            return true;
        }
        if variable.is_bound && (!variable.ty.deps.is_empty() || self.is_strict(variable.ty)) {
            return false;
        }
        depends_on_those_before(index, params, place, variable)
    }

    /// Whether each parameter stands right behind those before it.
    fn are_binders(&self, index: &Option<NameIndex<'a>>, params: &[Variable<'_, 'a>]) -> bool
        requires kept { IsKept (state self.now) }
        requires index { MatchOption index.now ⊤ (IsIndexOf (map variable_lem params.now)) }
        requires grouped { AreGrouped params.now }
        ensures { IsTrue result ↔ AreBinders (state self.now) [] (map variable_lem params.now) }
    {
        let mut last = None;
        let mut was_bound = false;
        for (i, variable) in params.iter().enumerate() {
            if !self.is_binder(index, params, i, variable, last, was_bound) {
                return false;
            }
            last = variable.group;
            was_bound = variable.is_bound;
        }
        true
    }

    /// Whether no dummy's sort is strict or free, which is asked once for a group.
    fn are_dummy_sorts(&self, dummies: &[Variable<'_, 'a>]) -> bool
        requires kept { IsKept (state self.now) }
        ensures { AreGrouped dummies.now → IsTrue result ↔ Every (IsDummySort (state self.now)) (map variable_lem dummies.now) }
    {
        let mut last = None;
        for dummy in dummies {
            if !self.is_dummy_sort(dummy, last) {
                return false;
            }
            last = dummy.group;
        }
        true
    }

    /// Whether the dummy's sort is neither strict nor free, where the last one's isn't, which is of this group.
    fn is_dummy_sort(&self, dummy: &Variable<'_, 'a>, last: Option<usize>) -> bool
        requires kept { IsKept (state self.now) }
        ensures { ((g : ℕ) → dummy.now.group ≡ Some g → last ≡ Some g → IsDummySort (state self.now) (variable_lem dummy.now)) → IsTrue result ↔ IsDummySort (state self.now) (variable_lem dummy.now) }
    {
        if dummy.is_of(last) {
            return true;
        }
        !self.is_strict_or_free(dummy.ty)
    }

    /// Whether the result's sort isn't pure.
    fn is_not_pure(&self, result_type: Option<&TypeText<'a>>) -> bool
        requires kept { IsKept (state self.now) }
        ensures { IsTrue result ↔ Every (IsNotPure (state self.now)) (all_of (option_map (λ t. type_text t.now) result_type.entry)) }
    {
        match result_type {
            Some(ty) => !self.is_pure(ty),
            None => true,
        }
    }

    /// Whether parameters, dummies and result depend on what they may.
    fn have_binders(&self, index: &Option<NameIndex<'a>>, parts: &Parts<'_, 'a>) -> bool
        requires kept { IsKept (state self.now) }
        requires index { MatchOption index.now ⊤ (IsIndexOf (map variable_lem parts.now.params.items)) }
        requires grouped { AreGrouped parts.now.params.items }
        ensures { (vs : List VariableLem) (types results : List TypeLem) → AreParts parts.now vs types results → IsTrue result ↔ HaveBinders (state self.now) vs results }
    {
        self.are_binders(index, &parts.params)
            && depend_on_nothing(&parts.dummies)
            && depends_on_bound(index, &parts.params, parts.result)
    }

    /// The binders, the dummies' sorts and the result's sort are right.
    pub(crate) fn check_binders(
        &self,
        index: &Option<NameIndex<'a>>,
        place: u32,
        parts: &Parts<'_, 'a>,
    ) -> Result<(), Halt>
        requires kept { IsKept (state self.now) }
        requires index { MatchOption index.now ⊤ (IsIndexOf (map variable_lem parts.now.params.items)) }
        requires grouped { AreGrouped parts.now.params.items }
        ensures { (vs : List VariableLem) (types results : List TypeLem) → AreParts parts.now vs types results → JudgesOrMem result (binder_rules (state self.now) place vs results) }
    {
        if !self.have_binders(index, parts) {
            return Err(Halt::Fault(Fault {
                at: place,
                rule: S::Binder,
            }));
        }
        if !self.are_dummy_sorts(&parts.dummies) {
            return Err(Halt::Fault(Fault {
                at: place,
                rule: S::DummySort,
            }));
        }
        if !self.is_not_pure(parts.result) {
            return Err(Halt::Fault(Fault {
                at: place,
                rule: S::Pure,
            }));
        }
        Ok(())
    }
}

/// Whether the variable is of this group, and bound if this is true.
fn is_alike(variable: &Variable<'_, '_>, last: Option<usize>, was_bound: bool) -> bool
    ensures { IsTrue result → ((g : ℕ) × (variable.now.group ≡ Some g) × (last ≡ Some g)) × (variable.now.is_bound ≡ was_bound) }
{
    variable.is_of(last) && variable.is_bound == was_bound
}

/// Whether the variable depends on bound ones before this place alone.
fn depends_on_those_before<'a>(
    index: &Option<NameIndex<'a>>,
    params: &[Variable<'_, 'a>],
    place: usize,
    variable: &Variable<'_, 'a>,
) -> bool
    requires index { MatchOption index.now ⊤ (IsIndexOf (map variable_lem params.now)) }
    requires place { place ≤ length params.now }
    ensures { IsTrue result ↔ Every (IsBoundAmong (map variable_lem (take place params.now))) (type_text variable.now.ty.now).deps }
{
    are_bound_before(index, params, place, &variable.ty.deps)
}

/// Whether none of the variables has dependencies.
fn depend_on_nothing(variables: &[Variable<'_, '_>]) -> bool
    ensures { IsTrue result ↔ Every DependsOnNothing (map variable_lem variables.now) }
{
    for variable in variables {
        if !variable.ty.deps.is_empty() {
            return false;
        }
    }
    true
}

/// Whether the result depends on bound parameters alone.
fn depends_on_bound<'a>(
    index: &Option<NameIndex<'a>>,
    params: &[Variable<'_, 'a>],
    result_type: Option<&TypeText<'a>>,
) -> bool
    requires { MatchOption index.now ⊤ (IsIndexOf (map variable_lem params.now)) }
    ensures { IsTrue result ↔ Every (IsResult (map variable_lem params.now)) (all_of (option_map (λ t. type_text t.now) result_type.entry)) }
{
    match result_type {
        Some(ty) => are_bound_before(index, params, params.len(), &ty.deps),
        None => true,
    }
}

/// The places of the parameters by their names, where one of them or the result has dependencies.
pub fn index_of<'a>(
    alloc: Global,
    hashing: Hashing,
    parts: &Parts<'_, 'a>,
) -> Result<Option<NameIndex<'a>>, AllocError>
    ensures { IfOk result (λ index. MatchOption index ⊤ (IsIndexOf (map variable_lem parts.now.params.items))) }
{
    places_of(alloc, hashing, &parts.params, have_deps(parts))
}

/// Whether a parameter or the result has dependencies.
fn have_deps(parts: &Parts<'_, '_>) -> bool {
    match parts.result {
        Some(ty) => !ty.deps.is_empty() || !depend_on_nothing(&parts.params),
        None => !depend_on_nothing(&parts.params),
    }
}
