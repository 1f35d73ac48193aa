// The variables of a statement.
ghost use Rattle.std.specs.Prelude.{◌≡◌, ◌↔◌, ◌<◌, ◌^◌, ◌++◌, ℕ, Some, length, IfOk, IsTrue, OnOk, bytes_eq, true, map, option_map};
ghost use Rattle.std.specs.List.{list_any};
ghost use Rattle.mz_spec_theory.specs.StatementCode.{group as group_lem, lexeme, name_text, type_text};
ghost use Rattle.mz_spec_variables.specs.Code.{dummies_read, params_read, typed, typed_alone, typed_group, typed_groups, typed_in, variable};
ghost use Rattle.mz_spec_theory.specs.Dependencies.{IsBoundAmong, IsCalled, dep_places as dep_places_lem};
ghost use Rattle.mz_spec_theory.specs.View.{dummies_of as dummies_lem, group_variables, is_among as is_among_lem, name_of as name_of_lem, params_of as params_lem, unnamed, variable_of as variable_of_lem, variables_of as variables_of_lem};

use mz_logic_theory::Deps;
use mz_spec_theory::{Group, Lexeme, NameText, Source, TypeText};
use std::alloc::{AllocError, Global};

/// A variable of a statement.
#[derive(Clone, Copy)]
pub struct Variable<'t, 'a> {
    /// Its name; none where it's written `_`, or not at all.
    pub name: Option<Lexeme<'a>>,
    /// Whether it's a dummy, and no parameter.
    pub is_dummy: bool,
    /// Whether it's bound, as each dummy is.
    pub is_bound: bool,
    /// The number of its group in the statement, whose variables have one type; none where it stands in none.
    pub group: Option<usize>,
    /// The type of its group, or of its argument.
    pub ty: &'t TypeText<'a>,
}

impl<'t, 'a> Variable<'t, 'a> {
    /// The variable of a name in the group of this number, of a type.
    fn new(
        is_bound: bool,
        group: usize,
        ty: &'t TypeText<'a>,
        name: NameText<'a>,
    ) -> Variable<'t, 'a>
        ensures means { variable result ≡ variable_of_lem is_bound (type_text ty.now) (name_text name.entry) }
        ensures group { typed result ≡ typed_in group (type_text ty.now) }
    {
        Variable {
            name: name_of(name.name),
            is_dummy: name.is_dummy,
            is_bound: is_bound || name.is_dummy,
            group: Some(group),
            ty,
        }
    }

    /// A regular parameter without a name.
    pub fn unnamed(ty: &'t TypeText<'a>) -> Variable<'t, 'a>
        ensures means { variable result ≡ unnamed (type_text ty.now) }
        ensures group { typed result ≡ typed_alone (type_text ty.now) }
    {
        Variable {
            name: None,
            is_dummy: false,
            is_bound: false,
            group: None,
            ty,
        }
    }

    /// Whether it stands in this group.
    pub fn is_of(&self, group: Option<usize>) -> bool
        ensures { IsTrue result ↔ ((g : ℕ) × (self.now.group ≡ Some g) × (group ≡ Some g)) }
    {
        match self.group {
            None => false,
            Some(own) => is_number(group, own),
        }
    }
}

fn is_number(group: Option<usize>, number: usize) -> bool
    ensures { IsTrue result ↔ (group ≡ Some number) }
{
    match group {
        None => false,
        Some(own) => own == number,
    }
}

/// Adds the variables of groups, in order, which are numbered from 0 on.
pub fn push_groups<'t, 'a>(
    variables: &mut Vec<Variable<'t, 'a>>,
    groups: &'t [Group<'a>],
) -> Result<(), AllocError>
    ensures variables { OnOk result (map variable variables.new.items ≡ map variable variables.old.items ++ variables_of_lem (map group_lem groups.now)) }
    ensures groups { OnOk result (map typed variables.new.items ≡ map typed variables.old.items ++ typed_groups 0 (map group_lem groups.now)) }
{
    for (i, group) in groups.iter().enumerate() {
        push_group(variables, i, group)?;
    }
    Ok(())
}

/// Adds the variables of the group of this number; a formula's names are none.
fn push_group<'t, 'a>(
    variables: &mut Vec<Variable<'t, 'a>>,
    number: usize,
    group: &'t Group<'a>,
) -> Result<(), AllocError>
    ensures variables { OnOk result (map variable variables.new.items ≡ map variable variables.old.items ++ group_variables (group_lem group.now)) }
    ensures groups { OnOk result (map typed variables.new.items ≡ map typed variables.old.items ++ typed_group number (group_lem group.now)) }
{
    match &group.source {
        Source::Type(ty) => push_names(variables, group.is_bound, number, ty, &group.names),
        Source::Formula(_) => Ok(()),
    }
}

fn push_names<'t, 'a>(
    variables: &mut Vec<Variable<'t, 'a>>,
    is_bound: bool,
    group: usize,
    ty: &'t TypeText<'a>,
    names: &[NameText<'a>],
) -> Result<(), AllocError>
    ensures variables { OnOk result (map variable variables.new.items ≡ map variable variables.old.items ++ map (variable_of_lem is_bound (type_text ty.now)) (map name_text names.now)) }
    ensures groups { OnOk result (map typed variables.new.items ≡ map typed variables.old.items ++ map (λ n. typed_in group (type_text ty.now)) (map name_text names.now)) }
{
    for name in names {
        variables.push(Variable::new(is_bound, group, ty, *name))?;
    }
    Ok(())
}

/// The name, where it isn't `_`.
fn name_of(found: Lexeme<'_>) -> Option<Lexeme<'_>>
    ensures { option_map lexeme result ≡ name_of_lem (lexeme found.entry) }
{
    if found.bytes == b"_".as_slice() {
        None
    } else {
        Some(found)
    }
}

/// The parameters among the variables, in order.
pub fn params_of<'t, 'a>(
    alloc: Global,
    variables: &[Variable<'t, 'a>],
) -> Result<Vec<Variable<'t, 'a>>, AllocError>
    ensures params { IfOk result (λ params. map variable params.items ≡ params_lem (map variable variables.now)) }
    ensures read { IfOk result (λ params. params.items ≡ params_read variables.now) }
{
    let mut params = Vec::new(alloc);
    for variable in variables {
        if !variable.is_dummy {
            params.push(*variable)?;
        }
    }
    Ok(params)
}

/// The dummies among the variables, in order.
pub fn dummies_of<'t, 'a>(
    alloc: Global,
    variables: &[Variable<'t, 'a>],
) -> Result<Vec<Variable<'t, 'a>>, AllocError>
    ensures dummies { IfOk result (λ dummies. map variable dummies.items ≡ dummies_lem (map variable variables.now)) }
    ensures read { IfOk result (λ dummies. dummies.items ≡ dummies_read variables.now) }
{
    let mut dummies = Vec::new(alloc);
    for variable in variables {
        if variable.is_dummy {
            dummies.push(*variable)?;
        }
    }
    Ok(dummies)
}

/// Whether one of the variables is bound and has the name.
pub fn is_bound(variables: &[Variable<'_, '_>], dep: Lexeme<'_>) -> bool
    ensures { IsTrue result ↔ IsBoundAmong (map variable variables.now) (lexeme dep.entry) }
{
    for variable in variables {
        if is_bound_as(variable, dep) {
            return true;
        }
    }
    false
}

fn is_bound_as(variable: &Variable<'_, '_>, dep: Lexeme<'_>) -> bool
    ensures { IsTrue result ↔ ((variable.now.is_bound ≡ true) × IsCalled (option_map lexeme variable.now.name) dep.entry.bytes.now) }
{
    match variable.name {
        Some(name) => variable.is_bound && name.bytes == dep.bytes,
        None => false,
    }
}

/// The places of the variables that are among the dependencies.
pub fn dep_places(
    alloc: Global,
    variables: &[Variable<'_, '_>],
    deps: &[Lexeme<'_>],
) -> Result<Deps, AllocError>
    requires { length variables.now < 2 ^ 32 }
    ensures { IfOk result (λ places. places ≡ dep_places_lem 0 (map variable variables.now) (map lexeme deps.now)) }
{
    if deps.is_empty() {
        return Ok(Deps::new());
    }
    let mut places = Vec::new(alloc);
    for (i, variable) in variables.iter().enumerate() {
        if is_among(deps, variable.name) {
            places.push(i as u32)?;
        }
    }
    Deps::from_vec(places)
}

/// Whether the name is one of these dependencies.
fn is_among(deps: &[Lexeme<'_>], name: Option<Lexeme<'_>>) -> bool
    ensures { result ≡ is_among_lem (map lexeme deps.now) (option_map lexeme name.entry) }
{
    match name {
        Some(name) => has_name(deps, name.bytes),
        None => false,
    }
}

fn has_name(deps: &[Lexeme<'_>], name: &[u8]) -> bool
    ensures { result ≡ list_any (λ d. bytes_eq d.text name.now) (map lexeme deps.now) }
{
    for dep in deps {
        if dep.bytes == name {
            return true;
        }
    }
    false
}
