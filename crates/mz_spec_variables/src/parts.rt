// What the rules see of a statement: its variables, its types and its result.
ghost use Rattle.std.specs.Prelude.{◌++◌, ◌∷◌, ◌≡◌, [], IfOk, OnOk, map, option_map};
ghost use Rattle.mz_spec_theory.specs.StatementCode.{assertion as assertion_lem, definition as definition_lem, group as group_lem, notation as notation_lem, source as source_lem, term as term_lem, type_text};
ghost use Rattle.mz_spec_variables.specs.Code.{AreGrouped, AreParts, all_of, typed, typed_alone, typed_groups, variable};
ghost use Rattle.mz_spec_theory.specs.View.{group_types as group_types_lem, source_types, types_of as types_of_lem, unnamed, variables_of as variables_of_lem, view};

use crate::variables::{Variable, dummies_of, params_of, push_groups};
use mz_spec_theory::{AssertText, DefinitionText, Group, NotationText, Source, TermText, TypeText};
use std::alloc::{AllocError, Global};

/// A type where it stands in the statement.
#[derive(Clone, Copy)]
pub struct TypeAt<'t, 'a> {
    /// The type.
    pub ty: &'t TypeText<'a>,
}

/// What the rules see of a statement, in the order in which it's written.
#[derive(Drop)]
pub struct Parts<'t, 'a> {
    /// All variables.
    pub variables: Vec<Variable<'t, 'a>>,
    /// The parameters among them.
    pub params: Vec<Variable<'t, 'a>>,
    /// The dummies among them.
    pub dummies: Vec<Variable<'t, 'a>>,
    /// All types.
    pub types: Vec<TypeAt<'t, 'a>>,
    /// The type of the result, where there is one.
    pub result: Option<&'t TypeText<'a>>,
}

impl<'t, 'a> Parts<'t, 'a> {
    /// These variables, types and result.
    fn new(
        alloc: Global,
        variables: Vec<Variable<'t, 'a>>,
        types: Vec<TypeAt<'t, 'a>>,
        result_type: Option<&'t TypeText<'a>>,
    ) -> Result<Parts<'t, 'a>, AllocError>
        requires { AreGrouped variables.items }
        ensures { IfOk result (λ parts. AreParts parts (map variable variables.entry.items) (map (λ t. type_text t.ty.now) types.entry.items) (all_of (option_map (λ t. type_text t.now) result_type.entry))) }
    {
        let params = params_of(alloc, &variables)?;
        let dummies = dummies_of(alloc, &variables)?;
        Ok(Parts {
            variables,
            params,
            dummies,
            types,
            result: result_type,
        })
    }

    /// Those of a term.
    ///
    /// # Errors
    ///
    /// Where there is no memory.
    pub fn of_term(alloc: Global, term: &'t TermText<'a>) -> Result<Parts<'t, 'a>, AllocError>
        ensures { IfOk result (λ parts. AreParts parts (view (term_lem term.now)).variables (view (term_lem term.now)).types (view (term_lem term.now)).result) }
    {
        let mut variables = Vec::new(alloc);
        let mut types = Vec::new(alloc);
        push_term(&mut variables, &mut types, term)?;
        Parts::new(alloc, variables, types, Some(&term.result))
    }

    /// Those of an axiom or a theorem.
    ///
    /// # Errors
    ///
    /// Where there is no memory.
    pub fn of_assertion(
        alloc: Global,
        assertion: &'t AssertText<'a>,
    ) -> Result<Parts<'t, 'a>, AllocError>
        ensures { IfOk result (λ parts. AreParts parts (view (assertion_lem assertion.now)).variables (view (assertion_lem assertion.now)).types (view (assertion_lem assertion.now)).result) }
    {
        let mut variables = Vec::new(alloc);
        let mut types = Vec::new(alloc);
        push_assertion(&mut variables, &mut types, assertion)?;
        Parts::new(alloc, variables, types, None)
    }

    /// Those of groups and a result.
    fn of_groups(
        alloc: Global,
        groups: &'t [Group<'a>],
        result_type: &'t TypeText<'a>,
    ) -> Result<Parts<'t, 'a>, AllocError>
        ensures { IfOk result (λ parts. AreParts parts (variables_of_lem (map group_lem groups.now))
            (group_types_lem (map group_lem groups.now) ++ type_text result_type.now ∷ []) (type_text result_type.now ∷ [])) }
    {
        let mut variables = Vec::new(alloc);
        push_groups(&mut variables, groups)?;
        let mut types = Vec::new(alloc);
        push_group_types(&mut types, groups)?;
        types.push(TypeAt { ty: result_type })?;
        Parts::new(alloc, variables, types, Some(result_type))
    }

    /// Those of a definition.
    ///
    /// # Errors
    ///
    /// Where there is no memory.
    pub fn of_definition(
        alloc: Global,
        definition: &'t DefinitionText<'a>,
    ) -> Result<Parts<'t, 'a>, AllocError>
        ensures { IfOk result (λ parts. AreParts parts (view (definition_lem definition.now)).variables (view (definition_lem definition.now)).types (view (definition_lem definition.now)).result) }
    {
        Parts::of_groups(alloc, &definition.head.groups, &definition.result)
    }

    /// Those of a general notation.
    ///
    /// # Errors
    ///
    /// Where there is no memory.
    pub fn of_notation(
        alloc: Global,
        notation: &'t NotationText<'a>,
    ) -> Result<Parts<'t, 'a>, AllocError>
        ensures { IfOk result (λ parts. AreParts parts (view (notation_lem notation.now)).variables (view (notation_lem notation.now)).types (view (notation_lem notation.now)).result) }
    {
        Parts::of_groups(alloc, &notation.head.groups, &notation.result)
    }
}

/// Adds the variables and the types of a term.
fn push_term<'t, 'a>(
    variables: &mut Vec<Variable<'t, 'a>>,
    types: &mut Vec<TypeAt<'t, 'a>>,
    term: &'t TermText<'a>,
) -> Result<(), AllocError>
    requires no_variables { variables.old.items ≡ [] }
    requires no_types { types.old.items ≡ [] }
    ensures variables { OnOk result (map variable variables.new.items ≡ variables_of_lem (map group_lem term.now.head.groups.items) ++ map unnamed (map type_text term.now.arguments.items)) }
    ensures groups { OnOk result (map typed variables.new.items ≡ typed_groups 0 (map group_lem term.now.head.groups.items) ++ map typed_alone (map type_text term.now.arguments.items)) }
    ensures types { OnOk result (map (λ t. type_text t.ty.now) types.new.items
        ≡ group_types_lem (map group_lem term.now.head.groups.items) ++ (map type_text term.now.arguments.items ++ type_text term.now.result ∷ [])) }
{
    push_groups(variables, &term.head.groups)?;
    push_arguments(variables, &term.arguments)?;
    push_group_types(types, &term.head.groups)?;
    push_types(types, &term.arguments)?;
    types.push(TypeAt { ty: &term.result })?;
    Ok(())
}

/// Adds the variables and the types of an axiom or a theorem.
fn push_assertion<'t, 'a>(
    variables: &mut Vec<Variable<'t, 'a>>,
    types: &mut Vec<TypeAt<'t, 'a>>,
    assertion: &'t AssertText<'a>,
) -> Result<(), AllocError>
    requires no_variables { variables.old.items ≡ [] }
    requires no_types { types.old.items ≡ [] }
    ensures variables { OnOk result (map variable variables.new.items
        ≡ variables_of_lem (map group_lem assertion.now.head.groups.items) ++ map unnamed (types_of_lem (map source_lem assertion.now.premises.items))) }
    ensures groups { OnOk result (map typed variables.new.items
        ≡ typed_groups 0 (map group_lem assertion.now.head.groups.items) ++ map typed_alone (types_of_lem (map source_lem assertion.now.premises.items))) }
    ensures types { OnOk result (map (λ t. type_text t.ty.now) types.new.items
        ≡ group_types_lem (map group_lem assertion.now.head.groups.items) ++ types_of_lem (map source_lem assertion.now.premises.items)) }
{
    push_groups(variables, &assertion.head.groups)?;
    push_premises(variables, &assertion.premises)?;
    push_group_types(types, &assertion.head.groups)?;
    push_premise_types(types, &assertion.premises)?;
    Ok(())
}

// ---- variables

/// Adds an unnamed parameter for each type before a `>`.
fn push_arguments<'t, 'a>(
    variables: &mut Vec<Variable<'t, 'a>>,
    arguments: &'t [TypeText<'a>],
) -> Result<(), AllocError>
    ensures variables { OnOk result (map variable variables.new.items ≡ map variable variables.old.items ++ map unnamed (map type_text arguments.now)) }
    ensures groups { OnOk result (map typed variables.new.items ≡ map typed variables.old.items ++ map typed_alone (map type_text arguments.now)) }
{
    for ty in arguments {
        variables.push(Variable::unnamed(ty))?;
    }
    Ok(())
}

/// Adds an unnamed parameter for each type among what stands before a `>`.
fn push_premises<'t, 'a>(
    variables: &mut Vec<Variable<'t, 'a>>,
    premises: &'t [Source<'a>],
) -> Result<(), AllocError>
    ensures variables { OnOk result (map variable variables.new.items ≡ map variable variables.old.items ++ map unnamed (types_of_lem (map source_lem premises.now))) }
    ensures groups { OnOk result (map typed variables.new.items ≡ map typed variables.old.items ++ map typed_alone (types_of_lem (map source_lem premises.now))) }
{
    for premise in premises {
        if let Source::Type(ty) = premise {
            variables.push(Variable::unnamed(ty))?;
        }
    }
    Ok(())
}

// ---- types

fn push_types<'t, 'a>(
    types: &mut Vec<TypeAt<'t, 'a>>,
    more: &'t [TypeText<'a>],
) -> Result<(), AllocError>
    ensures { OnOk result (map (λ t. type_text t.ty.now) types.new.items ≡ map (λ t. type_text t.ty.now) types.old.items ++ map type_text more.now) }
{
    for ty in more {
        types.push(TypeAt { ty })?;
    }
    Ok(())
}

/// Adds the type of a source, where it is one.
fn push_source_type<'t, 'a>(
    types: &mut Vec<TypeAt<'t, 'a>>,
    source: &'t Source<'a>,
) -> Result<(), AllocError>
    ensures { OnOk result (map (λ t. type_text t.ty.now) types.new.items ≡ map (λ t. type_text t.ty.now) types.old.items ++ source_types (source_lem source.now)) }
{
    if let Source::Type(ty) = source {
        types.push(TypeAt { ty })?;
    }
    Ok(())
}

fn push_group_types<'t, 'a>(
    types: &mut Vec<TypeAt<'t, 'a>>,
    groups: &'t [Group<'a>],
) -> Result<(), AllocError>
    ensures { OnOk result (map (λ t. type_text t.ty.now) types.new.items ≡ map (λ t. type_text t.ty.now) types.old.items ++ group_types_lem (map group_lem groups.now)) }
{
    for group in groups {
        push_source_type(types, &group.source)?;
    }
    Ok(())
}

fn push_premise_types<'t, 'a>(
    types: &mut Vec<TypeAt<'t, 'a>>,
    premises: &'t [Source<'a>],
) -> Result<(), AllocError>
    ensures { OnOk result (map (λ t. type_text t.ty.now) types.new.items ≡ map (λ t. type_text t.ty.now) types.old.items ++ types_of_lem (map source_lem premises.now)) }
{
    for premise in premises {
        push_source_type(types, premise)?;
    }
    Ok(())
}
