// One statement more.
ghost use Rattle.std.specs.Prelude.{◌+◌, ◌<◌, ◌^◌, length, OnOk};
ghost use Rattle.mz_spec_theory.specs.StatementCode.{statement as statement_lem};
ghost use Rattle.mz_spec_rules.specs.Answers.{JudgesStatement};
ghost use Rattle.mz_spec_theory.specs.Declaring.{After};
ghost use Rattle.mz_spec_rules.specs.Entries.{state as state_lem};
ghost use Rattle.mz_spec_theory.specs.Kept.{IsKept, IsSpelled};

use mz_spec_declarations::{add_assertion, add_definition, add_sort, add_term};
use mz_spec_notations::{add_coercion, add_delimiter, add_notation, add_operator};
use mz_spec_rules::State;
use mz_spec_theory::{Halt, SyntaxStatement};
use std::alloc::Global;

/// Adds what the statement at a place declares.
///
/// # Errors
///
/// The first rule that it breaks, or where there is no memory.
pub fn add<'a>(
    state: &mut State<'a>,
    alloc: Global,
    place: u32,
    statement: SyntaxStatement<'a>,
) -> Result<(), Halt>
    requires kept { IsKept (state_lem state.old) }
    requires few { length state.old.spans.items + 1 < 2 ^ 32 }
    requires spelled { IsSpelled (statement_lem statement) }
    ensures judged { JudgesStatement result (state_lem state.old) place (statement_lem statement.entry) }
    ensures after { OnOk result (After (state_lem state.old) place (statement_lem statement.entry) (state_lem state.new)) }
{
    add_read(state, alloc, place, &statement)
}

/// The same with the statement borrowed, so that it is dropped in one place.
fn add_read<'a>(
    state: &mut State<'a>,
    alloc: Global,
    place: u32,
    statement: &SyntaxStatement<'a>,
) -> Result<(), Halt>
    requires kept { IsKept (state_lem state.old) }
    requires few { length state.old.spans.items + 1 < 2 ^ 32 }
    requires spelled { IsSpelled (statement_lem statement.now) }
    ensures judged { JudgesStatement result (state_lem state.old) place (statement_lem statement.now) }
    ensures after { OnOk result (After (state_lem state.old) place (statement_lem statement.now) (state_lem state.new)) }
{
    match statement {
        SyntaxStatement::Sort { modifiers, name } => add_sort(state, place, *modifiers, *name),
        SyntaxStatement::Term(term) => add_term(state, alloc, place, term),
        SyntaxStatement::Assert(assertion) => add_assertion(state, alloc, place, assertion),
        SyntaxStatement::Definition(definition) => add_definition(state, alloc, place, definition),
        SyntaxStatement::Operator(operator) => add_operator(state, place, *operator),
        SyntaxStatement::Coercion(coercion) => add_coercion(state, place, *coercion),
        SyntaxStatement::Delimiter(delimiter) => add_delimiter(state, place, *delimiter),
        SyntaxStatement::Notation(notation) => add_notation(state, alloc, place, notation),
    }
}
