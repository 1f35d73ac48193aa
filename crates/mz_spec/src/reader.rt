// Reading a specification.
ghost use Rattle.std.specs.Prelude.{◌≡◌, ◌<◌, ◌^◌, length, IfErr, OnOk};
ghost use Rattle.mz_spec.specs.Answers.{IsAnswer, halted as halted_lem};
ghost use Rattle.mz_spec_rules.specs.Entries.{state as state_lem};
ghost use Rattle.mz_spec_theory.specs.Kept.{IsKept};
ghost use Rattle.mz_spec_theory.specs.Spec.{SpecMakes};
ghost use Rattle.mz_spec_theory.specs.State.{entries_of, nothing};

use crate::statements::add;
use mz_base::Hashing;
use mz_spec_grammar::read_statement;
use mz_spec_rules::State;
use mz_spec_theory::{Halt, Spec, SpecRefusal};
use std::alloc::Global;

/// What reading a specification comes to.
#[derive(Drop)]
pub enum SpecRead {
    /// Its declarations.
    Spec(Spec),
    /// The first rule that it breaks.
    Refused(SpecRefusal),
    /// Out of memory.
    Mem,
}

/// Reads a specification, whose names are hashed by `hashing`.
pub fn read_spec(alloc: Global, hashing: Hashing, text: &[u8]) -> SpecRead
    requires { length text.now < 2 ^ 32 }
    ensures { IsAnswer text.now result }
{
    let mut state = State::new(alloc, hashing);
    let read = read_into(alloc, text, &mut state);
    let (env, spans) = state.into_parts();
    match read {
        Ok(()) => SpecRead::Spec(Spec::new(env, spans)),
        Err((statement, halt)) => halted(statement, halt),
    }
}

/// Adds all that a text declares to a state in which nothing is declared.
///
/// # Errors
///
/// At the first fault, or where there is no memory: the number of the statement, counted from 1, and why.
fn read_into<'a>(alloc: Global, text: &'a [u8], state: &mut State<'a>) -> Result<(), (u32, Halt)>
    requires small { length text.now < 2 ^ 32 }
    requires empty { state_lem state.old ≡ nothing }
    ensures made { OnOk result (SpecMakes text.now (entries_of state.new.env state.new.spans.items)) }
    ensures kept { OnOk result (IsKept (state_lem state.new)) }
    ensures few { OnOk result (length state.new.spans.items < 2 ^ 32) }
    ensures stops { IfErr result (λ at. IsAnswer text.now (halted_lem at.0 at.1)) }
{
    let mut at = 0;
    let mut statement = 1;
    'statements: loop {
        let read = match read_statement(alloc, text, at) {
            Ok(None) => return Ok(()),
            Ok(Some(read)) => read,
            Err(halt) => return Err((statement, halt)),
        };
        if let Err(halt) = add(state, alloc, read.place, read.statement) {
            return Err((statement, halt));
        }
        at = read.end;
        statement += 1;
    }
}

fn halted(statement: u32, halt: Halt) -> SpecRead
    ensures { result ≡ halted_lem statement halt }
{
    match halt {
        Halt::Fault(fault) => SpecRead::Refused(SpecRefusal {
            statement,
            at: fault.at,
            rule: fault.rule,
        }),
        Halt::Mem => SpecRead::Mem,
    }
}
