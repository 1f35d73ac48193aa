// The precedences of constants.
ghost use Rattle.std.specs.Prelude.{◌≡◌, ◌≤◌, ◌<◌, IfOk, IsTrue, MatchOption, option_map};
ghost use Rattle.std.specs.List.{list_all};
ghost use Rattle.std.specs.Str.Parse.{digits_value};
ghost use Rattle.mz_base.specs.Checks.{Judges, each_in_order};
ghost use Rattle.mz_spec_theory.specs.StatementCode.{level as level_lem, tail as tail_lem};
ghost use Rattle.mz_base.specs.Identifiers.{is_digit};
ghost use Rattle.mz_spec_theory.specs.Forms.{highest_level, level_of as level_of_lem, tail_of as tail_of_lem};
ghost use Rattle.mz_spec_rules.specs.Noting.{IsNumeral};
ghost use Rattle.mz_spec_theory.specs.Dependencies.{Every};
ghost use Rattle.mz_spec_theory.specs.Rules.{is_level};
ghost use Rattle.mz_spec_theory.specs.View.{tail_levels};

use mz_lex::S;
use mz_math_theory::Tail;
use mz_spec_theory::{Fault, Level, TailText};

/// The highest precedence that is a number.
const HIGHEST_LEVEL: u64 = 4_294_967_294;

/// The precedence for which digits stand, none where they stand for a higher number.
fn digits_level(digits: &[u8]) -> Option<u32>
    requires { IsTrue (list_all is_digit digits.now) }
    ensures { MatchOption result (highest_level < digits_value 10 digits.now) (λ n. (n ≡ digits_value 10 digits.now) × (n ≤ highest_level)) }
{
    let mut value = 0;
    for digit in digits {
        value = value * 10 + u64::from(*digit - b'0');
        if value > HIGHEST_LEVEL {
            return None;
        }
    }
    Some(value as u32)
}

/// The precedence of a constant, none for max.
///
/// # Errors
///
/// Where it is past the highest one, at the number.
pub fn level_of(level: Level<'_>) -> Result<Option<u32>, Fault>
    requires { IsNumeral (level_lem level) }
    ensures judged { Judges result (is_level (level_lem level.entry)) }
    ensures level { IfOk result (λ n. n ≡ level_of_lem (level_lem level.entry)) }
{
    match level {
        Level::Max => Ok(None),
        Level::Number(number) => match digits_level(number.bytes) {
            Some(value) => Ok(Some(value)),
            None => Err(Fault {
                at: number.from,
                rule: S::Number,
            }),
        },
    }
}

/// The tail of a general notation, where it has one.
///
/// # Errors
///
/// Where its precedence is past the highest one, at the number.
pub fn tail_of(tail: Option<TailText<'_>>) -> Result<Option<Tail>, Fault>
    requires { Every IsNumeral (tail_levels (option_map tail_lem tail)) }
    ensures judged { Judges result (each_in_order is_level (tail_levels (option_map tail_lem tail.entry))) }
    ensures tail { IfOk result (λ t. t ≡ tail_of_lem (option_map tail_lem tail.entry)) }
{
    match tail {
        None => Ok(None),
        Some(tail) => Ok(Some(Tail {
            level: level_of(tail.level)?,
            right: tail.is_right,
        })),
    }
}
