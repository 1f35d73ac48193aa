// A whole binary.
ghost use Rattle.std.specs.Prelude.{◌≡◌, ◌≤◌, ◌<◌, ◌+◌, ◌*◌, ◌^◌, List, [], length};
ghost use Rattle.mz_layout_tables.specs.Layout.{Layout};
ghost use Rattle.mz_binary_theory.specs.FileRun.{file_steps};
ghost use Rattle.mz_binary.specs.Progress.{HasPassed, most_left, steps_left, under};
ghost use Rattle.mz_binary.specs.Judging.{IfJudged, IsChecked};

use crate::bodies::Bodies;
use crate::checker::{Checker, Next};
use mz_cmd::{Refusal, Steps};
use mz_layout_tables::{Mmb, Rows};
use mz_store::Seed;
use std::alloc::Global;
use std::sync::ledger::Ledger;

/// What is said of a whole binary.
#[derive(Clone, Copy, Debug, PartialEq, Eq)]
pub enum Checked {
    /// It is good, and has so many rows of each kind.
    Good(Rows),
    /// Its first fault.
    Refused(Refusal),
    /// Out of memory, which only a body that runs may find, and in a draft the flag of its row.
    Mem,
}

/// Checks header, tables and the whole list of statements. A draft's bodies may leave gaps; then the
/// theorems that rest on none are proved without.
pub fn check_all<B: Bodies, L: Ledger>(
    alloc: Global,
    seed: Seed,
    file: &[u8],
    steps: &mut Steps<L>,
) -> Checked
    requires { length file.now < 2 ^ 32 }
    ensures checked { IsChecked B.STANDARD file.now result }
    ensures steps { IfJudged result (steps.new ≡ steps.old + file_steps B.STANDARD file.now) }
    ensures bound { steps.new ≤ steps.old + (length file.now * length file.now + length file.now) }
{
    match Mmb::read(file) {
        Ok(mmb) => check_list(Checker::<B>::new(alloc, seed, &mmb), steps),
        Err(refusal) => Checked::Refused(refusal),
    }
}

/// Checks the list of statements from its first one on.
fn check_list<B: Bodies, L: Ledger>(first: Checker<B>, steps: &mut Steps<L>) -> Checked
    requires layout { Layout first.file }
    requires nothing { HasPassed (under B.STANDARD first) [] [] }
    ensures checked { IsChecked B.STANDARD first.entry.file result }
    ensures steps { IfJudged result (steps.new ≡ steps.old + steps_left (under B.STANDARD first.entry)) }
    ensures bound { steps.new ≤ steps.old + most_left (under B.STANDARD first.entry) }
{
    let mut checker = first;
    'statements: loop {
        match checker.check_next(steps) {
            Next::Statement(after, _) => checker = after,
            Next::End(rows) => return Checked::Good(rows),
            Next::Refused(refusal) => return Checked::Refused(refusal),
            Next::Mem => return Checked::Mem,
        }
    }
}
