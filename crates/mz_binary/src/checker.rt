// The list of statements, one after another.
ghost use Rattle.std.specs.Prelude.{◌≡◌, ◌≤◌, ◌+◌, ◌-◌, ◌*◌, ◌↔◌, ℕ, List, [], length, Ok, Err, true, OnOk, OnErr};
ghost use Rattle.mz_logic_theory.specs.Declaration.{Declaration};
ghost use Rattle.mz_logic_theory.specs.LegalLists.{Statement as Declared};
ghost use Rattle.mz_machine_env.specs.Before.{taken_before};
ghost use Rattle.mz_machine_env.specs.OwnRow.{kind_of as kind_lem};
ghost use Rattle.mz_machine_theory.specs.Headings.{kind_at};
ghost use Rattle.mz_machine_theory.specs.Sound.{HasGap};
ghost use Rattle.mz_layout_tables.specs.Heads.{IsHead, body_bytes};
ghost use Rattle.mz_binary_theory.specs.FileRun.{after_kind, file_steps, find_at, onward, run_place, RunsBody};
ghost use Rattle.mz_binary.specs.Progress.{HasPassed, RestsOnGap, found_of, is_assertion_kind, is_theorem_kind, kind_byte, marks_past, next_steps, steps_left, most_left, under};
ghost use Rattle.mz_binary.specs.Remembering.{AreRight};
ghost use Rattle.mz_binary.specs.Judging.{IfTold, IsLeft, IsMost, IsNext};
ghost use Rattle.mz_binary_theory.specs.Standards.{lets_gaps};

use crate::bodies::Bodies;
use crate::gaps::cites_marked;
use crate::statement::{Found, found_at, is_local};
use crate::words::RightWords;
use mz_binary_theory::Statement;
use mz_cmd::{Mem, Refusal, StatementCode, Steps};
use mz_layout_tables::{Fault, Head, Mmb, Rows};
use mz_machine::BodyChecked;
use mz_machine_env::BodyKind;
use mz_store::Seed;
use std::alloc::Global;
use std::marker::Model;
use std::sync::ledger::Ledger;

/// A checker of the list of statements of one binary. Its meaning is how far it has come; the
/// statements before are good, a draft's with gaps.
#[derive(Drop)]
pub struct Checker<'a, B: Bodies> {
    alloc: Global,
    mmb: &'a Mmb<'a>,
    rows: Rows,
    passed: u32,
    at: u32,
    gapped: Vec<bool>,
    right: Option<RightWords>,
    bodies: B,
}

impl<'a, B: Bodies> Model for Checker<'a, B> {
    ghost use Rattle.mz_binary.specs.Progress.{Place, IsReached};
    ghost use Rattle.mz_binary.specs.Remembering.{AreRight};

    ghost Value = { Place };

    ghost view = { λ c. record { file = c.mmb.now; at = c.at; passed = c.passed; rows = c.rows; marks = c.gapped.items } };

    ghost invariant = { λ c. IsReached (record { standard = B.STANDARD; file = c.mmb.now; at = c.at; passed = c.passed; rows = c.rows; marks = c.gapped.items }) × AreRight c.mmb.now c.right × B.suits c.bodies c.mmb.now };
}

/// What comes next in the list of statements.
#[derive(Drop)]
pub enum Next<'a, B: Bodies> {
    /// A good statement, and the checker after it.
    Statement(Checker<'a, B>, Statement),
    /// The end of the list, with all rows of the tables taken.
    End(Rows),
    /// The first rule that fails.
    Refused(Refusal),
    /// Out of memory, which only a body that runs may find, and in a draft the flag of its row.
    Mem,
}

impl<'a, B: Bodies> Checker<'a, B> {
    /// At the first statement. In a draft bodies may leave gaps, and the theorems that rest on one are
    /// flagged. The bodies' terms are numbered with the seed.
    pub fn new(alloc: Global, seed: Seed, mmb: &'a Mmb<'a>) -> Checker<'a, B>
        ensures file { result.file ≡ mmb.now }
        ensures nothing { HasPassed (under B.STANDARD result) [] [] }
        ensures steps { steps_left (under B.STANDARD result) ≡ file_steps B.STANDARD mmb.now }
    {
        let at = mmb.proof_at();
        let rows = Rows {
            sorts: 0,
            terms: 0,
            thms: 0,
        };
        Checker {
            alloc,
            mmb,
            rows,
            passed: 0,
            at,
            gapped: Vec::new(alloc),
            right: None,
            bodies: B::new(seed),
        }
    }

    /// Checks the next statement, or that the list ends right.
    pub fn check_next<L: Ledger>(self, steps: &mut Steps<L>) -> Next<'a, B>
        ensures next { (ss : List Declared) (env : List Declaration) → HasPassed (under B.STANDARD self.entry) ss env → IsNext (under B.STANDARD self.entry) ss env result }
        ensures steps { IfTold result (steps.new ≡ steps.old + next_steps (under B.STANDARD self.entry)) }
        ensures most { IsMost (under B.STANDARD self.entry) steps.old steps.new result }
        ensures left { IsLeft (under B.STANDARD self.entry) result }
    {
        let mut right = self.right;
        match found_at(self.mmb, self.rows, self.at, &mut right) {
            Ok(Found::End) => Next::End(self.rows),
            Ok(Found::Alone(head)) => self.past(head, false, right),
            Ok(Found::WithBody(head)) => self.past_body(head, right, steps),
            Err(fault) => self.refused(fault),
        }
    }

    /// Runs the statement's body, and goes past it.
    fn past_body<L: Ledger>(
        self,
        head: Head,
        right: Option<RightWords>,
        steps: &mut Steps<L>,
    ) -> Next<'a, B>
        requires right { AreRight self.file right }
        requires head { IsHead self.file head }
        requires at { head.at ≡ self.at }
        requires body { find_at self.file (taken_before self.file self.rows) self.at ≡ Ok (found_of self.file self.rows (Found.WithBody head)) }
        ensures next { (ss : List Declared) (env : List Declaration) → HasPassed (under B.STANDARD self.entry) ss env → IsNext (under B.STANDARD self.entry) ss env result }
        ensures steps { IfTold result (steps.new ≡ steps.old + next_steps (under B.STANDARD self.entry)) }
        ensures most { IsMost (under B.STANDARD self.entry) steps.old steps.new result }
        ensures left { IsLeft (under B.STANDARD self.entry) result }
    {
        let (alloc, mmb, rows) = (self.alloc, self.mmb, self.rows);
        let kind = body_kind(head.code);
        let row = rows.next(head.code);
        let body = (head.body, head.next);
        // Borrowed as a local: were it borrowed as a field, all of the checker would be put into memory for the call.
        let mut bodies = self.bodies;
        let checked = bodies.check_body(alloc, mmb, kind, row, rows, body, steps);
        let after = Checker { bodies, ..self };
        match checked {
            BodyChecked::Good(end) => {
                let gap = after.rests_on_gap(head, end.sorry);
                after.past(head, gap, right)
            }
            BodyChecked::Refused { at, rule } => after.refused((at, rule)),
            BodyChecked::Mem => Next::Mem,
        }
    }

    /// Whether the next statement is a theorem of a draft whose body leaves a gap or cites a theorem
    /// that rests on one.
    fn rests_on_gap(&self, head: Head, sorry: bool) -> bool
        requires head { IsHead self.now.file head }
        requires sorry { lets_gaps B.STANDARD ≡ true → (sorry ≡ true) ↔ HasGap (body_bytes self.now.file head.body head.next) }
        ensures { (result ≡ true) ↔ RestsOnGap (under B.STANDARD self.now) head }
    {
        let marks = self.gapped.as_slice();
        if !B::allows_gaps() || !is_theorem(head.code) {
            return false;
        }
        let bytes = &self.mmb.file()[head.body as usize..head.next as usize];
        sorry || cites_marked(bytes, marks)
    }

    /// Past a statement, whose body runs if it has one: whether it rests on a gap is reported, and kept as a flag.
    fn past(self, head: Head, gap: bool, right: Option<RightWords>) -> Next<'a, B>
        requires right { AreRight self.file right }
        requires head { IsHead self.file head }
        requires at { head.at ≡ self.at }
        requires runs { run_place B.STANDARD self.file (taken_before self.file self.rows) self.at ≡ Ok (onward (after_kind self.file (taken_before self.file self.rows) head.code) head.next) }
        requires gap { (gap ≡ true) ↔ RestsOnGap (under B.STANDARD self) head }
        requires body { is_assertion_kind head.code ≡ true → RunsBody self.file (taken_before self.file self.rows) self.at }
        ensures next { (ss : List Declared) (env : List Declaration) → HasPassed (under B.STANDARD self.entry) ss env → IsNext (under B.STANDARD self.entry) ss env result }
        ensures left { IsLeft (under B.STANDARD self.entry) result }
        ensures most { (old new : ℕ) → new ≤ old + (head.next - head.body) * (length self.entry.file + 1) → IsMost (under B.STANDARD self.entry) old new result }
    {
        let told = Statement {
            number: self.passed + 1,
            at: self.at,
            kind: kind_of(head.code),
            row: self.rows.next(head.code),
            local: is_local(head.code),
            gap,
        };
        let Checker {
            alloc,
            mmb,
            rows,
            mut gapped,
            bodies,
            ..
        } = self;
        let Ok(()) = mark(B::allows_gaps(), head.code, gap, &mut gapped) else {
            return Next::Mem;
        };
        let after = Checker {
            alloc,
            mmb,
            rows: rows.after(head.code),
            passed: told.number,
            at: head.next,
            gapped,
            right,
            bodies,
        };
        Next::Statement(after, told)
    }

    /// The rule that fails at the next statement.
    fn refused(self, fault: Fault) -> Next<'a, B>
        requires { run_place B.STANDARD self.file (taken_before self.file self.rows) self.at ≡ Err fault }
        ensures next { (ss : List Declared) (env : List Declaration) → HasPassed (under B.STANDARD self.entry) ss env → IsNext (under B.STANDARD self.entry) ss env result }
        ensures left { IsLeft (under B.STANDARD self.entry) result }
        ensures most { (old new : ℕ) → new ≤ old + most_left (under B.STANDARD self.entry) → IsMost (under B.STANDARD self.entry) old new result }
    {
        let (at, rule) = fault;
        Next::Refused(Refusal {
            statement: self.passed + 1,
            at,
            rule,
        })
    }
}

/// Where gaps are let through an axiom or theorem gets its flag.
fn mark(gaps: bool, code: StatementCode, gap: bool, marks: &mut Vec<bool>) -> Result<(), Mem>
    ensures ok { OnOk result (marks.new.items ≡ marks_past gaps code gap marks.old.items) }
    ensures err { OnErr result (is_assertion_kind code ≡ true) }
{
    if gaps && is_assertion(code) {
        marks.push(gap)?;
    }
    Ok(())
}

// ---- the kinds of statements

fn is_theorem(code: StatementCode) -> bool
    ensures { result ≡ is_theorem_kind code }
{
    match code {
        StatementCode::Theorem | StatementCode::LocalTheorem => true,
        StatementCode::Sort
        | StatementCode::Term
        | StatementCode::LocalDefinition
        | StatementCode::Axiom => false,
    }
}

/// Whether it is an axiom or a theorem.
fn is_assertion(code: StatementCode) -> bool
    ensures { result ≡ is_assertion_kind code }
{
    match code {
        StatementCode::Axiom | StatementCode::Theorem | StatementCode::LocalTheorem => true,
        StatementCode::Sort | StatementCode::Term | StatementCode::LocalDefinition => false,
    }
}

/// The kind of the body. A sort has none: it counts with the theorems, and none is run for it.
fn body_kind(code: StatementCode) -> BodyKind
    ensures { kind_lem result ≡ kind_at (kind_byte code) }
{
    match code {
        StatementCode::Axiom => BodyKind::Axiom,
        StatementCode::Term | StatementCode::LocalDefinition => BodyKind::Definition,
        StatementCode::Sort | StatementCode::Theorem | StatementCode::LocalTheorem =>
            BodyKind::Theorem,
    }
}

/// What is reported of the kind: its code without the visibility.
fn kind_of(code: StatementCode) -> u8
    ensures { result ≡ kind_byte code }
{
    match code {
        StatementCode::Axiom => 0x02,
        StatementCode::Sort => 0x04,
        StatementCode::Term | StatementCode::LocalDefinition => 0x05,
        StatementCode::Theorem | StatementCode::LocalTheorem => 0x06,
    }
}
