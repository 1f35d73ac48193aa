// How far the match has come.
ghost use Rattle.std.specs.Prelude.{◌≡◌, ◌≤◌, ◌<◌, ◌+◌, ◌++◌, ◌∷◌, ◌^◌, ℕ, List, [], length, IfErr, OnOk};
ghost use Rattle.mz_logic_theory.specs.Declaration.{Declaration};
ghost use Rattle.mz_logic_theory.specs.LegalLists.{Statement as Declared};
ghost use Rattle.mz_layout_tables.specs.Layout.{Layout};
ghost use Rattle.mz_binary.specs.Judging.{Passes};
ghost use Rattle.mz_binary.specs.Progress.{HasPassed, Progress};
ghost use Rattle.mz_spec_theory.specs.Spec.{SpecMakes};
ghost use Rattle.mz_spec_theory.specs.State.{Entry, env_of};
ghost use Rattle.mz_match.specs.Reported.{IsMatched, IsNextReported};
ghost use Rattle.mz_match_theory.specs.Verdict.{IsDifferenceAt, IsVerdictBy, counts_of};

use crate::statement::{has_kind, match_statement};
use mz_binary_theory::Statement;
use mz_cmd::StatementCode;
use mz_layout_tables::Mmb;
use mz_match_rows::{Publics, count_all};
use mz_match_theory::Verdict;
use mz_spec_proved_theory::M;
use mz_spec_theory::Spec;
use std::alloc::Global;

/// How many declarations have their partner, how many statements have passed, and the public terms
/// among them.
#[derive(Drop)]
pub struct Matching {
    pub done: u32,
    pub passed: u32,
    pub publics: Publics,
}

impl Matching {
    /// Before the first statement.
    pub fn new(alloc: Global) -> Matching
        ensures nothing { (p : Progress) (ds : List Declaration) → Layout p.file → HasPassed p [] [] → IsMatched p ds result [] [] }
    {
        Matching {
            done: 0,
            passed: 0,
            publics: Publics::new(alloc),
        }
    }

    /// Past the next statement.
    ///
    /// # Errors
    ///
    /// The verdict where a public statement differs from its declaration, or out
    /// of memory.
    #[inline(always)]
    pub fn pass(
        &mut self,
        alloc: Global,
        spec: &Spec,
        mmb: &Mmb,
        told: &Statement,
    ) -> Result<(), Verdict>
        requires told { IsNextReported mmb.now (env_of spec.now) self.old told.now }
        ensures passed { (p after : Progress) (ss : List Declared) (env : List Declaration) → p.file ≡ mmb.now → IsMatched p (env_of spec.now) self.old ss env
            → (passes : Passes p ss env after told.now) → OnOk result (IsMatched after (env_of spec.now) self.new (ss ++ passes.statement ∷ []) (env ++ passes.statement.decl ∷ [])) }
        ensures kind { IfErr result (IsDifferenceAt told.now.number) }
        ensures stops { (p after : Progress) (ss : List Declared) (env : List Declaration) → p.file ≡ mmb.now → IsMatched p (env_of spec.now) self.old ss env
            → Passes p ss env after told.now → (text : List ℕ) → SpecMakes text spec.now → IfErr result (λ verdict. IsVerdictBy p.standard text mmb.now verdict) }
    {
        if !told.local {
            if let Err(rule) = match_statement(alloc, spec, self.done, mmb, told, &self.publics) {
                return Err(Verdict::Match {
                    declaration: self.done + 1,
                    statement: told.number,
                    rule,
                });
            }
            self.done += 1;
            if has_kind(told, StatementCode::Term) {
                let Ok(()) = self.publics.push(told.row) else {
                    return Err(Verdict::Mem);
                };
            }
        }
        self.passed = told.number;
        Ok(())
    }

    /// At the end of a good list.
    pub fn end(&self, spec: &Spec) -> Verdict
        requires done { self.now.done ≤ length spec.now }
        requires passed { self.now.passed + 1 < 2 ^ 32 }
        ensures missing { self.now.done < length spec.now → result ≡ Verdict.Match (self.now.done + 1) (self.now.passed + 1) M.Missing }
        ensures accepted { self.now.done ≡ length spec.now → result ≡ Verdict.Accepted (counts_of (env_of spec.now)) }
    {
        if self.done < spec.len() {
            return Verdict::Match {
                declaration: self.done + 1,
                statement: self.passed + 1,
                rule: M::Missing,
            };
        }
        Verdict::Accepted(count_all(spec))
    }
}
