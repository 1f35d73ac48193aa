// The line that prints a verdict.
ghost use Rattle.std.specs.Prelude.{◌≡◌, IfOk};
ghost use Rattle.mz_match_theory.specs.Lines.{accepted_line as accepted_lem, match_line as match_lem, spec_line as spec_lem};
ghost use Rattle.mz_match_theory.specs.Verdict.{line_of};

use mz_binary::refusal_line;
use mz_cmd::Mem;
use mz_match_theory::{Counts, Verdict};
use mz_spec_proved_theory::M;
use mz_spec_theory::SpecRefusal;
use std::alloc::Global;

/// The line that prints a verdict, with its newline.
pub fn verdict_line(alloc: Global, verdict: &Verdict) -> Result<Vec<u8>, Mem>
    requires { verdict.now ≡ Verdict.Mem → ⊥ }
    ensures { IfOk result (λ line. line.items ≡ line_of verdict.now) }
{
    match verdict {
        Verdict::Accepted(counts) => accepted_line(alloc, *counts),
        Verdict::Spec(refusal) => spec_line(alloc, *refusal),
        Verdict::Binary(refusal) => refusal_line(alloc, refusal),
        Verdict::Match {
            declaration,
            statement,
            rule,
        } => match_line(alloc, *declaration, *statement, *rule),
        Verdict::Mem => Ok(Vec::new(alloc)),
    }
}

fn accepted_line(alloc: Global, counts: Counts) -> Result<Vec<u8>, Mem>
    ensures { IfOk result (λ line. line.items ≡ accepted_lem counts) }
{
    let text = format!(in alloc;
        "accepted: {} sorts, {} terms, {} axioms, {} definitions, {} theorems\n",
        counts.sorts, counts.terms, counts.axioms, counts.definitions, counts.theorems
    )?;
    Ok(text.into_bytes())
}

fn spec_line(alloc: Global, refusal: SpecRefusal) -> Result<Vec<u8>, Mem>
    ensures { IfOk result (λ line. line.items ≡ spec_lem refusal) }
{
    let text = format!(in alloc;
        "refused: specification statement {} at byte {}: {}\n",
        refusal.statement, refusal.at, refusal.rule
    )?;
    Ok(text.into_bytes())
}

fn match_line(alloc: Global, declaration: u32, statement: u32, rule: M) -> Result<Vec<u8>, Mem>
    ensures { IfOk result (λ line. line.items ≡ match_lem declaration statement rule) }
{
    let text = format!(in alloc;
        "refused: match declaration {declaration} statement {statement}: {rule}\n"
    )?;
    Ok(text.into_bytes())
}
