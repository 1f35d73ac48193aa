// What is answered by a verdict.
ghost use Rattle.std.specs.Prelude.{◌≡◌, None};
ghost use Rattle.mz_match_theory.specs.Verdict.{line_of};
ghost use Rattle.mz_tool_verify.specs.Judging.{IsAccepted, IsRefusal};
ghost use Rattle.mz_tool_engine.specs.Outcomes.{IfYes, IfNo};

use mz_match::verdict_line;
use mz_match_theory::Verdict;
use mz_tool_engine::{Outcome, Put};
use std::alloc::Global;

/// The verdict's line: yes where the binary is accepted, no where the pair is refused.
pub fn answered_by(alloc: Global, verdict: &Verdict) -> Outcome
    ensures yes { IfYes result (λ put text. (put ≡ None) × (IsAccepted verdict.now × (text ≡ line_of verdict.now))) }
    ensures no { IfNo result (λ text. IsRefusal verdict.now × (text ≡ line_of verdict.now)) }
{
    if let Verdict::Mem = verdict {
        return Outcome::Mem;
    }
    let Ok(text) = verdict_line(alloc, verdict) else {
        return Outcome::Mem;
    };
    match verdict {
        Verdict::Accepted(_) => Outcome::Yes {
            put: Put::Nothing,
            text,
        },
        _ => Outcome::No { text },
    }
}
