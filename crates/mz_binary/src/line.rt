// The line that prints a refusal.
ghost use Rattle.std.specs.Prelude.{◌≡◌, IfOk};
ghost use Rattle.mz_binary_theory.specs.RefusalLine.{refusal_line as line_of};

use mz_cmd::{Mem, Refusal};
use std::alloc::Global;

/// The line that prints a refusal, with its newline, as
/// `refused: binary statement 5 at byte 234: K21 unify reference`.
pub fn refusal_line(alloc: Global, refusal: &Refusal) -> Result<Vec<u8>, Mem>
    ensures { IfOk result (λ line. line.items ≡ line_of refusal.now) }
{
    let text = format!(in alloc;
        "refused: binary statement {} at byte {}: {}\n",
        refusal.statement, refusal.at, refusal.rule
    )?;
    Ok(text.into_bytes())
}
