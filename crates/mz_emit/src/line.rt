// The line that prints what compiling answered.
ghost use Rattle.std.specs.Prelude.{◌≡◌, IfOk};
ghost use Rattle.mz_emit_theory.specs.Lines.{line_of, bytes_line as bytes_lem, refusal_line as refusal_lem, limit_line as limit_lem};

use mz_cmd::Mem;
use mz_emit_theory::{Compiled, L};
use mz_sexpr::TextRefusal;
use std::alloc::Global;

/// The line that prints an answer other than out of memory, with its newline.
pub fn compiled_line(alloc: Global, compiled: &Compiled) -> Result<Vec<u8>, Mem>
    requires { compiled.now ≡ Compiled.Mem → ⊥ }
    ensures { IfOk result (λ line. line.items ≡ line_of compiled.now) }
{
    match compiled {
        Compiled::Bytes(bytes) => bytes_line(alloc, bytes.len()),
        Compiled::Refused(refusal) => refusal_line(alloc, *refusal),
        Compiled::Limit { rule, count } => limit_line(alloc, *rule, *count),
        Compiled::Mem => Ok(Vec::new(alloc)),
    }
}

fn bytes_line(alloc: Global, bytes: usize) -> Result<Vec<u8>, Mem>
    ensures { IfOk result (λ line. line.items ≡ bytes_lem bytes) }
{
    let text = format!(in alloc; "compiled: {bytes} bytes\n")?;
    Ok(text.into_bytes())
}

fn refusal_line(alloc: Global, refusal: TextRefusal) -> Result<Vec<u8>, Mem>
    ensures { IfOk result (λ line. line.items ≡ refusal_lem refusal) }
{
    let text = format!(in alloc;
        "refused: text statement {} at byte {}: {}\n",
        refusal.statement, refusal.at, refusal.rule
    )?;
    Ok(text.into_bytes())
}

fn limit_line(alloc: Global, rule: L, count: u128) -> Result<Vec<u8>, Mem>
    ensures { IfOk result (λ line. line.items ≡ limit_lem rule count) }
{
    let text = format!(in alloc; "limit: {rule} {count}\n")?;
    Ok(text.into_bytes())
}
