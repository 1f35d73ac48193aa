// The line that prints what assembling answered.
ghost use Rattle.std.specs.Prelude.{◌≡◌, IfOk};
ghost use Rattle.mz_asm.specs.Spoken.{line_of, bytes_line as bytes_lem, refusal_line as refusal_lem, limit_line as limit_lem};

use crate::assembled::Assembled;
use crate::rule::A;
use mz_cmd::Mem;
use std::alloc::Global;

/// The line that prints an answer other than out of memory, with its newline.
pub fn assembled_line(alloc: Global, assembled: &Assembled) -> Result<Vec<u8>, Mem>
    requires { assembled.now ≡ Assembled.Mem → ⊥ }
    ensures { IfOk result (λ line. line.items ≡ line_of assembled.now) }
{
    match assembled {
        Assembled::Bytes(bytes) => bytes_line(alloc, bytes.len()),
        Assembled::Refused { line, rule } => refusal_line(alloc, *line, *rule),
        Assembled::Limit { count } => limit_line(alloc, *count),
        Assembled::Mem => Ok(Vec::new(alloc)),
    }
}

fn bytes_line(alloc: Global, bytes: usize) -> Result<Vec<u8>, Mem>
    ensures { IfOk result (λ line. line.items ≡ bytes_lem bytes) }
{
    let text = format!(in alloc; "assembled: {bytes} bytes\n")?;
    Ok(text.into_bytes())
}

fn refusal_line(alloc: Global, line: u32, rule: A) -> Result<Vec<u8>, Mem>
    ensures { IfOk result (λ text. text.items ≡ refusal_lem line rule) }
{
    let text = format!(in alloc; "refused: listing line {line}: {rule}\n")?;
    Ok(text.into_bytes())
}

fn limit_line(alloc: Global, count: u128) -> Result<Vec<u8>, Mem>
    ensures { IfOk result (λ line. line.items ≡ limit_lem count) }
{
    let text = format!(in alloc; "limit: L5 bytes {count}\n")?;
    Ok(text.into_bytes())
}
