// The printed lines.
ghost use Rattle.std.specs.Prelude.{◌≡◌, IfOk};
ghost use Rattle.mz_decompile.specs.Printed;

use std::alloc::{AllocError, Global};

/// The line of a text of so many bytes.
pub fn decompiled_line(alloc: Global, bytes: usize) -> Result<Vec<u8>, AllocError>
    ensures { IfOk result (λ line. line.items ≡ Printed.decompiled_line bytes) }
{
    let text = format!(in alloc; "decompiled: {bytes} bytes\n")?;
    Ok(text.into_bytes())
}

/// The line of a statement whose text is too deep.
pub fn deep_line(alloc: Global, statement: u32) -> Result<Vec<u8>, AllocError>
    ensures { IfOk result (λ line. line.items ≡ Printed.deep_line statement) }
{
    let text = format!(in alloc; "refused: decompiled statement {statement}: depth\n")?;
    Ok(text.into_bytes())
}
