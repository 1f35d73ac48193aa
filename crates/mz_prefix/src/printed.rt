// The lines that print what making a specification answered, where compiling a text has none.
ghost use Rattle.std.specs.Prelude.{◌≡◌, IfOk};
ghost use Rattle.mz_prefix.specs.Printed;

use std::alloc::{AllocError, Global};

/// The line that prints how long the specification is.
pub fn specified_line(alloc: Global, bytes: usize) -> Result<Vec<u8>, AllocError>
    ensures { IfOk result (λ line. line.items ≡ Printed.specified_line bytes) }
{
    let text = format!(in alloc; "specified: {bytes} bytes\n")?;
    Ok(text.into_bytes())
}

/// The line that prints of which statement a claim mentions a local definition.
pub fn local_line(alloc: Global, statement: u32) -> Result<Vec<u8>, AllocError>
    ensures { IfOk result (λ line. line.items ≡ Printed.local_line statement) }
{
    let text = format!(in alloc; "refused: text statement {statement}: local definition\n")?;
    Ok(text.into_bytes())
}

/// The line that prints of which statement a claim is over the limits of a math string.
pub fn long_line(alloc: Global, statement: u32) -> Result<Vec<u8>, AllocError>
    ensures { IfOk result (λ line. line.items ≡ Printed.long_line statement) }
{
    let text = format!(in alloc; "refused: text statement {statement}: depth\n")?;
    Ok(text.into_bytes())
}
