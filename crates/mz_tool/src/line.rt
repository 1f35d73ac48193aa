// The line that prints how long a sample is.
ghost use Rattle.std.specs.Prelude.{◌≡◌, IfOk};
ghost use Rattle.mz_tool.specs.Samples.{sample_line};

use mz_cmd::Mem;
use std::alloc::Global;

/// The line that prints how many bytes a sample's specification and its proof text have, with its
/// newline.
pub fn sample_line(alloc: Global, specification: usize, text: usize) -> Result<Vec<u8>, Mem>
    ensures { IfOk result (λ line. line.items ≡ sample_line specification text) }
{
    let line = format!(in alloc;
        "sample: {specification} bytes of specification, {text} bytes of text\n"
    )?;
    Ok(line.into_bytes())
}
