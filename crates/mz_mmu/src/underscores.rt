// The underscores with which names begin.
ghost use Rattle.std.specs.Prelude.{◌≡◌, ◌++◌, replicate, suc, IfOk, OnOk};
ghost use Rattle.mz_mmu_theory.specs.DeclaredNames;

use std::alloc::{AllocError, Global};

/// With how many underscores the name begins.
pub fn leading_underscores(name: &[u8]) -> usize
    ensures { result ≡ DeclaredNames.underscores name.now }
{
    let mut count: usize = 0;
    for byte in name {
        if *byte != b'_' {
            return count;
        }
        count += 1;
    }
    count
}

/// Appends so many underscores.
fn put_underscores(count: usize, out: &mut Vec<u8>) -> Result<(), AllocError>
    ensures { OnOk result (out.new.items ≡ out.old.items ++ replicate count 95) }
{
    for i in 0..count {
        out.push(b'_')?;
    }
    Ok(())
}

/// One underscore more than so many: no name begins with it that begins with no longer a run.
///
/// # Errors
///
/// Where memory doesn't suffice.
pub fn one_underscore_more(alloc: Global, run: usize) -> Result<Vec<u8>, AllocError>
    ensures { IfOk result (λ prefix. prefix.items ≡ replicate (suc run) 95) }
{
    let mut prefix: Vec<u8> = Vec::new(alloc);
    prefix.push(b'_')?;
    put_underscores(run, &mut prefix)?;
    Ok(prefix)
}
