// The names of a specification's declarations.
ghost use Rattle.std.specs.Prelude.{◌≡◌, IfOk};
ghost use Rattle.mz_mmu_theory.specs.DeclaredNames;
ghost use Rattle.mz_decompile_text.specs.Names;

use mz_cmd::Mem;
use mz_mmu::{leading_underscores, one_underscore_more};
use mz_spec::NamedSpec;
use std::alloc::Global;

/// The longest run of underscores with which a declaration's name begins.
fn longest_run(spec: &NamedSpec) -> usize
    ensures { result ≡ DeclaredNames.longest_run (Names.declared_names spec.now.text.now spec.now.declared) }
{
    let mut run: usize = 0;
    for k in 0..spec.declared.len() {
        run = run.max(leading_underscores(spec.name(k)));
    }
    run
}

/// One underscore more than any declaration's name begins with.
pub(crate) fn prefix_beside(alloc: Global, spec: &NamedSpec) -> Result<Vec<u8>, Mem>
    ensures { IfOk result (λ prefix. prefix.items ≡ DeclaredNames.prefix_beside (Names.declared_names spec.now.text.now spec.now.declared)) }
{
    Ok(one_underscore_more(alloc, longest_run(spec))?)
}
