// What a specification declares, and the names of it in the text.
ghost use Rattle.std.specs.Prelude.{◌≡◌, slice_range};
ghost use Rattle.mz_spec.specs.Named.{name_of};

use mz_spec_theory::Spec;

/// What a specification declares, with its text, where the names of the declarations stand.
#[derive(Drop)]
pub struct NamedSpec<'a> {
    pub text: &'a [u8],
    pub declared: Spec,
}

impl<'a> NamedSpec<'a> {
    /// The name of the k-th declaration; nothing past the last.
    pub fn name(&self, k: u32) -> &'a [u8]
        ensures { result.now ≡ name_of self.now k }
    {
        if k >= self.declared.len() {
            return &[];
        }
        let (from, to) = self.declared.name(k);
        bytes_between(self.text, from as usize, to as usize)
    }
}

/// The bytes from a place up to another, as far as there are any.
pub fn bytes_between(bytes: &[u8], from: usize, to: usize) -> &[u8]
    ensures { result.now ≡ slice_range bytes.now from to }
{
    let end = to.min(bytes.len());
    if from < end { &bytes[from..end] } else { &[] }
}
