// The names of a text, by their numbers.
ghost use Rattle.std.specs.Prelude.{◌≡◌, ◌++◌, [], get_or, OnOk};
ghost use Rattle.mz_prefix.specs.PublicPart.{is_local_term};
ghost use Rattle.mz_prefix.specs.Names.{spoken, texts};

use std::alloc::{AllocError, Global};

/// The names of a text's sorts and terms, which terms are local, and what stands before the number
/// of a variable.
#[derive(Drop)]
pub(crate) struct Names<'a> {
    pub(crate) alloc: Global,
    pub(crate) sorts: Vec<&'a [u8]>,
    pub(crate) terms: Vec<&'a [u8]>,
    pub(crate) locals: Vec<bool>,
    pub(crate) prefix: Vec<u8>,
}

/// The i-th of some names; nothing past the end.
fn name_at<'a>(names: &[&'a [u8]], i: u32) -> &'a [u8]
    ensures { result.now ≡ get_or (texts names.now) i [] }
{
    match names.get(i as usize) {
        Some(name) => name,
        None => &[],
    }
}

impl<'a> Names<'a> {
    /// The name of a sort.
    pub(crate) fn sort(&self, i: u32) -> &'a [u8]
        ensures { result.now ≡ (spoken self.now).sort i }
    {
        name_at(&self.sorts, i)
    }

    /// The name of a term.
    pub(crate) fn term(&self, t: u32) -> &'a [u8]
        ensures { result.now ≡ (spoken self.now).term t }
    {
        name_at(&self.terms, t)
    }

    /// Whether a term is local.
    pub(crate) fn is_local(&self, t: u32) -> bool
        ensures { result ≡ is_local_term self.now.locals.items t }
    {
        match self.locals.get(t as usize) {
            Some(is_local) => *is_local,
            None => false,
        }
    }

    /// Appends the name of a variable.
    pub(crate) fn put_variable(&self, x: usize, out: &mut Vec<u8>) -> Result<(), AllocError>
        ensures { OnOk result (out.new.items ≡ out.old.items ++ (spoken self.now).variable x) }
    {
        out.extend_from_slice(&self.prefix)?;
        let digits = format!(in self.alloc; "{x}")?;
        out.extend_from_slice(digits.as_bytes())
    }
}
