// The names of a text, by their numbers.
ghost use Rattle.std.specs.Prelude.{◌≡◌, ◌++◌, ◌∷◌, [], decimal, IfOk, OnOk};
ghost use Rattle.mz_decompile_text.specs.Naming.{vocabulary_by};

use crate::list::NameList;
use itoa::Buffer;
use mz_cmd::Mem;
use std::marker::Model;

/// The names of sorts, of terms, and of axioms and theorems; and the prefix of what is numbered.
#[derive(Drop)]
pub struct PairNames {
    pub(crate) sorts: NameList,
    pub(crate) terms: NameList,
    pub(crate) assertions: NameList,
    pub(crate) prefix: Vec<u8>,
}

impl Model for PairNames {
    ghost use Rattle.mz_decompile_text.specs.Naming.{Naming};

    ghost Value = { Naming };

    ghost view = { λ n. record { sorts = n.sorts; terms = n.terms; assertions = n.assertions; prefix = n.prefix.items } };
}

impl PairNames {
    /// The name of a sort.
    pub fn sort(&self, i: u32) -> &[u8]
        ensures { result.now ≡ (vocabulary_by self.now).sort i }
    {
        self.sorts.get(i)
    }

    /// The name of a term.
    pub fn term(&self, t: u32) -> &[u8]
        ensures { result.now ≡ (vocabulary_by self.now).term t }
    {
        self.terms.get(t)
    }

    /// The name of an axiom or theorem.
    pub fn assertion(&self, t: u32) -> &[u8]
        ensures { result.now ≡ (vocabulary_by self.now).assertion t }
    {
        self.assertions.get(t)
    }

    /// Appends the name of a variable.
    pub fn put_variable(&self, number: usize, out: &mut Vec<u8>) -> Result<(), Mem>
        ensures { OnOk result (out.new.items ≡ out.old.items ++ (vocabulary_by self.now).variable number) }
    {
        put_numbered(&self.prefix, b'v', number, out)
    }

    /// Appends the name of a hypothesis.
    pub fn put_hypothesis(&self, number: usize, out: &mut Vec<u8>) -> Result<(), Mem>
        ensures { OnOk result (out.new.items ≡ out.old.items ++ (vocabulary_by self.now).hypothesis number) }
    {
        put_numbered(&self.prefix, b'h', number, out)
    }

    /// Appends the name of a let.
    pub fn put_let(&self, number: usize, out: &mut Vec<u8>) -> Result<(), Mem>
        ensures { OnOk result (out.new.items ≡ out.old.items ++ (vocabulary_by self.now).let_name number) }
    {
        put_numbered(&self.prefix, b'p', number, out)
    }
}

/// Appends a prefix, a letter and a number.
pub(crate) fn put_numbered(
    prefix: &[u8],
    letter: u8,
    number: usize,
    out: &mut Vec<u8>,
) -> Result<(), Mem>
    ensures { OnOk result (out.new.items ≡ out.old.items ++ (prefix.now ++ letter ∷ decimal number)) }
{
    out.extend_from_slice(prefix)?;
    out.push(letter)?;
    let mut buffer = Buffer::new();
    out.extend_from_slice(buffer.format(number).as_bytes())?;
    Ok(())
}
