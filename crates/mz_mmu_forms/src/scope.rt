//! The names that are known at a place of the text.
ghost use Rattle.std.specs.Prelude.{◌≡◌, ◌^◌, ◌-◌, OnOk};
ghost use Rattle.mz_logic_theory.specs.DeclView.{declaration};
ghost use Rattle.mz_base.specs.Gaps.{gaps_of};
ghost use Rattle.mz_base.specs.Names.{IsNew};
ghost use Rattle.mz_mmu_theory.specs.Name.{IsName, no_names, names_with};
ghost use Rattle.mz_mmu_theory.specs.NamesMore.{IsUnused, AreFew, with_term};
ghost use Rattle.mz_mmu_forms.specs.ScopeView.{names};

use crate::space::Space;
use mz_base::{Hashing, Mode};
use mz_logic_theory::Decl;
use std::alloc::{AllocError, Global};

/// The names of the statements so far, how names are hashed, and the mode in which the text is read.
#[derive(Drop)]
pub struct NameTable<'a> {
    /// Whether proofs may have gaps.
    pub mode: Mode,
    /// How these names are hashed, and those in a statement.
    pub hashing: Hashing,
    /// The sorts.
    pub sorts: Space<'a>,
    /// The terms and definitions.
    pub terms: Space<'a>,
    /// Those without parameters; at the place of another one stands an empty string.
    pub constants: Space<'a>,
    /// The axioms and theorems.
    pub assertions: Space<'a>,
}

impl<'a> NameTable<'a> {
    /// No names.
    pub fn new(alloc: Global, hashing: Hashing, mode: Mode) -> NameTable<'a>
        ensures none { names result ≡ no_names (gaps_of mode) }
        ensures mode { result.mode ≡ mode }
    {
        NameTable {
            mode,
            hashing,
            sorts: Space::new(alloc, hashing),
            terms: Space::new(alloc, hashing),
            constants: Space::new(alloc, hashing),
            assertions: Space::new(alloc, hashing),
        }
    }

    /// Puts a declaration's name to those of its kind.
    ///
    /// # Errors
    ///
    /// Where there is no memory.
    pub fn add(&mut self, name: &'a [u8], decl: &Decl) -> Result<(), AllocError>
        requires name { IsName name.now }
        requires unused { IsUnused (names self.old) name.now (declaration decl.now) }
        requires few { AreFew (names self.old) (2 ^ 32 - 2) }
        ensures { OnOk result (names self.new ≡ names_with (names self.old) name.now (declaration decl.now)) }
    {
        match decl {
            Decl::Sort(_) => self.sorts.push(name),
            Decl::Term(term) => self.add_term(name, term.params.len() == 0),
            Decl::Thm(_) => self.assertions.push(name),
        }
    }

    /// Puts a term's name to those of terms.
    fn add_term(&mut self, name: &'a [u8], is_constant: bool) -> Result<(), AllocError>
        requires name { IsName name.now }
        requires new { IsNew self.old.terms name.now }
        requires new_constant { IsNew self.old.constants name.now }
        requires few { AreFew (names self.old) (2 ^ 32 - 2) }
        ensures { OnOk result (names self.new ≡ with_term (names self.old) is_constant name.now) }
    {
        self.terms.push(name)?;
        if is_constant {
            self.constants.push(name)
        } else {
            self.constants.push_other(&[])
        }
    }
}

/// What an expression sees.
#[derive(Clone, Copy)]
pub struct Scope<'s, 'a> {
    /// The names of the statements before.
    pub names: &'s NameTable<'a>,
    /// The variables of its own statement.
    pub vars: &'s Space<'a>,
}
