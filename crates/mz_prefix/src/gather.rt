// The names of a text, gathered statement by statement.
ghost use Rattle.std.specs.Prelude.{◌≡◌, ◌++◌, IfOk, OnOk};
ghost use Rattle.mz_logic_theory.specs.DeclView.{declaration};
ghost use Rattle.mz_prefix.specs.PublicPart.{visibility_of};
ghost use Rattle.mz_prefix.specs.Wording;
ghost use Rattle.mz_mmu_theory.specs.DeclaredNames;
ghost use Rattle.mz_mmu_theory.specs.DeclaredNames.{sort_name, term_name, text_names};
ghost use Rattle.mz_prefix.specs.Names.{AreNamesOf, texts};

use crate::names::Names;
use mz_logic_theory::Decl;
use mz_mmu::{leading_underscores, one_underscore_more};
use mz_type::Typed;
use std::alloc::{AllocError, Global};

/// The longest run of underscores with which a name of the text begins.
fn longest_run(text: &Typed) -> usize
    ensures { result ≡ DeclaredNames.longest_run (text_names text.now.statements) }
{
    let mut run: usize = 0;
    for i in 0..text.len() {
        run = run.max(leading_underscores(text.name(i)));
    }
    run
}

/// What stands before the number of a variable: with it no variable is named as anything else.
fn variable_prefix(alloc: Global, text: &Typed) -> Result<Vec<u8>, AllocError>
    ensures { IfOk result (λ prefix. prefix.items ≡ Wording.variable_prefix text.now.statements) }
{
    let mut prefix = one_underscore_more(alloc, longest_run(text))?;
    prefix.push(b'v')?;
    Ok(prefix)
}

impl<'a> Names<'a> {
    /// The names of a text.
    pub(crate) fn of(alloc: Global, text: &Typed<'a>) -> Result<Names<'a>, AllocError>
        ensures { IfOk result (λ names. AreNamesOf text.now.statements names) }
    {
        let prefix = variable_prefix(alloc, text)?;
        let mut names = Names {
            alloc,
            sorts: Vec::new(alloc),
            terms: Vec::new(alloc),
            locals: Vec::new(alloc),
            prefix,
        };
        for i in 0..text.len() {
            names.add(text.name(i), text.is_local(i), text.decl(i))?;
        }
        Ok(names)
    }

    /// Adds the name of a declaration, which may be local.
    fn add(&mut self, name: &'a [u8], is_local: bool, decl: &Decl) -> Result<(), AllocError>
        ensures sorts { OnOk result (texts self.new.sorts.items ≡ texts self.old.sorts.items ++ sort_name (declaration decl.now) name.now) }
        ensures terms { OnOk result (texts self.new.terms.items ≡ texts self.old.terms.items ++ term_name (declaration decl.now) name.now) }
        ensures locals { OnOk result (self.new.locals.items ≡ self.old.locals.items ++ visibility_of is_local (declaration decl.now)) }
        ensures prefix { OnOk result (self.new.prefix ≡ self.old.prefix) }
    {
        match decl {
            Decl::Sort(_) => {
                self.sorts.push(name)?;
                Ok(())
            }
            Decl::Term(_) => {
                self.terms.push(name)?;
                self.locals.push(is_local)?;
                Ok(())
            }
            Decl::Thm(_) => Ok(()),
        }
    }
}
