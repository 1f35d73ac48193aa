// The line of a statement.
ghost use Rattle.std.specs.Prelude.{◌≡◌, ◌++◌, [], OnOk};
ghost use Rattle.mz_spec_theory.specs.Statement.{keyword_of};
ghost use Rattle.mz_spec_theory.specs.declared.kind.Kind.TheVariants.{Assert};
ghost use Rattle.mz_logic_theory.specs.DeclView.{assertion_of, declaration, is_axiom, signature, term_of};
ghost use Rattle.mz_logic_theory.specs.Declaration.{defined, sort_decl};
ghost use Rattle.mz_logic_theory.specs.View.{tree};
ghost use Rattle.mz_prefix.specs.Lines.{line_text};
ghost use Rattle.mz_prefix.specs.NamedDeclarations.{Vocabulary, kind_of, line_of_decl, plain_binders, term_line_of};
ghost use Rattle.mz_prefix.specs.Names.{spoken};
ghost use Rattle.mz_prefix.specs.Writing.{bare_text, head_text, modifier_text, told};

use crate::names::Names;
use crate::words::put;
use mz_logic_theory::{Binder, Decl, Expr, SortMods, TermDecl, TermForm, ThmDecl, ThmForm};
use std::alloc::AllocError;

/// Appends a keyword and a space where a sort has the modifier.
fn put_modifier(has: bool, keyword: &[u8], out: &mut Vec<u8>) -> Result<(), AllocError>
    ensures { OnOk result (out.new.items ≡ out.old.items ++ modifier_text has keyword.now) }
{
    if has {
        put(keyword, out)?;
        out.push(b' ')?;
    }
    Ok(())
}

/// Appends the line of a sort.
fn put_sort(name: &[u8], mods: SortMods, out: &mut Vec<u8>) -> Result<(), AllocError>
    ensures { (v : Vocabulary) → OnOk result (out.new.items ≡ out.old.items ++ line_text (line_of_decl v name.now (sort_decl mods))) }
{
    put_modifier(mods.0 % 2 == 1, b"pure", out)?;
    put_modifier(mods.0 / SortMods::STRICT % 2 == 1, b"strict", out)?;
    put_modifier(mods.0 / SortMods::PROVABLE % 2 == 1, b"provable", out)?;
    put_modifier(mods.0 / SortMods::FREE % 2 == 1, b"free", out)?;
    put(b"sort ", out)?;
    put(name, out)?;
    put(b";\n", out)?;
    Ok(())
}

/// The keyword of an axiom or theorem.
fn keyword(form: ThmForm) -> &'static [u8]
    ensures { result.now ≡ keyword_of (Assert (kind_of (is_axiom form))) }
{
    match form {
        ThmForm::Axiom => b"axiom",
        ThmForm::Theorem => b"theorem",
    }
}

impl<'a> Names<'a> {
    /// Appends a keyword, the name, the parameters and the dummies.
    fn put_head(
        &self,
        keyword: &[u8],
        name: &[u8],
        params: &[Binder],
        dummies: &[Binder],
        out: &mut Vec<u8>,
    ) -> Result<(), AllocError>
        ensures { OnOk result (out.new.items ≡ out.old.items ++ head_text keyword.now name.now (plain_binders (spoken self.now) 0 params.now dummies.now)) }
    {
        put(keyword, out)?;
        out.push(b' ')?;
        put(name, out)?;
        self.put_binders(params, dummies, out)?;
        Ok(())
    }

    /// Appends the line of a term, or of a definition without dummies and body.
    fn put_bare(
        &self,
        keyword: &[u8],
        name: &[u8],
        term: &TermDecl,
        out: &mut Vec<u8>,
    ) -> Result<(), AllocError>
        ensures { OnOk result (out.new.items ≡ out.old.items ++ bare_text (spoken self.now) keyword.now name.now (signature term.now)) }
    {
        self.put_head(keyword, name, term.params.as_slice(), &[], out)?;
        put(b":", out)?;
        self.put_type(term.result.sort, term.result.deps.as_slice(), out)?;
        put(b";\n", out)?;
        Ok(())
    }

    /// Appends the line of a definition with these dummies and this body.
    fn put_definition(
        &self,
        name: &[u8],
        term: &TermDecl,
        dummies: &[Binder],
        body: &Expr,
        out: &mut Vec<u8>,
    ) -> Result<(), AllocError>
        ensures { OnOk result (out.new.items ≡ out.old.items ++ line_text (term_line_of (spoken self.now) name.now (signature term.now) (defined dummies.now (tree body.now)))) }
    {
        self.put_head(b"def", name, term.params.as_slice(), dummies, out)?;
        put(b":", out)?;
        self.put_type(term.result.sort, term.result.deps.as_slice(), out)?;
        put(b" =", out)?;
        self.put_formula(body, out)?;
        put(b";\n", out)?;
        Ok(())
    }

    /// Appends the line of a term or definition, without dummies and body where that is hidden.
    fn put_term(&self, name: &[u8], term: &TermDecl, out: &mut Vec<u8>) -> Result<(), AllocError>
        ensures { OnOk result (out.new.items ≡ out.old.items ++ told self.now name.now (term_of term.now)) }
    {
        match &term.form {
            TermForm::Plain => self.put_bare(b"term", name, term, out),
            TermForm::Abstract => self.put_bare(b"def", name, term, out),
            TermForm::Body { dummies, body } => {
                if self.is_hidden(body) {
                    self.put_bare(b"def", name, term, out)
                } else {
                    self.put_definition(name, term, dummies.as_slice(), body, out)
                }
            }
        }
    }

    /// Appends the line of an axiom or theorem.
    fn put_thm(&self, name: &[u8], thm: &ThmDecl, out: &mut Vec<u8>) -> Result<(), AllocError>
        ensures { OnOk result (out.new.items ≡ out.old.items ++ line_text (line_of_decl (spoken self.now) name.now (assertion_of thm.now))) }
    {
        self.put_head(keyword(thm.form), name, thm.params.as_slice(), &[], out)?;
        put(b":", out)?;
        self.put_hyps(&thm.hyps, out)?;
        self.put_formula(&thm.conclusion, out)?;
        put(b";\n", out)?;
        Ok(())
    }

    /// Appends the line of a declaration of this name.
    pub(crate) fn put_decl(
        &self,
        name: &[u8],
        decl: &Decl,
        out: &mut Vec<u8>,
    ) -> Result<(), AllocError>
        ensures { OnOk result (out.new.items ≡ out.old.items ++ told self.now name.now (declaration decl.now)) }
    {
        match decl {
            Decl::Sort(mods) => put_sort(name, *mods, out),
            Decl::Term(term) => self.put_term(name, term, out),
            Decl::Thm(thm) => self.put_thm(name, thm, out),
        }
    }
}
