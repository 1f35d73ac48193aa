// The statements of a text, one after another, as rows, streams and bodies of a binary.
ghost use Rattle.std.specs.Prelude.{Bool, List, ◌≡◌, ◌<◌, ◌≤◌, ◌+◌, ◌*◌, ◌^◌, ◌++◌, ◌∷◌, [], OnOk, IfOk, None, Some, Option, length, map, slice_get, take, IsTrue};
ghost use Rattle.mz_cmd.specs.Codes.{begins_statement};
ghost use Rattle.mz_logic_theory.specs.DeclView.{declaration, term_of, assertion_of, assertion_view, signature, form, is_axiom as is_axiom_form};
ghost use Rattle.mz_logic_theory.specs.Declaration.{sort_decl, plain_form, defined, dummies_of, sorts, signatures};
ghost use Rattle.mz_logic_theory.specs.Legality.{IsLegalEnv};
ghost use Rattle.mz_logic_theory.specs.Sorts.{AreProvable};
ghost use Rattle.mz_logic_theory.specs.Tree.{listed, size, trees_size};
ghost use Rattle.mz_logic_theory.specs.View.{tree};
ghost use Rattle.mz_logic_theory.specs.Words.{BitsRight, binders_of, signatures_of};
ghost use Rattle.mz_logic_theory.specs.WordsWritten.{CanBeWords};
ghost use Rattle.mz_logic_theory.specs.declared.binder.Binder.{Binder as BinderOf};
ghost use Rattle.mz_logic_theory.specs.declared.binder.SortMods.{SortMods as Modifiers};
ghost use Rattle.mz_layout_tables.specs.Normal.{file_of};
ghost use Rattle.mz_layout_tables.specs.Standing.{Fit};
ghost use Rattle.mz_type_rules.specs.Answers.{stated};
ghost use Rattle.mz_type.specs.StatedView.{with_decl};
ghost use Rattle.mz_store.specs.Sharing.{AreIn, IsIn, tree_of, trees_of};
ghost use Rattle.mz_machine_theory.specs.Premises.{bound_count as bound_in};
ghost use Rattle.mz_emit_bodies.specs.Rows.{words_of_row};
ghost use Rattle.mz_emit_bodies.specs.Stages.{HasDummiesBehind};
ghost use Rattle.mz_emit.specs.Emitting.{CanBeNext, WritesNext, EmitsNext, CanBeDefined, CanBeAsserted, CountsFit, HasWords, table_of, IsProvedBy, IsSoundIfStated, body_weight, HasEmitted};
ghost use Rattle.mz_emit_theory.specs.CompiledFile;
ghost use Rattle.mz_emit_theory.specs.CompiledFile.{term_row, thm_row, definition_stream_of, definition_body_of, assertion_stream_of, assertion_body_of, with_sort, with_term, with_thm};

use crate::statement::{assertion_stream, definition_stream};
use mz_cmd::{Mem, StatementCode};
use mz_emit_bodies::{
    Before, BinderWords, EnvPrefix, Shared, TermTable, axiom_body, definition_body, theorem_body,
};
use mz_emit_theory::stated_proofs_are_sound;
use mz_layout::LayoutWriter;
use mz_logic_theory::{Binder, Decl, Env, Expr, SortMods, TermDecl, ThmDecl, ThmForm};
use mz_mmu_theory::Proof;
use mz_store::{Id, Seed};
use mz_type::Beside;
use std::alloc::Global;

/// The statements so far: their declarations, which are the first of the text's, the words of these, and what is written of
/// them.
#[derive(Drop)]
pub(crate) struct Emitter<'e> {
    pub(crate) alloc: Global,
    pub(crate) seed: Seed,
    pub(crate) env: EnvPrefix<'e>,
    pub(crate) table: TermTable,
    pub(crate) writer: LayoutWriter,
}

/// The stream and the body of a statement.
#[derive(Drop)]
struct Emitted {
    stream: Vec<u8>,
    body: Vec<u8>,
}

/// The code of a definition's statement.
fn definition_code(is_local: bool) -> u8
    ensures code { result ≡ CompiledFile.definition_code is_local }
    ensures known { IsTrue (begins_statement result) }
{
    if is_local {
        StatementCode::LocalDefinition as u8
    } else {
        StatementCode::Term as u8
    }
}

/// The code of an axiom's or a theorem's statement.
fn assertion_code(form: ThmForm, is_local: bool) -> u8
    ensures code { result ≡ CompiledFile.assertion_code (is_axiom_form form) is_local }
    ensures known { IsTrue (begins_statement result) }
{
    match form {
        ThmForm::Axiom => StatementCode::Axiom as u8,
        ThmForm::Theorem => {
            if is_local {
                StatementCode::LocalTheorem as u8
            } else {
                StatementCode::Theorem as u8
            }
        }
    }
}

impl<'e> Emitter<'e> {
    /// No statements of the text that declares these. Terms of one are looked up by numbers that the seed makes.
    pub(crate) fn new(alloc: Global, seed: Seed, env: &'e Env) -> Emitter<'e>
        ensures { HasEmitted [] result }
    {
        Emitter {
            alloc,
            seed,
            env: EnvPrefix::of(env, 0),
            table: TermTable::new(alloc),
            writer: LayoutWriter::new(alloc),
        }
    }

    /// Writes a sort.
    fn sort(&mut self, mods: SortMods) -> Result<(), Mem>
        requires mods { mods.0 < 16 }
        requires room { length self.old.table.sorts.items + 1 < 2 ^ 32 }
        ensures writer { OnOk result (self.new.writer ≡ with_sort self.old.writer mods.0) }
        ensures sorts { OnOk result (self.new.table.sorts.items ≡ self.old.table.sorts.items ++ mods ∷ []) }
        ensures terms { OnOk result (self.new.table.terms.items ≡ self.old.table.terms.items) }
        ensures env { OnOk result (self.new.env ≡ self.old.env) }
    {
        self.table.add_sort(mods)?;
        self.writer.add_sort(mods.0)?;
        self.writer.add_stmt(StatementCode::Sort as u8, &[])?;
        Ok(())
    }

    /// Writes a plain term.
    fn plain(&mut self, term: &TermDecl) -> Result<(), Mem>
        requires words { (ss : List Modifiers) × HasWords ss (signature term.now) }
        requires room { length self.old.table.terms.items + 1 < 2 ^ 32 }
        ensures writer { OnOk result (self.new.writer ≡ with_term self.old.writer (term_row (signature term.now) None) (record { code = 0x05; body = [] })) }
        ensures sorts { OnOk result (self.new.table.sorts.items ≡ self.old.table.sorts.items) }
        ensures terms { OnOk result (table_of self.new ≡ table_of self.old ++ signature term.now ∷ []) }
        ensures env { OnOk result (self.new.env ≡ self.old.env) }
    {
        let words = BinderWords::of(self.alloc, term.params.as_slice())?;
        let ret = words.result_word(&term.result);
        self.writer.add_term(&words.params, ret, None)?;
        self.writer.add_stmt(StatementCode::Term as u8, &[])?;
        self.table.add_term(words.params, ret, false)?;
        Ok(())
    }

    /// Writes a definition.
    fn definition(&mut self, term: &TermDecl, body: &Expr, code: u8) -> Result<(), Mem>
        requires words { (ss : List Modifiers) × HasWords ss (signature term.now) }
        requires room { length self.old.table.terms.items + 1 < 2 ^ 32 }
        requires legal { IsLegalEnv self.old.env }
        requires table { table_of self.old ≡ signatures self.old.env }
        requires can { CanBeDefined self.old.env (signature term.now).params (dummies_of (form term.now.form)) (tree body.now) }
        requires code { IsTrue (begins_statement code) }
        ensures writer { OnOk result (self.new.writer ≡ with_term self.old.writer
            (term_row (signature term.now) (Some (definition_stream_of (signature term.now).params (dummies_of (form term.now.form)) (tree body.now))))
            (record { code = code; body = definition_body_of (signature term.now).params (dummies_of (form term.now.form)) (tree body.now) })) }
        ensures sorts { OnOk result (self.new.table.sorts.items ≡ self.old.table.sorts.items) }
        ensures terms { OnOk result (table_of self.new ≡ table_of self.old ++ signature term.now ∷ []) }
        ensures env { OnOk result (self.new.env ≡ self.old.env) }
    {
        let words = BinderWords::of(self.alloc, term.params.as_slice())?;
        let ret = words.result_word(&term.result);
        let emitted = self.defined(&words, term.form.dummies(), body)?;
        self.writer
            .add_term(&words.params, ret, Some(&emitted.stream))?;
        self.writer.add_stmt(code, &emitted.body)?;
        self.table.add_term(words.params, ret, true)?;
        Ok(())
    }

    /// Writes an axiom, or a theorem with these dummies and this proof.
    fn assertion(
        &mut self,
        thm: &ThmDecl,
        dummies: &[Binder],
        proof: Option<&Proof>,
        code: u8,
    ) -> Result<(), Mem>
        requires words { (ss : List Modifiers) × CanBeWords ss (assertion_view thm.now).params }
        requires legal { IsLegalEnv self.old.env }
        requires table { table_of self.old ≡ signatures self.old.env }
        requires can { CanBeAsserted self.old.env (assertion_view thm.now) dummies.now }
        requires room { CountsFit self.old.env (assertion_view thm.now) (stated proof) }
        requires proved { (gaps : Bool) × IsProvedBy gaps self.old.env ((assertion_view thm.now).params ++ dummies.now) (assertion_view thm.now) (stated proof) }
        requires code { IsTrue (begins_statement code) }
        ensures writer { OnOk result (self.new.writer ≡ with_thm self.old.writer (thm_row (assertion_view thm.now) (assertion_stream_of (assertion_view thm.now)))
            (record {
              code = code;
              body = assertion_body_of self.old.env (assertion_view thm.now).params dummies.now (listed (assertion_view thm.now).hyps) (assertion_view thm.now).conclusion (stated proof.entry);
            })) }
        ensures table { OnOk result (self.new.table ≡ self.old.table) }
        ensures env { OnOk result (self.new.env ≡ self.old.env) }
    {
        let words = BinderWords::of(self.alloc, thm.params.as_slice())?;
        let emitted = self.asserted(&words, thm, dummies, proof)?;
        self.writer.add_thm(&words.params, &emitted.stream)?;
        self.writer.add_stmt(code, &emitted.body)?;
        Ok(())
    }

    /// Writes a statement, a sort.
    fn write_sort(&mut self, beside: &Beside, mods: SortMods) -> Result<(), Mem>
        requires { CanBeNext (with_decl (sort_decl mods) beside.now) self.old }
        ensures writes { OnOk result (WritesNext (with_decl (sort_decl mods) beside.now) self.old self.new) }
        ensures env { OnOk result (self.new.env ≡ self.old.env) }
    {
        self.sort(mods)?;
        Ok(())
    }

    /// Writes a statement, a plain term.
    fn write_plain(&mut self, beside: &Beside, term: &TermDecl) -> Result<(), Mem>
        requires next { CanBeNext (with_decl (term_of term.now) beside.now) self.old }
        requires plain { form term.now.form ≡ plain_form }
        ensures writes { OnOk result (WritesNext (with_decl (term_of term.now) beside.now) self.old self.new) }
        ensures env { OnOk result (self.new.env ≡ self.old.env) }
    {
        self.plain(term)?;
        Ok(())
    }

    /// Writes a statement, a definition.
    fn write_definition(&mut self, beside: &Beside, term: &TermDecl, body: &Expr) -> Result<(), Mem>
        requires next { CanBeNext (with_decl (term_of term.now) beside.now) self.old }
        requires body { form term.now.form ≡ defined (dummies_of (form term.now.form)) (tree body.now) }
        ensures writes { OnOk result (WritesNext (with_decl (term_of term.now) beside.now) self.old self.new) }
        ensures env { OnOk result (self.new.env ≡ self.old.env) }
    {
        let code = definition_code(beside.is_local);
        self.definition(term, body, code)?;
        Ok(())
    }

    /// Writes a statement, a term.
    fn write_term(&mut self, beside: &Beside, term: &TermDecl) -> Result<(), Mem>
        requires { CanBeNext (with_decl (term_of term.now) beside.now) self.old }
        ensures writes { OnOk result (WritesNext (with_decl (term_of term.now) beside.now) self.old self.new) }
        ensures env { OnOk result (self.new.env ≡ self.old.env) }
    {
        match term.form.body() {
            None => self.write_plain(beside, term),
            Some(body) => self.write_definition(beside, term, body),
        }
    }

    /// Writes a statement, an axiom or a theorem.
    fn write_thm(&mut self, beside: &Beside, thm: &ThmDecl) -> Result<(), Mem>
        requires { CanBeNext (with_decl (assertion_of thm.now) beside.now) self.old }
        ensures writes { OnOk result (WritesNext (with_decl (assertion_of thm.now) beside.now) self.old self.new) }
        ensures env { OnOk result (self.new.env ≡ self.old.env) }
    {
        stated_proofs_are_sound();
        let code = assertion_code(thm.form, beside.is_local);
        self.assertion(thm, beside.dummies.as_slice(), beside.proof(), code)?;
        Ok(())
    }

    /// Writes the statement that declares this, and says that beside it.
    fn write(&mut self, decl: &Decl, beside: &Beside) -> Result<(), Mem>
        requires { CanBeNext (with_decl (declaration decl.now) beside.now) self.old }
        ensures writes { OnOk result (WritesNext (with_decl (declaration decl.now) beside.now) self.old self.new) }
        ensures env { OnOk result (self.new.env ≡ self.old.env) }
    {
        match decl {
            Decl::Sort(mods) => self.write_sort(beside, *mods),
            Decl::Term(term) => self.write_term(beside, term),
            Decl::Thm(thm) => self.write_thm(beside, thm),
        }
    }

    /// Writes the statement that declares what stands at the place, which then stands before the next.
    pub(crate) fn statement(
        &mut self,
        env: &'e Env,
        place: usize,
        decl: &Decl,
        beside: &Beside,
    ) -> Result<(), Mem>
        requires next { CanBeNext (with_decl (declaration decl.now) beside.now) self.old }
        requires there { slice_get env.now place ≡ Some (declaration decl.now) }
        requires before { self.old.env ≡ take place env.now }
        requires room { place < 2 ^ 32 }
        ensures emits { OnOk result (EmitsNext (with_decl (declaration decl.now) beside.now) self.old self.new) }
        ensures before { OnOk result (self.new.env ≡ take (place + 1) env.now) }
    {
        self.write(decl, beside)?;
        self.env = EnvPrefix::of(env, place + 1);
        Ok(())
    }

    /// What is written, without what it was made from.
    fn into_writer(self) -> LayoutWriter
        ensures { result ≡ self.entry.writer }
    {
        self.writer
    }

    /// The binary.
    pub(crate) fn finish(self) -> Result<Vec<u8>, Mem>
        requires { Fit self.writer }
        ensures { IfOk result (λ bytes. bytes.items ≡ file_of self.entry.writer) }
    {
        let writer = self.into_writer();
        let bytes = writer.finish()?;
        Ok(bytes)
    }

    /// The stream and the body of a definition.
    fn defined(&self, words: &BinderWords, dummies: &[Binder], body: &Expr) -> Result<Emitted, Mem>
        requires legal { IsLegalEnv self.now.env }
        requires table { signatures_of (map words_of_row self.now.table.terms.items) ≡ signatures self.now.env }
        requires right { BitsRight words.now.params.items }
        requires can { CanBeDefined self.now.env (binders_of words.now.params.items) dummies.now (tree body.now) }
        ensures stream { IfOk result (λ e. e.stream.items ≡ definition_stream_of (binders_of words.now.params.items) dummies.now (tree body.now)) }
        ensures body { IfOk result (λ e. e.body.items ≡ definition_body_of (binders_of words.now.params.items) dummies.now (tree body.now)) }
    {
        let params = words.params.as_slice().len() as u32;
        let mut shared = Shared::new(self.alloc, self.seed, &words.params, dummies)?;
        let id = shared.id(&self.table, body)?;
        let stream = definition_stream(self.alloc, &shared, params, id)?;
        let before = Before {
            env: &self.env,
            table: &self.table,
        };
        let body = definition_body(self.alloc, before, shared, params, id)?;
        Ok(Emitted { stream, body })
    }

    /// The body of an axiom, or of a theorem with this proof.
    fn assertion_body(
        &self,
        shared: Shared,
        params: u32,
        hyps: &[Id],
        conclusion: Id,
        proof: Option<&Proof>,
    ) -> Result<Vec<u8>, Mem>
        requires legal { IsLegalEnv self.now.env }
        requires table { signatures_of (map words_of_row self.now.table.terms.items) ≡ signatures self.now.env }
        requires behind { HasDummiesBehind self.now.env params shared.store shared.variables.items }
        requires few { bound_in shared.store.context ≤ 55 }
        requires inside { IsIn shared.store conclusion.0 }
        requires hyps { AreIn shared.store hyps.now }
        requires provable { AreProvable self.now.env shared.store.context (trees_of shared.store hyps.now) }
        requires room { params + 6 * (trees_size (trees_of shared.store hyps.now) + size (tree_of shared.store conclusion.0) + body_weight self.now.env (stated proof)) < 2 ^ 32 }
        requires sound { (gaps : Bool) × IsSoundIfStated gaps self.now.env shared.store.context (listed (trees_of shared.store hyps.now)) (stated proof) }
        ensures { IfOk result (λ b. (ps ds : List BinderOf) → shared.store.context ≡ ps ++ ds → length ps ≡ params
            → b.items ≡ assertion_body_of self.now.env ps ds (listed (trees_of shared.store hyps.now)) (tree_of shared.store conclusion.0) (stated proof.entry)) }
    {
        let before = Before {
            env: &self.env,
            table: &self.table,
        };
        match proof {
            None => axiom_body(self.alloc, before, shared, params, hyps, conclusion),
            Some(proof) => theorem_body(self.alloc, before, shared, params, hyps, proof),
        }
    }

    /// The stream and the body of an axiom, or of a theorem with these dummies and this proof.
    fn asserted(
        &self,
        words: &BinderWords,
        thm: &ThmDecl,
        dummies: &[Binder],
        proof: Option<&Proof>,
    ) -> Result<Emitted, Mem>
        requires legal { IsLegalEnv self.now.env }
        requires table { signatures_of (map words_of_row self.now.table.terms.items) ≡ signatures self.now.env }
        requires right { BitsRight words.now.params.items }
        requires params { binders_of words.now.params.items ≡ (assertion_view thm.now).params }
        requires can { CanBeAsserted self.now.env (assertion_view thm.now) dummies.now }
        requires room { CountsFit self.now.env (assertion_view thm.now) (stated proof) }
        requires proved { (gaps : Bool) × IsProvedBy gaps self.now.env ((assertion_view thm.now).params ++ dummies.now) (assertion_view thm.now) (stated proof) }
        ensures stream { IfOk result (λ e. e.stream.items ≡ assertion_stream_of (assertion_view thm.now)) }
        ensures body { IfOk result (λ e. e.body.items
            ≡ assertion_body_of self.now.env (assertion_view thm.now).params dummies.now (listed (assertion_view thm.now).hyps) (assertion_view thm.now).conclusion (stated proof.entry)) }
    {
        let params = words.params.as_slice().len() as u32;
        let mut shared = Shared::new(self.alloc, self.seed, &words.params, dummies)?;
        let conclusion = shared.id(&self.table, &thm.conclusion)?;
        let hyps = shared.hyp_ids(&self.table, &thm.hyps)?;
        let stream = assertion_stream(self.alloc, &shared, params, conclusion, &hyps)?;
        let body = self.assertion_body(shared, params, &hyps, conclusion, proof)?;
        Ok(Emitted { stream, body })
    }
}
