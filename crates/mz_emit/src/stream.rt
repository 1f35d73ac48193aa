//! A unify stream, command by command.
ghost use Rattle.std.specs.Prelude.{ℕ, ◌≡◌, ◌<◌, ◌↔◌, ◌∷◌, [], ◌++◌, IfOk, IsTrue, List, None, OnOk, Some, length, reverse, true, false};
ghost use Rattle.std.specs.Int.{bit_at};
ghost use Rattle.mz_cmd.specs.Codes.{unify_byte};
ghost use Rattle.mz_cmd.specs.Spelling.{shortest};
ghost use Rattle.mz_logic_theory.specs.Tree.{more, trees_size};
ghost use Rattle.mz_logic_theory.specs.declared.binder.Binder.{Binder};
ghost use Rattle.mz_emit_theory.specs.SymbolicState.{from_to};
ghost use Rattle.mz_store.specs.Bits.{Tells, bound_vars};
ghost use Rattle.mz_store.specs.Sharing.{AreIn, IsIn, head_of, tree_of, trees_of};
ghost use Rattle.mz_emit_theory.specs.StreamWriting.{Writing, are_met, write, writing_start};
ghost use Rattle.mz_emit_bodies.specs.Places.{place_of};
ghost use Rattle.mz_emit.specs.Going.{CanSpell, CanSpellAll, Going, HasWritten, IsReady, IsStatement, Job, hyps_written, met_so_far, to_do};

use mz_cmd::{END, Mem, UnifyCode, put_cmd};
use mz_emit_bodies::Heap;
use mz_store::{Id, Store};
use std::alloc::Global;

/// A unify stream that is being written.
#[derive(Drop)]
pub struct Stream {
    heap: Heap,
    // the bits of the bound variables that are met
    met: u64,
    out: Vec<u8>,
    // what is to be spelled, the next last
    todo: Vec<Id>,
}

/// Appends a command, in its shortest spelling.
fn put(out: &mut Vec<u8>, code: UnifyCode, value: u32) -> Result<(), Mem>
    ensures { OnOk result (out.new.items ≡ out.old.items ++ shortest (unify_byte code) value) }
{
    put_cmd(out, code as u8, value)
}

/// Appends expressions, the first of them last.
fn push_turned(todo: &mut Vec<Id>, ids: &[Id]) -> Result<(), Mem>
    ensures { OnOk result (todo.new.items ≡ todo.old.items ++ reverse ids.now) }
{
    for id in ids.iter().rev() {
        todo.push(*id)?;
    }
    Ok(())
}

/// Whether all bits of a word are set in another.
fn are_within(bits: u64, others: u64) -> bool
    ensures { IsTrue result ↔ ((k : ℕ) → bit_at bits k ≡ 1 → bit_at others k ≡ 1) }
{
    bits & !others == 0
}

/// The bits of the bound ones among the first variables.
fn param_bits(store: &Store, params: u32) -> u64
    requires { (ps : List Binder) × (ds : List Binder) × IsStatement ps ds store.now × (length ps ≡ params) }
    ensures { (ps ds : List Binder) → IsStatement ps ds store.now → length ps ≡ params → Tells (bound_vars store.now.context) result (λ y. y < params) }
{
    let mut met = 0;
    for i in 0..params {
        met |= store.deps(Id(i));
    }
    met
}

impl Stream {
    /// An empty stream over so many parameters.
    pub fn new(alloc: Global, store: &Store, params: u32) -> Result<Stream, Mem>
        requires { (ps : List Binder) × (ds : List Binder) × IsStatement ps ds store.now × (length ps ≡ params) }
        ensures ready { IfOk result (λ t. (ps ds : List Binder) → IsStatement ps ds store.now → length ps ≡ params → IsReady ps ds store.now t (writing_start ps)) }
        ensures out { IfOk result (λ t. t.out.items ≡ []) }
    {
        let heap = Heap::new(alloc, params)?;
        Ok(Stream {
            heap,
            met: param_bits(store, params),
            out: Vec::new(alloc),
            todo: Vec::new(alloc),
        })
    }

    /// Spells an expression.
    pub fn spell(&mut self, store: &Store, root: Id) -> Result<(), Mem>
        requires inside { IsIn store.now root.0 }
        requires can { (ps : List Binder) × (ds : List Binder) × (w : Writing) × IsReady ps ds store.now self.old w × CanSpell ps ds w (tree_of store.now root.0) }
        ensures does { OnOk result ((ps ds : List Binder) (w : Writing) → IsReady ps ds store.now self.old w → CanSpell ps ds w (tree_of store.now root.0)
            → HasWritten ps ds store.now self.old self.new (write (from_to 0 ps) (ps ++ ds) w (tree_of store.now root.0))) }
    {
        self.spell_next(store, root)?;
        while let Some(id) = self.todo.pop() {
            self.spell_next(store, id)?;
        }
        Ok(())
    }

    /// Spells an expression up to its operands, which are to be spelled next.
    fn spell_next(&mut self, store: &Store, id: Id) -> Result<(), Mem>
        requires can { (o : Job) × Going o store.now self.old (id ∷ []) }
        ensures does { OnOk result ((o : Job) → Going o store.now self.old (id ∷ []) → Going o store.now self.new []) }
        ensures less { OnOk result (trees_size (to_do store.now self.new.todo.items) < trees_size (more (tree_of store.now id.0) (to_do store.now self.old.todo.items))) }
    {
        if let Some(place) = self.heap.place(id) {
            put(&mut self.out, UnifyCode::Ref, place)?;
            return Ok(());
        }
        match store.head(id) {
            None => self.meet(store, id),
            Some(term) => self.spell_term(store, id, term),
        }
    }

    /// Meets a dummy.
    fn meet(&mut self, store: &Store, id: Id) -> Result<(), Mem>
        requires can { (o : Job) × Going o store.now self.old (id ∷ []) }
        requires variable { head_of (tree_of store.now id.0) ≡ None }
        requires fresh { place_of self.old.heap.places.items id.0 ≡ None }
        ensures does { OnOk result ((o : Job) → Going o store.now self.old (id ∷ []) → Going o store.now self.new []) }
        ensures less { OnOk result (trees_size (to_do store.now self.new.todo.items) < trees_size (more (tree_of store.now id.0) (to_do store.now self.old.todo.items))) }
    {
        put(&mut self.out, UnifyCode::Dummy, store.sort_of(id))?;
        self.heap.push_expr(id)?;
        self.met |= store.deps(id);
        Ok(())
    }

    /// Spells the head of a term that has no mark. It gets one where all its dummies are met.
    fn spell_term(&mut self, store: &Store, id: Id, term: u32) -> Result<(), Mem>
        requires can { (o : Job) × Going o store.now self.old (id ∷ []) }
        requires head { head_of (tree_of store.now id.0) ≡ Some term }
        requires fresh { place_of self.old.heap.places.items id.0 ≡ None }
        ensures does { OnOk result ((o : Job) → Going o store.now self.old (id ∷ []) → Going o store.now self.new []) }
        ensures less { OnOk result (trees_size (to_do store.now self.new.todo.items) < trees_size (more (tree_of store.now id.0) (to_do store.now self.old.todo.items))) }
    {
        if self.has_met(store, id) {
            self.save(store, id, term)
        } else {
            self.build(store, id, term)
        }
    }

    /// Whether all dummies of the expression are met.
    fn has_met(&self, store: &Store, id: Id) -> bool
        requires { (o : Job) × Going o store.now self.now (id ∷ []) }
        ensures { (o : Job) (g : Going o store.now self.now (id ∷ [])) → result ≡ are_met (met_so_far o g.2.work) (tree_of store.now id.0) }
    {
        are_within(store.deps(id), self.met)
    }

    /// Spells the head of a term whose dummies are all met, and marks it.
    fn save(&mut self, store: &Store, id: Id, term: u32) -> Result<(), Mem>
        requires can { (o : Job) × Going o store.now self.old (id ∷ []) }
        requires head { head_of (tree_of store.now id.0) ≡ Some term }
        requires fresh { place_of self.old.heap.places.items id.0 ≡ None }
        requires met { (o : Job) (g : Going o store.now self.old (id ∷ [])) → are_met (met_so_far o g.2.work) (tree_of store.now id.0) ≡ true }
        ensures does { OnOk result ((o : Job) → Going o store.now self.old (id ∷ []) → Going o store.now self.new []) }
        ensures less { OnOk result (trees_size (to_do store.now self.new.todo.items) < trees_size (more (tree_of store.now id.0) (to_do store.now self.old.todo.items))) }
    {
        put(&mut self.out, UnifyCode::TermSave, term)?;
        self.heap.push_expr(id)?;
        push_turned(&mut self.todo, store.args(id))?;
        Ok(())
    }

    /// Spells the head of a term of which a dummy isn't met.
    fn build(&mut self, store: &Store, id: Id, term: u32) -> Result<(), Mem>
        requires can { (o : Job) × Going o store.now self.old (id ∷ []) }
        requires head { head_of (tree_of store.now id.0) ≡ Some term }
        requires fresh { place_of self.old.heap.places.items id.0 ≡ None }
        requires unmet { (o : Job) (g : Going o store.now self.old (id ∷ [])) → are_met (met_so_far o g.2.work) (tree_of store.now id.0) ≡ false }
        ensures does { OnOk result ((o : Job) → Going o store.now self.old (id ∷ []) → Going o store.now self.new []) }
        ensures less { OnOk result (trees_size (to_do store.now self.new.todo.items) < trees_size (more (tree_of store.now id.0) (to_do store.now self.old.todo.items))) }
    {
        put(&mut self.out, UnifyCode::Term, term)?;
        push_turned(&mut self.todo, store.args(id))?;
        Ok(())
    }

    /// Spells the hypotheses, the last one first.
    pub fn spell_hyps(&mut self, store: &Store, hyps: &[Id]) -> Result<(), Mem>
        requires inside { AreIn store.now hyps.now }
        requires can { (ps : List Binder) × (ds : List Binder) × (w : Writing) × IsReady ps ds store.now self.old w × CanSpellAll ps ds w (trees_of store.now hyps.now) }
        ensures does { OnOk result ((ps ds : List Binder) (w : Writing) → IsReady ps ds store.now self.old w → CanSpellAll ps ds w (trees_of store.now hyps.now)
            → HasWritten ps ds store.now self.old self.new (hyps_written ps ds store.now w (reverse hyps.now))) }
    {
        for hyp in hyps.iter().rev() {
            self.hyp()?;
            self.spell(store, *hyp)?;
        }
        Ok(())
    }

    /// The next hypothesis becomes what is spelled.
    fn hyp(&mut self) -> Result<(), Mem>
        ensures out { OnOk result (self.new.out.items ≡ self.old.out.items ++ shortest 0x36 0) }
        ensures heap { OnOk result (self.new.heap ≡ self.old.heap) }
        ensures met { OnOk result (self.new.met ≡ self.old.met) }
        ensures todo { OnOk result (self.new.todo ≡ self.old.todo) }
    {
        put(&mut self.out, UnifyCode::Hyp, 0)
    }

    /// The stream, ended.
    pub fn end(self) -> Result<Vec<u8>, Mem>
        ensures { IfOk result (λ bytes. bytes.items ≡ self.out.items ++ 0x00 ∷ []) }
    {
        let mut out = self.out;
        put_cmd(&mut out, END, 0)?;
        Ok(out)
    }
}
