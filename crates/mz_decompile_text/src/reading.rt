//! A unify stream, read command by command.
ghost use Rattle.std.specs.Prelude.{◌≡◌, ◌<◌, ◌+◌, ◌*◌, ◌↔◌, ◌∷◌, [], ◌++◌, ℕ, IfOk, IsTrue, List, MatchBool, OnOk, Some, length, map, reverse, slice_get};
ghost use Rattle.mz_logic_theory.specs.Tree.{Tree};
ghost use Rattle.mz_logic_theory.specs.declared.binder.Binder.{Binder};
ghost use Rattle.mz_machine_theory.specs.Spells.{Marks, Spells, SpellsHyps, at_first};
ghost use Rattle.mz_machine_theory.specs.Streams.{UnifyCommand, StreamIs, StreamKind, u_dummy, u_ref, u_term, u_term_save};
ghost use Rattle.mz_decompile_text.specs.Naming.{vocabulary_by};
ghost use Rattle.mz_decompile_text.specs.Phrasing.{Vocabulary, expression};
ghost use Rattle.mz_decompile_text.specs.Phrases.{Phrase};
ghost use Rattle.mz_decompile_text.specs.ByNumber.{Grows};
ghost use Rattle.mz_decompile_text.specs.Numbers.{AreAt, AreVariables};
ghost use Rattle.mz_decompile_text.specs.Frames.{Target};
ghost use Rattle.mz_decompile_text.specs.Reading.{IsAtHyp, IsBetween, IsComplete, IsGoing, IsNext, IsOpened, IsSame, IsSet, Over};

use crate::command::first_step;
use crate::gathered::{gather, parts_from, push_term, push_variable};
use crate::{PairNames, Phrases};
use mz_cmd::{Mem, UnifyCode};
use mz_layout_tables::Mmb;
use mz_logic_theory::Terms;
use std::alloc::Global;

/// An application that is being read: from where its parts stand among those that are read, up to where they will, and
/// its mark, where it is saved.
#[derive(Clone, Copy)]
pub(crate) struct Open {
    pub from: usize,
    pub to: usize,
    pub mark: Option<usize>,
}

/// A unify stream that is being read.
#[derive(Drop)]
pub(crate) struct Reading<'a> {
    pub alloc: Global,
    /// What is left of it.
    pub stream: &'a [u8],
    pub params: u32,
    /// The phrase of each mark. That of an application that is being read isn't there yet.
    pub marks: Vec<usize>,
    /// The sorts of the dummies that are met.
    pub dummies: Vec<u32>,
    /// The tokens and operands, so far, of the applications that are being read.
    pub read: Vec<usize>,
    /// These, the innermost last.
    pub pending: Vec<Open>,
}

impl<'a> Reading<'a> {
    /// The stream, of which nothing is read, over so many parameters, whose tokens are pushed.
    pub fn new(
        alloc: Global,
        names: &PairNames,
        stream: &'a [u8],
        params: u32,
        phrases: &mut Phrases,
    ) -> Result<Reading<'a>, Mem>
        ensures grows { Grows phrases.old phrases.new }
        ensures ready { IfOk result (λ r. (file : List ℕ) (o : Over file) (binders : List Binder) (us : List UnifyCommand)
            → o.params ≡ params → length binders ≡ params → StreamIs o.kind stream.now us
            → IsBetween file o (vocabulary_by names.now) phrases.new r (at_first binders) us) }
    {
        let marks = push_params(alloc, names, params, phrases)?;
        Ok(Reading {
            alloc,
            stream,
            params,
            marks,
            dummies: Vec::new(alloc),
            read: Vec::new(alloc),
            pending: Vec::new(alloc),
        })
    }

    /// Reads the hypotheses, which stand in the stream from the last to the first. The result is their phrases, the
    /// first one first.
    pub fn hypotheses(
        &mut self,
        mmb: &Mmb,
        names: &PairNames,
        phrases: &mut Phrases,
    ) -> Result<Vec<usize>, Mem>
        requires can { (o : Over mmb.now) × (m : Marks) × (us : List UnifyCommand) × (hs : List Tree) × (last : Marks)
            × IsBetween mmb.now o (vocabulary_by names.now) phrases.old self.old m us × SpellsHyps o.params o.sigs m us hs last }
        ensures grows { Grows phrases.old phrases.new }
        ensures does { IfOk result (λ ns. (o : Over mmb.now) (m : Marks) (us : List UnifyCommand) (hs : List Tree) (last : Marks)
            → IsBetween mmb.now o (vocabulary_by names.now) phrases.old self.old m us → SpellsHyps o.params o.sigs m us hs last
            → AreAt phrases.new ns.items (map (expression (vocabulary_by names.now)) (reverse hs))) }
    {
        let mut numbers = Vec::new(self.alloc);
        'hyps: while self.next_hyp() {
            let number = self.expression(mmb, names, phrases)?;
            numbers.push(number)?;
        }
        numbers.reverse();
        Ok(numbers)
    }

    /// Reads the command of a hypothesis, if there is one: as the row spells, only this or the END can be next.
    fn next_hyp(&mut self) -> bool
        requires can { (file : List ℕ) × (o : Over file) × (m : Marks) × (us : List UnifyCommand) × (hs : List Tree) × (last : Marks)
            × StreamIs o.kind self.old.stream.now us × SpellsHyps o.params o.sigs m us hs last }
        ensures does { (file : List ℕ) (o : Over file) (v : Vocabulary) (ps : List Phrase) (m : Marks) (us : List UnifyCommand) (hs : List Tree) (last : Marks)
            → IsBetween file o v ps self.old m us → SpellsHyps o.params o.sigs m us hs last
            → MatchBool result (IsAtHyp file o v ps self.new m hs last) (hs ≡ []) }
        ensures less { IsTrue result → length self.new.stream.now < length self.old.stream.now }
    {
        match first_step(self.stream) {
            Some(step) => {
                self.stream = step.rest;
                true
            }
            None => false,
        }
    }

    /// Reads an expression. The result is its phrase.
    pub fn expression(
        &mut self,
        mmb: &Mmb,
        names: &PairNames,
        phrases: &mut Phrases,
    ) -> Result<usize, Mem>
        requires can { (o : Over mmb.now) × (t : Target) × (m : Marks) × (us : List UnifyCommand)
            × IsBetween mmb.now o (vocabulary_by names.now) phrases.old self.old m us × Spells o.params o.sigs m us t.tree t.after t.rest }
        ensures grows { Grows phrases.old phrases.new }
        ensures does { IfOk result (λ n. (o : Over mmb.now) (t : Target) (m : Marks) (us : List UnifyCommand)
            → IsBetween mmb.now o (vocabulary_by names.now) phrases.old self.old m us → Spells o.params o.sigs m us t.tree t.after t.rest
            → IsBetween mmb.now o (vocabulary_by names.now) phrases.new self.new t.after t.rest
            × (slice_get phrases.new n ≡ Some (expression (vocabulary_by names.now) t.tree))) }
        ensures less { OnOk result (length self.new.stream.now < length self.old.stream.now) }
    {
        self.step(mmb, names, phrases)?;
        'pending: while !self.pending.is_empty() {
            self.go_on(mmb, names, phrases)?;
        }
        let Some(number) = self.read.pop() else {
            unreachable!();
        };
        Ok(number)
    }

    /// Ends the innermost application where its last operand is read, or else reads a command.
    fn go_on(&mut self, mmb: &Mmb, names: &PairNames, phrases: &mut Phrases) -> Result<(), Mem>
        requires can { (o : Over mmb.now) × (t : Target) × IsGoing mmb.now o (vocabulary_by names.now) phrases.old self.old t }
        requires some { self.old.pending.items ≡ [] → ⊥ }
        ensures grows { Grows phrases.old phrases.new }
        ensures does { OnOk result ((o : Over mmb.now) (t : Target) → IsGoing mmb.now o (vocabulary_by names.now) phrases.old self.old t
            → IsGoing mmb.now o (vocabulary_by names.now) phrases.new self.new t) }
        ensures less { OnOk result (2 * length self.new.stream.now + length self.new.pending.items < 2 * length self.old.stream.now + length self.old.pending.items) }
    {
        if self.is_complete() {
            self.close(phrases)
        } else {
            self.step(mmb, names, phrases)
        }
    }

    /// Whether all operands of the innermost application are read.
    fn is_complete(&self) -> bool
        ensures { IsTrue result ↔ IsComplete self.now }
    {
        match self.pending.last().copied() {
            Some(last) => last.to == self.read.len(),
            None => false,
        }
    }

    /// Ends the innermost application, whose operands are read.
    fn close(&mut self, phrases: &mut Phrases) -> Result<(), Mem>
        requires can { (file : List ℕ) × (v : Vocabulary) × (o : Over file) × (t : Target) × IsGoing file o v phrases.old self.old t }
        requires complete { IsComplete self.old }
        ensures grows { Grows phrases.old phrases.new }
        ensures does { OnOk result ((file : List ℕ) (v : Vocabulary) (o : Over file) (t : Target) → IsGoing file o v phrases.old self.old t
            → IsGoing file o v phrases.new self.new t) }
        ensures less { OnOk result (2 * length self.new.stream.now + length self.new.pending.items < 2 * length self.old.stream.now + length self.old.pending.items) }
    {
        let Some(last) = self.pending.pop() else {
            unreachable!();
        };
        let number = gather(phrases, parts_from(&self.read, last.from))?;
        self.read.truncate(last.from);
        set_mark(&mut self.marks, last.mark, number);
        self.read.push(number)?;
        Ok(())
    }

    /// Reads a command where an expression is next.
    fn step(&mut self, mmb: &Mmb, names: &PairNames, phrases: &mut Phrases) -> Result<(), Mem>
        requires can { (o : Over mmb.now) × (t : Target) × IsNext mmb.now o (vocabulary_by names.now) phrases.old self.old t [] }
        ensures grows { Grows phrases.old phrases.new }
        ensures does { OnOk result ((o : Over mmb.now) (t : Target) → IsNext mmb.now o (vocabulary_by names.now) phrases.old self.old t []
            → IsGoing mmb.now o (vocabulary_by names.now) phrases.new self.new t) }
        ensures less { OnOk result (2 * length self.new.stream.now + length self.new.pending.items < 2 * length self.old.stream.now + length self.old.pending.items) }
    {
        let Some(step) = first_step(self.stream) else {
            unreachable!();
        };
        self.stream = step.rest;
        match step.code {
            UnifyCode::Term => self.begin(mmb, names, step.value, phrases),
            UnifyCode::TermSave => self.begin_saved(mmb, names, step.value, phrases),
            UnifyCode::Ref => self.refer(step.value),
            UnifyCode::Dummy => self.meet(names, step.value, phrases),
            UnifyCode::Hyp => unreachable!(),
        }
    }

    /// Begins an application of the term.
    fn begin(
        &mut self,
        mmb: &Mmb,
        names: &PairNames,
        term: u32,
        phrases: &mut Phrases,
    ) -> Result<(), Mem>
        requires can { (o : Over mmb.now) × (t : Target) × IsNext mmb.now o (vocabulary_by names.now) phrases.old self.old t (u_term term ∷ []) }
        ensures grows { Grows phrases.old phrases.new }
        ensures does { OnOk result ((o : Over mmb.now) (t : Target) → IsNext mmb.now o (vocabulary_by names.now) phrases.old self.old t (u_term term ∷ [])
            → IsGoing mmb.now o (vocabulary_by names.now) phrases.new self.new t) }
        ensures stream { self.new.stream ≡ self.old.stream }
        ensures begun { OnOk result (length self.new.pending.items ≡ length self.old.pending.items + 1) }
    {
        let word = push_term(names, term, phrases)?;
        self.push_open(word, mmb.arity(term), None)
    }

    /// Begins an application of the term that is marked.
    fn begin_saved(
        &mut self,
        mmb: &Mmb,
        names: &PairNames,
        term: u32,
        phrases: &mut Phrases,
    ) -> Result<(), Mem>
        requires can { (o : Over mmb.now) × (t : Target) × IsNext mmb.now o (vocabulary_by names.now) phrases.old self.old t (u_term_save term ∷ []) }
        ensures grows { Grows phrases.old phrases.new }
        ensures does { OnOk result ((o : Over mmb.now) (t : Target) → IsNext mmb.now o (vocabulary_by names.now) phrases.old self.old t (u_term_save term ∷ [])
            → IsGoing mmb.now o (vocabulary_by names.now) phrases.new self.new t) }
        ensures stream { self.new.stream ≡ self.old.stream }
        ensures begun { OnOk result (length self.new.pending.items ≡ length self.old.pending.items + 1) }
    {
        let word = push_term(names, term, phrases)?;
        let mark = self.marks.len();
        self.marks.push(word)?;
        self.push_open(word, mmb.arity(term), Some(mark))
    }

    /// Begins an application with this token and so many operands.
    fn push_open(&mut self, word: usize, operands: u32, mark: Option<usize>) -> Result<(), Mem>
        ensures same { IsSame self.old self.new }
        ensures ok { OnOk result (IsOpened self.old self.new word operands mark) }
    {
        let from = self.read.len();
        self.read.push(word)?;
        self.pending.push(Open {
            from,
            to: from + (operands as usize + 1),
            mark,
        })?;
        Ok(())
    }

    /// Reads what has a mark.
    fn refer(&mut self, mark: u32) -> Result<(), Mem>
        requires can { (file : List ℕ) × (v : Vocabulary) × (ps : List Phrase) × (o : Over file) × (t : Target) × IsNext file o v ps self.old t (u_ref mark ∷ []) }
        ensures does { OnOk result ((file : List ℕ) (v : Vocabulary) (ps : List Phrase) (o : Over file) (t : Target) → IsNext file o v ps self.old t (u_ref mark ∷ [])
            → IsGoing file o v ps self.new t) }
        ensures stream { self.new.stream ≡ self.old.stream }
        ensures begun { self.new.pending ≡ self.old.pending }
    {
        let Some(number) = phrase_at(&self.marks, mark) else {
            unreachable!();
        };
        self.read.push(number)?;
        Ok(())
    }

    /// Meets a dummy of the sort.
    fn meet(&mut self, names: &PairNames, sort: u32, phrases: &mut Phrases) -> Result<(), Mem>
        requires can { (file : List ℕ) × (o : Over file) × (t : Target) × IsNext file o (vocabulary_by names.now) phrases.old self.old t (u_dummy sort ∷ []) }
        ensures grows { Grows phrases.old phrases.new }
        ensures does { OnOk result ((file : List ℕ) (o : Over file) (t : Target) → IsNext file o (vocabulary_by names.now) phrases.old self.old t (u_dummy sort ∷ [])
            → IsGoing file o (vocabulary_by names.now) phrases.new self.new t) }
        ensures stream { self.new.stream ≡ self.old.stream }
        ensures begun { self.new.pending ≡ self.old.pending }
    {
        let number = push_variable(
            self.alloc,
            names,
            self.params as usize + self.dummies.len(),
            phrases,
        )?;
        self.dummies.push(sort)?;
        self.marks.push(number)?;
        self.read.push(number)?;
        Ok(())
    }
}

/// The phrase of a mark, if there is one.
fn phrase_at(marks: &[usize], mark: u32) -> Option<usize>
    ensures { result ≡ slice_get marks.now mark }
{
    marks.get(mark as usize).copied()
}

/// Pushes the tokens of the first variables.
fn push_params(
    alloc: Global,
    names: &PairNames,
    count: u32,
    phrases: &mut Phrases,
) -> Result<Vec<usize>, Mem>
    ensures grows { Grows phrases.old phrases.new }
    ensures words { IfOk result (λ ns. AreVariables (vocabulary_by names.now) phrases.new ns.items count) }
{
    let mut words = Vec::new(alloc);
    for i in 0..count {
        let word = push_variable(alloc, names, i as usize, phrases)?;
        words.push(word)?;
    }
    Ok(words)
}

/// The mark, if there is one, has this phrase now.
fn set_mark(marks: &mut Vec<usize>, mark: Option<usize>, number: usize)
    requires { (i : ℕ) → mark ≡ Some i → i < length marks.old.items }
    ensures { IsSet marks.old.items mark number marks.new.items }
{
    if let Some(i) = mark {
        marks[i] = number;
    }
}
