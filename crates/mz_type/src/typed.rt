//! Checking the type rules of a whole text, over what stands before each statement.
ghost use Rattle.std.specs.Prelude.{◌≡◌, ◌<◌, ◌^◌, ◌∷◌, [], ◌++◌, IfOk, IfErr, OnOk, ℕ, List, length, map};
ghost use Rattle.mz_sexpr.specs.Node.{parts};
ghost use Rattle.mz_sexpr.specs.Number.{first};
ghost use Rattle.mz_base.specs.Gaps.{gaps_of};
ghost use Rattle.mz_mmu_theory.specs.StatementView.{option_proof};
ghost use Rattle.mz_mmu_theory.specs.Statements.{is_local_word, Reads};
ghost use Rattle.mz_mmu.specs.EntryView.{entry as statement, IsRooted};
ghost use Rattle.mz_type_rules.specs.Answers.{Judged, stated};
ghost use Rattle.mz_mmu_theory.specs.Names.{StatementThere};
ghost use Rattle.mz_mmu_theory.specs.Rules.{statement_rules};
ghost use Rattle.mz_mmu_theory.specs.Meaning.{LegalAsStated};
ghost use Rattle.mz_mmu_theory.specs.TextRules.{text_rules};
ghost use Rattle.mz_type.specs.StatedView.{statements_of};
ghost use Rattle.mz_mmu.specs.TextStops.{TextStops};
ghost use Rattle.mz_type.specs.Typing.{IsTyping, IsTypingOf, IsRefusal};
ghost use Rattle.mz_mmu_theory.specs.Weight.{declaration_weight};

use crate::consume::take_last;
use crate::instance_sizes::Shaped;
use crate::weights::statement_weight;
use mz_base::Mode;
use mz_logic_theory::{Binders, Decl, Env};
use mz_mmu::{Entry, Text, TextStop, in_statement};
use mz_mmu_theory::{Proof, ProofBox, Stop};
use mz_sexpr::{Sexprs, TextRefusal};
use mz_type_rules::{Cursor, check_statement, proof_in};
use std::alloc::Global;
use std::marker::Model;

/// What a statement says beside its declaration.
#[derive(Drop)]
pub struct Beside<'a> {
    /// Whether it's local.
    pub is_local: bool,
    /// The name, as it stands in the text.
    pub name: &'a [u8],
    /// A theorem's dummies; a definition's stand in its declaration.
    pub dummies: Binders,
    /// A theorem's proof; nothing else has one.
    pub proof: Option<ProofBox>,
}

impl<'a> Beside<'a> {
    /// A theorem's proof; nothing else has one.
    pub fn proof(&self) -> Option<&Proof>
        ensures { stated result ≡ option_proof self.now.proof }
    {
        proof_in(&self.proof)
    }
}

/// A well-typed text: its statements alone, since no later fault is reported at a node.
#[derive(Drop)]
pub struct Typed<'a> {
    pub(crate) mode: Mode,
    // what they declare
    pub(crate) env: Env,
    // what each says beside it
    pub(crate) beside: Vec<Beside<'a>>,
    // what they weigh
    pub(crate) weight: u128,
}

impl<'a> Model for Typed<'a> {
    ghost use Rattle.mz_type.specs.StatedView.{Stated, stated_code};

    ghost Value = { Stated };

    ghost coded = { stated_code };

    ghost use Rattle.mz_base.specs.Gaps.{gaps_of};
    ghost use Rattle.mz_type.specs.StatedView.{statements_of, IsTyped};

    ghost view = { λ a. record { gaps = gaps_of a.mode; statements = statements_of a.env a.beside.items } };

    ghost invariant = { λ a. IsTyped (gaps_of a.mode) a.env a.beside.items a.weight };
}

/// What checking the type rules of a text answers.
#[derive(Drop)]
pub enum TypedRead<'a> {
    /// The text is well typed.
    Typed(Typed<'a>),
    /// The first type rule that it breaks.
    Refused(TextRefusal),
    /// No memory was left.
    Mem,
}

/// The rules of a statement, whose node is the first, over those before it; what it declares is added
/// to what stands before the next, and what it says beside that to what others say.
fn declare_statement<'a>(
    alloc: Global,
    env: &mut Shaped,
    beside: &mut Vec<Beside<'a>>,
    entry: Entry<'a>,
    nodes: &Cursor,
) -> Result<(), Stop>
    requires there { StatementThere env.old (statement entry) }
    requires marked { is_local_word (first (parts (first nodes.now))) ≡ entry.is_local }
    requires room { length env.old < 4294967295 }
    requires small { declaration_weight (statement entry).decl < 2 ^ 64 }
    requires many { length env.old ≡ length beside.old.items }
    ensures judged { Judged result (statement_rules env.old (statement entry.entry) (first nodes.now)) }
    ensures more { OnOk result (env.new ≡ env.old ++ (statement entry.entry).decl ∷ []) }
    ensures many { OnOk result (length env.new ≡ length beside.new.items) }
    ensures told { OnOk result (statements_of env.new beside.new.items ≡ statements_of env.old beside.old.items ++ statement entry.entry ∷ []) }
{
    check_statement(alloc, env.env(), entry.is_local, &entry.declared, nodes)?;
    let declared = entry.declared;
    env.push(alloc, declared.decl)?;
    beside.push(Beside {
        is_local: entry.is_local,
        name: declared.name,
        dummies: declared.dummies,
        proof: declared.proof,
    })?;
    Ok(())
}

/// The statements, and what they weigh, where all of their type rules hold.
fn check_statements<'a>(
    alloc: Global,
    mode: Mode,
    nodes: &Sexprs,
    mut entries: Vec<Entry<'a>>,
) -> Result<Typed<'a>, TextStop>
    requires { IsRooted (gaps_of mode) nodes.now entries.items }
    ensures mode { IfOk result (λ typed. typed.gaps ≡ gaps_of mode) }
    ensures typed { IfOk result (λ typed. typed.statements ≡ map statement entries.entry.items) }
    ensures legal { IfOk result (λ typed. LegalAsStated typed.gaps typed.statements) }
    ensures stops { IfErr result (λ stop. TextStops stop (text_rules nodes.now (map statement entries.entry.items))) }
{
    // the number of nodes is one of 32 bits: no sum of weights overflows
    let _nodes = nodes.count();
    let Ok(mut beside) = Vec::with_capacity(alloc, entries.len()) else {
        return Err(TextStop::Mem);
    };
    let mut env = Shaped::new(alloc);
    let mut weight: u128 = 0;
    let mut number: u32 = 0;
    let mut left = Cursor::top(nodes);
    // from the last one on, so that they can be taken from the end
    entries.reverse();
    while let Some(entry) = take_last(&mut entries) {
        number += 1;
        weight += statement_weight(&env, &entry);
        if let Err(stop) = declare_statement(alloc, &mut env, &mut beside, entry, &left) {
            return Err(in_statement(number, stop));
        }
        left = left.rest();
    }
    Ok(Typed {
        mode,
        env: env.into_env(),
        beside,
        weight,
    })
}

/// The answer where a text isn't typed.
fn refused<'a>(stop: TextStop) -> TypedRead<'a>
    ensures { IsRefusal stop result }
{
    match stop {
        TextStop::Refused(refusal) => TypedRead::Refused(refusal),
        TextStop::Mem => TypedRead::Mem,
    }
}

/// Checks the type rules of a text, statement by statement: the text is well typed, or breaks one of
/// them first.
pub fn check_text<'a>(alloc: Global, text: Text<'a>) -> TypedRead<'a>
    ensures answer { IsTyping text.entry result }
    ensures bytes { (bytes : List ℕ) → Reads text.entry.gaps bytes text.entry.nodes text.entry.statements → IsTypingOf bytes text.entry result }
{
    let mode = text.mode();
    let (nodes, entries) = text.into_parts();
    match check_statements(alloc, mode, &nodes, entries) {
        Ok(typed) => TypedRead::Typed(typed),
        Err(stop) => refused(stop),
    }
}

impl<'a> Typed<'a> {
    ghost use Rattle.std.specs.Prelude.{◌≡◌, ◌<◌, length, option_map, slice_get, Some};
    ghost use Rattle.mz_logic_theory.specs.DeclView.{declaration};
    ghost use Rattle.mz_mmu_theory.specs.ProofView.{proof_view};
    ghost use Rattle.mz_mmu_theory.specs.Meaning.{LegalAsStated};
    ghost use Rattle.mz_type.specs.StatedView.{AreRead};

    /// How many statements there are.
    pub fn len(&self) -> u32
        ensures many { result ≡ length self.now.statements }
        ensures read { AreRead self.now.gaps self.now.statements }
        ensures legal { LegalAsStated self.now.gaps self.now.statements }
    {
        self.env.len() as u32
    }

    /// The i-th statement's name, from 0.
    pub fn name(&self, i: u32) -> &'a [u8]
        requires { i < length self.now.statements }
        ensures { option_map (λ s. s.name) (slice_get self.now.statements i) ≡ Some result.now }
    {
        self.beside[i as usize].name
    }

    /// Whether it is declared local.
    pub fn is_local(&self, i: u32) -> bool
        requires { i < length self.now.statements }
        ensures { option_map (λ s. s.is_local) (slice_get self.now.statements i) ≡ Some result }
    {
        self.beside[i as usize].is_local
    }

    /// What it declares.
    pub fn decl(&self, i: u32) -> &Decl
        requires { i < length self.now.statements }
        ensures { option_map (λ s. s.decl) (slice_get self.now.statements i) ≡ Some (declaration result.now) }
    {
        match self.env.get(i as usize) {
            Some(decl) => decl,
            None => unreachable!(),
        }
    }

    /// A theorem's dummies; a definition's stand in its declaration.
    pub fn dummies(&self, i: u32) -> &Binders
        requires { i < length self.now.statements }
        ensures { option_map (λ s. s.dummies) (slice_get self.now.statements i) ≡ Some result.now }
    {
        &self.beside[i as usize].dummies
    }

    /// A theorem's proof; nothing else has one.
    pub fn proof(&self, i: u32) -> Option<&Proof>
        requires { i < length self.now.statements }
        ensures { option_map (λ s. s.proof) (slice_get self.now.statements i) ≡ Some (option_map (λ p. proof_view p.now) result) }
    {
        proof_in(&self.beside[i as usize].proof)
    }

    /// What the statements declare, and what each says beside it.
    pub fn into_parts(self) -> (Env, Vec<Beside<'a>>)
        ensures statements { statements_of result.0 result.1.items ≡ self.entry.statements }
        ensures many { length result.0 ≡ length result.1.items }
    {
        (self.env, self.beside)
    }
}
