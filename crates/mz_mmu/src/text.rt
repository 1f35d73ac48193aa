//! Reading a whole text.
ghost use Rattle.std.specs.Prelude.{◌≡◌, ◌<◌, ◌^◌, ◌-◌, ◌++◌, ◌∷◌, [], length, IfOk, IfErr, OnOk};
ghost use Rattle.mz_logic_theory.specs.DeclView.{declaration};
ghost use Rattle.mz_base.specs.Gaps.{gaps_of};
ghost use Rattle.mz_mmu_theory.specs.Name.{IsName, no_names, names_with};
ghost use Rattle.mz_mmu_theory.specs.NamesMore.{IsUnused, AreFew};
ghost use Rattle.mz_mmu.specs.EntryView.{IsRooted};
ghost use Rattle.mz_mmu_theory.specs.StatementOrder.{statements_asked};
ghost use Rattle.mz_mmu_forms.specs.ScopeView.{names as names_view};
ghost use Rattle.mz_mmu.specs.TextRead.{IsReading};
ghost use Rattle.mz_mmu.specs.TextStops.{IsStopped, TextStops, IsRefusal};
ghost use Rattle.mz_mmu_theory.specs.Cursor.{nodes_size};

use crate::statement;
use mz_base::{Hashing, Mode};
use mz_logic_theory::{Binders, Decl};
use mz_mmu_forms::{NameTable, Reader};
use mz_mmu_theory::{Declared, Fault, Proof, Stop};
use mz_sexpr::{SexprRead, Sexprs, TextRefusal, read_sexprs};
use std::alloc::{AllocError, Global};
use std::marker::Model;

/// A statement of a text.
#[derive(Drop)]
pub struct Entry<'a> {
    /// The number of its node.
    pub root: u32,
    /// Whether it's local.
    pub is_local: bool,
    /// What it declares.
    pub declared: Declared<'a>,
}

/// A text: its nodes, and its statements with names resolved, whose proofs may have gaps in a draft.
#[derive(Drop)]
pub struct Text<'a> {
    mode: Mode,
    nodes: Sexprs<'a>,
    entries: Vec<Entry<'a>>,
}

impl<'a> Model for Text<'a> {
    ghost use Rattle.mz_mmu_theory.specs.TextView.{Forms, forms_code};

    ghost Value = { Forms };

    ghost coded = { forms_code };

    ghost use Rattle.mz_mmu.specs.EntryView.{forms, IsRooted};
    ghost use Rattle.mz_base.specs.Gaps.{gaps_of};

    ghost view = { λ a. forms a.mode a.nodes a.entries.items };

    ghost invariant = { λ a. IsRooted (gaps_of a.mode) a.nodes a.entries.items };
}

/// What reading a text answers.
#[derive(Drop)]
pub enum TextRead<'a> {
    /// The text's statements.
    Text(Text<'a>),
    /// The first of its bytes, parentheses, forms and names that is wrong.
    Refused(TextRefusal),
    /// No memory was left.
    Mem,
}

/// Why reading or checking a text stops.
#[derive(Clone, Copy)]
pub enum TextStop {
    /// The first rule that it breaks.
    Refused(TextRefusal),
    /// No memory was left.
    Mem,
}

/// What the stop of the statement of this number, from 1, is to the text.
pub fn in_statement(statement: u32, stop: Stop) -> TextStop
    ensures { IsStopped statement stop result }
{
    match stop {
        Stop::Refused(Fault { at, rule }) => TextStop::Refused(TextRefusal {
            statement,
            at,
            rule,
        }),
        Stop::Mem => TextStop::Mem,
    }
}

/// Puts a statement behind the others, and its name to theirs.
fn put<'a>(
    names: &mut NameTable<'a>,
    entries: &mut Vec<Entry<'a>>,
    entry: Entry<'a>,
) -> Result<(), AllocError>
    requires name { IsName entry.declared.name.now }
    requires unused { IsUnused (names_view names.old) entry.declared.name.now (declaration entry.declared.decl) }
    requires few { AreFew (names_view names.old) (2 ^ 32 - 2) }
    ensures named { OnOk result (names_view names.new ≡ names_with (names_view names.old) entry.entry.declared.name.now (declaration entry.entry.declared.decl)) }
    ensures listed { OnOk result (entries.new.items ≡ entries.old.items ++ (entry.entry ∷ [])) }
{
    names.add(entry.declared.name, &entry.declared.decl)?;
    entries.push(entry)?;
    Ok(())
}

/// Puts the statements of a text's nodes behind no others, and their names to no others.
fn read_all<'a>(
    alloc: Global,
    nodes: &Sexprs<'a>,
    names: &mut NameTable<'a>,
    entries: &mut Vec<Entry<'a>>,
) -> Result<(), TextStop>
    requires few { nodes_size nodes.now < 2 ^ 32 }
    requires no_names { names_view names.old ≡ no_names (gaps_of names.old.mode) }
    requires no_entries { entries.old.items ≡ [] }
    ensures read { OnOk result (IsRooted (gaps_of names.old.mode) nodes.now entries.new.items) }
    ensures stops { IfErr result (λ stop. TextStops stop (statements_asked 1 (no_names (gaps_of names.old.mode)) nodes.now)) }
{
    let reader = Reader { alloc, nodes };
    let mut left = nodes.roots();
    while let Some(n) = left {
        let number = entries.len() as u32 + 1;
        let (is_local, declared) = match statement(&reader, names, n) {
            Ok(read) => read,
            Err(stop) => return Err(in_statement(number, stop)),
        };
        let entry = Entry {
            root: n,
            is_local,
            declared,
        };
        let Ok(()) = put(names, entries, entry) else {
            return Err(TextStop::Mem);
        };
        left = nodes.next(n);
    }
    Ok(())
}

/// The statements of a text's nodes, whose names are put to no others.
fn read_named<'a>(
    alloc: Global,
    nodes: &Sexprs<'a>,
    names: &mut NameTable<'a>,
) -> Result<Vec<Entry<'a>>, TextStop>
    requires few { nodes_size nodes.now < 2 ^ 32 }
    requires no_names { names_view names.old ≡ no_names (gaps_of names.old.mode) }
    ensures read { IfOk result (λ entries. IsRooted (gaps_of names.old.mode) nodes.now entries.items) }
    ensures stops { IfErr result (λ stop. TextStops stop (statements_asked 1 (no_names (gaps_of names.old.mode)) nodes.now)) }
{
    let mut entries: Vec<Entry<'a>> = Vec::new(alloc);
    read_all(alloc, nodes, names, &mut entries)?;
    Ok(entries)
}

/// The statements of a text's nodes.
fn read_entries<'a>(
    alloc: Global,
    hashing: Hashing,
    nodes: &Sexprs<'a>,
    mode: Mode,
) -> Result<Vec<Entry<'a>>, TextStop>
    requires { nodes_size nodes.now < 2 ^ 32 }
    ensures read { IfOk result (λ entries. IsRooted (gaps_of mode) nodes.now entries.items) }
    ensures stops { IfErr result (λ stop. TextStops stop (statements_asked 1 (no_names (gaps_of mode)) nodes.now)) }
{
    read_named(alloc, nodes, &mut NameTable::new(alloc, hashing, mode))
}

/// The answer where a text has no statements.
fn refused<'a>(stop: TextStop) -> TextRead<'a>
    ensures { IsRefusal stop result }
{
    match stop {
        TextStop::Refused(refusal) => TextRead::Refused(refusal),
        TextStop::Mem => TextRead::Mem,
    }
}

/// Reads a text: its statements, or the first of its bytes, parentheses, forms and names that is
/// wrong. The text has at most 4,294,967,295 bytes. Only in a draft may its proofs have gaps. Its names
/// are hashed by `hashing`.
pub fn read_text<'a>(alloc: Global, hashing: Hashing, text: &'a [u8], mode: Mode) -> TextRead<'a>
    requires { length text.now < 2 ^ 32 }
    ensures { IsReading (gaps_of mode) text.now result }
{
    match read_sexprs(alloc, text) {
        SexprRead::Nodes(nodes) => match read_entries(alloc, hashing, &nodes, mode) {
            Ok(entries) => TextRead::Text(Text {
                mode,
                nodes,
                entries,
            }),
            Err(stop) => refused(stop),
        },
        SexprRead::Refused(refusal) => TextRead::Refused(refusal),
        SexprRead::Mem => TextRead::Mem,
    }
}

impl<'a> Text<'a> {
    ghost use Rattle.std.specs.Prelude.{◌≡◌, ◌<◌, length, map, option_map, slice_get, Some};
    ghost use Rattle.mz_logic_theory.specs.DeclView.{declaration};
    ghost use Rattle.mz_sexpr.specs.Number.{node_count, node_at};
    ghost use Rattle.mz_mmu.specs.EntryView.{entry, IsRooted};
    ghost use Rattle.mz_mmu_theory.specs.ProofView.{proof_view};
    ghost use Rattle.mz_mmu_theory.specs.Name.{no_names};
    ghost use Rattle.mz_mmu_theory.specs.Statements.{AreStatements};
    ghost use Rattle.mz_mmu.specs.TextRead.{listed};
    ghost use Rattle.mz_base.specs.Gaps.{gaps_of};

    /// Whether its proofs may have gaps.
    pub fn mode(&self) -> Mode
        ensures { gaps_of result ≡ self.now.gaps }
    {
        self.mode
    }

    /// How many statements there are.
    pub fn len(&self) -> u32
        ensures many { result ≡ length self.now.statements }
        ensures read { AreStatements (no_names self.now.gaps) self.now.nodes self.now.statements }
    {
        self.entries.len() as u32
    }

    /// The i-th statement's name, from 0.
    pub fn name(&self, i: u32) -> &'a [u8]
        requires { i < length self.now.statements }
        ensures { option_map (λ s. s.name) (slice_get self.now.statements i) ≡ Some result.now }
    {
        self.entries[i as usize].declared.name
    }

    /// Whether it is declared local.
    pub fn is_local(&self, i: u32) -> bool
        requires { i < length self.now.statements }
        ensures { option_map (λ s. s.is_local) (slice_get self.now.statements i) ≡ Some result }
    {
        self.entries[i as usize].is_local
    }

    /// What it declares.
    pub fn decl(&self, i: u32) -> &Decl
        requires { i < length self.now.statements }
        ensures { option_map (λ s. s.decl) (slice_get self.now.statements i) ≡ Some (declaration result.now) }
    {
        &self.entries[i as usize].declared.decl
    }

    /// A theorem's dummies; a definition's stand in its declaration.
    pub fn dummies(&self, i: u32) -> &Binders
        requires { i < length self.now.statements }
        ensures { option_map (λ s. s.dummies) (slice_get self.now.statements i) ≡ Some result.now }
    {
        &self.entries[i as usize].declared.dummies
    }

    /// A theorem's proof; nothing else has one.
    pub fn proof(&self, i: u32) -> Option<&Proof>
        requires { i < length self.now.statements }
        ensures { option_map (λ s. s.proof) (slice_get self.now.statements i) ≡ Some (option_map (λ p. proof_view p.now) result) }
    {
        match &self.entries[i as usize].declared.proof {
            None => None,
            Some(proof) => Some(proof.get()),
        }
    }

    /// The text's nodes, and its statements.
    pub fn into_parts(self) -> (Sexprs<'a>, Vec<Entry<'a>>)
        ensures nodes { result.0 ≡ self.entry.nodes }
        ensures statements { map entry result.1.items ≡ self.entry.statements }
        ensures rooted { IsRooted self.entry.gaps result.0 result.1.items }
    {
        (self.nodes, self.entries)
    }

    /// The text's nodes.
    pub fn sexprs(&self) -> &Sexprs<'a>
        ensures { result.now ≡ self.now.nodes }
    {
        &self.nodes
    }

    /// The number of the statement's node.
    pub fn root(&self, i: u32) -> u32
        requires { i < length self.now.statements }
        ensures within { result < node_count self.now.nodes }
        ensures node { slice_get (listed self.now.nodes) i ≡ Some (node_at self.now.nodes result) }
    {
        self.entries[i as usize].root
    }
}
