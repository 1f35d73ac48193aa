// A binary that is made of the lines of a listing.
ghost use Rattle.std.specs.Prelude.{◌≡◌, ◌≤◌, ◌<◌, true, length, OnOk};
ghost use Rattle.mz_cmd.specs.Codes.{statement_byte};
ghost use Rattle.mz_asm.specs.Making.{Adds, nothing_made, outcome_parts, put_line, row_parts, sort_parts, with_end, with_head};
ghost use Rattle.mz_asm.specs.Rows.{IsInRange, TakesRow, most_of, next_row};
ghost use Rattle.mz_asm.specs.Statements.{code_of, has_result};

use crate::expected::Want;
use crate::kind::Kind;
use crate::line::Line;
use crate::rows::Rows;
use crate::rule::A;
use crate::stop::Fault;
use mz_cmd::{END, Mem, StatementCode, put_cmd};
use mz_layout::LayoutWriter;
use mz_logic_theory::Word;
use std::alloc::Global;
use std::marker::Model;

/// What the lines so far say: whole statements, and what there is of the one that is begun.
#[derive(Drop)]
pub struct Assembly {
    writer: LayoutWriter,
    rows: Rows,
    want: Want,
    params: Vec<Word>,
    outcome: Word,
    unify: Vec<u8>,
    body: Vec<u8>,
}

impl Model for Assembly {
    ghost use Rattle.mz_asm.specs.Making.{Made};

    ghost Value = { Made };

    ghost view = { λ a. record { parts = a.writer; rows = a.rows; want = a.want; params = a.params.items; outcome = a.outcome; unify = a.unify.items; body = a.body.items } };
}

impl Assembly {
    /// No line is read yet.
    pub fn new(alloc: Global) -> Assembly
        ensures { result ≡ nothing_made }
    {
        Assembly {
            writer: LayoutWriter::new(alloc),
            rows: Rows {
                sorts: 0,
                terms: 0,
                thms: 0,
            },
            want: Want::Head,
            params: Vec::new(alloc),
            outcome: Word(0),
            unify: Vec::new(alloc),
            body: Vec::new(alloc),
        }
    }

    /// Which line may come next.
    pub fn want(&self) -> Want
        ensures { result ≡ self.now.want }
    {
        self.want
    }

    /// The writer that has the parts of all whole statements.
    pub fn into_writer(self) -> LayoutWriter
        ensures { result ≡ self.parts }
    {
        self.writer
    }

    /// Adds a line, without its newline.
    pub fn add(&mut self, text: &[u8]) -> Result<(), Fault>
        requires few { length self.old.params ≤ 65535 }
        ensures { Adds self.old text.now self.new result }
    {
        let Some(line) = Line::read(text) else {
            return Err(Fault::Rule(A::Form));
        };
        let Some(next) = self.want.next(line) else {
            return Err(Fault::Rule(A::Form));
        };
        self.rows.check(line)?;
        self.put(line, next)?;
        self.want = next;
        Ok(())
    }

    /// Adds what a line says, after which this is wanted.
    fn put(&mut self, line: Line, next: Want) -> Result<(), Mem>
        requires range { IsInRange self.old.rows line }
        requires row { TakesRow self.old.rows line }
        requires few { length self.old.params ≤ 65535 }
        ensures { OnOk result (self.new ≡ put_line self.old line next) }
    {
        match line {
            Line::Head { kind, number, .. } => self.begin(kind, number),
            Line::Param(word) => {
                self.params.push(word)?;
                Ok(())
            }
            Line::Outcome(word) => self.put_outcome(word, next),
            Line::Unify { code, value } => put_cmd(&mut self.unify, u8::from(code), value as u32),
            Line::UnifyEnd => {
                self.unify.push(END)?;
                Ok(())
            }
            Line::Proof { code, value } => put_cmd(&mut self.body, u8::from(code), value as u32),
            Line::ProofEnd => self.finish_streams(),
            Line::End => Ok(()),
        }
    }

    /// Begins a statement, which a sort is whole with.
    fn begin(&mut self, kind: Kind, number: u64) -> Result<(), Mem>
        requires row { next_row self.old.rows kind ≤ 4294967295 }
        requires number { number ≤ most_of kind }
        ensures { OnOk result (self.new ≡ with_head self.old kind number) }
    {
        self.rows = self.rows.taken(kind);
        self.params.clear();
        self.unify.clear();
        self.body.clear();
        match kind {
            Kind::Sort => self.add_sort(number as u8),
            _ => Ok(()),
        }
    }

    fn add_sort(&mut self, mods: u8) -> Result<(), Mem>
        requires { mods < 16 }
        ensures { OnOk result (self.new ≡ record self.old { parts = sort_parts true self.old.parts mods }) }
    {
        self.writer.add_sort(mods)?;
        self.writer.add_stmt(u8::from(StatementCode::Sort), &[])
    }

    /// Keeps a row's result, with which a plain term is whole.
    fn put_outcome(&mut self, word: Word, next: Want) -> Result<(), Mem>
        requires { length self.old.params ≤ 65535 }
        ensures { OnOk result (self.new ≡ record self.old { outcome = word; parts = outcome_parts next self.old word }) }
    {
        self.outcome = word;
        match next {
            Want::Head => self.add_plain_term(),
            _ => Ok(()),
        }
    }

    fn add_plain_term(&mut self) -> Result<(), Mem>
        requires { length self.old.params ≤ 65535 }
        ensures { OnOk result (self.new ≡ record self.old { parts = outcome_parts Want.Head self.old self.old.outcome }) }
    {
        self.writer.add_term(&self.params, self.outcome, None)?;
        self.writer.add_stmt(u8::from(StatementCode::Term), &[])
    }

    /// Adds the statement whose body ends here.
    fn finish_streams(&mut self) -> Result<(), Mem>
        requires { length self.old.params ≤ 65535 }
        ensures { OnOk result (self.new ≡ with_end self.old.want self.old) }
    {
        match self.want {
            Want::Proof { kind } => {
                self.body.push(END)?;
                self.add_row(kind)
            }
            _ => Ok(()),
        }
    }

    /// Adds a row with a unify stream, and its statement.
    fn add_row(&mut self, kind: Kind) -> Result<(), Mem>
        requires { length self.old.params ≤ 65535 }
        ensures { OnOk result (self.new ≡ record self.old { parts = row_parts (has_result kind) self.old self.old.body (statement_byte (code_of kind)) }) }
    {
        if kind.has_result() {
            self.writer
                .add_term(&self.params, self.outcome, Some(&self.unify))?;
        } else {
            self.writer.add_thm(&self.params, &self.unify)?;
        }
        self.writer.add_stmt(u8::from(kind.code()), &self.body)
    }
}
