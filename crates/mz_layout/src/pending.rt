// What is to be written, as it is held until then.
ghost use Rattle.std.specs.Prelude.{◌≡◌, ◌≤◌, ◌<◌, ◌+◌, ◌^◌, ◌++◌, ◌∷◌, [], length, IsTrue, IfOk, OnOk, option_map, is_some, Option};
ghost use Rattle.mz_cmd.specs.Codes.{begins_statement};
ghost use Rattle.mz_layout_tables.specs.Standing.{HasRoom};
ghost use Rattle.mz_layout_tables.specs.Normal.{Row, Written, row_of_term, row_of_thm, row_block, record_bytes, statement_bytes, distance};

use crate::sections::{block_len, distance, put_block, put_record, put_statement};
use crate::words::{copy_words, term_words};
use mz_cmd::Mem;
use mz_logic_theory::Word;
use std::alloc::Global;
use std::marker::Model;

/// A row of a table.
#[derive(Drop)]
pub struct StoredRow {
    params: u16,
    mark: u8,
    words: Vec<Word>,
    stream: Vec<u8>,
}

impl Model for StoredRow {
    ghost use Rattle.mz_layout_tables.specs.Normal.{Row};
    ghost use Rattle.std.specs.Prelude.{◌≤◌, length};

    ghost Value = { Row };

    ghost view = { λ a. record { params = a.params; mark = a.mark; words = a.words.items; stream = a.stream.items } };

    ghost invariant = { λ a. length a.words.items ≤ 65536 };
}

impl StoredRow {
    /// A term's row.
    pub fn of_term(
        alloc: Global,
        params: &[Word],
        ret: Word,
        unify: Option<&[u8]>,
    ) -> Result<StoredRow, Mem>
        requires { length params.now ≤ 65535 }
        ensures row { IfOk result (λ row. row ≡ row_of_term params.now ret (option_map (λ s. s.now) unify.entry)) }
        ensures room { IfOk result (HasRoom 1) }
    {
        let words = term_words(alloc, params, ret)?;
        let defined = if unify.is_some() { 128 } else { 0 };
        Ok(StoredRow {
            params: params.len() as u16,
            mark: ret.sort() as u8 + defined,
            words,
            stream: Vec::from_slice(alloc, unify.unwrap_or(&[]))?,
        })
    }

    /// The row of an axiom or a theorem.
    pub fn of_thm(alloc: Global, params: &[Word], unify: &[u8]) -> Result<StoredRow, Mem>
        requires { length params.now ≤ 65535 }
        ensures row { IfOk result (λ row. row ≡ row_of_thm params.now unify.now) }
        ensures room { IfOk result (HasRoom 0) }
    {
        Ok(StoredRow {
            params: params.len() as u16,
            mark: 0,
            words: copy_words(alloc, params)?,
            stream: Vec::from_slice(alloc, unify)?,
        })
    }

    /// How many bytes the row's block has.
    pub fn block_len(&self) -> u64
        ensures len { result ≡ length (row_block self.now) }
        ensures bound { result ≤ 2 ^ 63 + 2 ^ 20 }
    {
        block_len(&self.words, &self.stream)
    }

    /// Appends the row's record, which points to its block's place.
    pub fn put_record(&self, out: &mut Vec<u8>, at: u32) -> Result<(), Mem>
        ensures { OnOk result (out.new.items ≡ out.old.items ++ record_bytes at self.now) }
    {
        put_record(out, self.params, self.mark, at)
    }

    /// Appends the row's block.
    pub fn put_block(&self, out: &mut Vec<u8>) -> Result<(), Mem>
        ensures { OnOk result (out.new.items ≡ out.old.items ++ row_block self.now) }
    {
        put_block(out, &self.words, &self.stream)
    }
}

/// A statement of the list.
#[derive(Drop)]
pub struct StoredStatement {
    code: u8,
    body: Vec<u8>,
}

impl Model for StoredStatement {
    ghost use Rattle.mz_layout_tables.specs.Normal.{Written};
    ghost use Rattle.std.specs.Prelude.{IsTrue};
    ghost use Rattle.mz_cmd.specs.Codes.{begins_statement};

    ghost Value = { Written };

    ghost view = { λ a. record { code = a.code; body = a.body.items } };

    ghost invariant = { λ a. IsTrue (begins_statement a.code) };
}

impl StoredStatement {
    /// A statement with this code and this body.
    pub fn new(alloc: Global, code: u8, body: &[u8]) -> Result<StoredStatement, Mem>
        requires { IsTrue (begins_statement code) }
        ensures { IfOk result (λ s. s ≡ record { code = code; body = body.now }) }
    {
        Ok(StoredStatement {
            code,
            body: Vec::from_slice(alloc, body)?,
        })
    }

    /// How many bytes the statement takes.
    pub fn len(&self) -> u64
        ensures len { result ≡ length (statement_bytes self.now) }
        ensures bound { result ≤ 2 ^ 63 + 2 ^ 20 }
    {
        distance(self.body.len())
    }

    /// Appends the statement.
    pub fn put(&self, out: &mut Vec<u8>) -> Result<(), Mem>
        requires { length (statement_bytes self.now) ≤ 4294967295 }
        ensures { OnOk result (out.new.items ≡ out.old.items ++ statement_bytes self.now) }
    {
        put_statement(out, self.code, &self.body)
    }
}
