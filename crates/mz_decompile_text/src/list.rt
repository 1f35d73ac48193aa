// Names by their numbers, in one run of bytes.
ghost use Rattle.std.specs.Prelude.{◌≡◌, ◌++◌, ◌∷◌, [], get_or, IfOk, OnOk};

use mz_cmd::Mem;
use mz_spec::bytes_between;
use std::alloc::Global;
use std::marker::Model;

/// Where a name begins, and the place behind its end.
#[derive(Clone, Copy)]
pub(crate) struct Span {
    pub(crate) from: usize,
    pub(crate) to: usize,
}

/// A list of names.
#[derive(Drop)]
pub(crate) struct NameList {
    bytes: Vec<u8>,
    spans: Vec<Span>,
}

impl Model for NameList {
    ghost use Rattle.std.specs.Prelude.{ℕ, List, length};
    ghost use Rattle.mz_decompile_text.specs.Spans.{AreWithin, names_at};

    ghost Value = { List (List ℕ) };

    ghost view = { λ n. names_at n.bytes.items n.spans.items };

    ghost invariant = { λ n. AreWithin (length n.bytes.items) n.spans.items };
}

impl NameList {
    /// No names.
    pub(crate) fn new(alloc: Global) -> NameList
        ensures { result ≡ [] }
    {
        NameList {
            bytes: Vec::new(alloc),
            spans: Vec::new(alloc),
        }
    }

    /// Adds a name.
    pub(crate) fn push(&mut self, name: &[u8]) -> Result<(), Mem>
        ensures { OnOk result (self.new ≡ self.old ++ name.now ∷ []) }
    {
        let from = self.bytes.len();
        self.bytes.extend_from_slice(name)?;
        let to = self.bytes.len();
        self.spans.push(Span { from, to })?;
        Ok(())
    }

    /// The i-th name; nothing past the end.
    pub(crate) fn get(&self, i: u32) -> &[u8]
        ensures { result.now ≡ get_or self.now i [] }
    {
        match self.spans.get(i as usize) {
            Some(span) => bytes_between(&self.bytes, span.from, span.to),
            None => &[],
        }
    }
}
