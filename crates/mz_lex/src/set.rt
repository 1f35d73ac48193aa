// Bytes that are kept, each looked up in one step.
ghost use Rattle.std.specs.Prelude.{◌≡◌, ◌↔◌, ◌⊎◌, ◌≤◌, ◌++◌, ◌∷◌, [], ℕ, false, IsTrue, OnOk, OnErr, Contains, length, get_or, take};
ghost use Rattle.mz_lex.specs.Sets.{Tells};

use std::alloc::{AllocError, Global};
use std::marker::Model;

/// Bytes in the order in which they were put in, with a table of which are there: so a look-up is
/// one step, however many they are.
#[derive(Drop)]
pub struct ByteSet {
    bytes: Vec<u8>,
    there: [bool; 256],
}

impl Model for ByteSet {
    ghost use Rattle.std.specs.Prelude.{List, ℕ};
    ghost use Rattle.mz_lex.specs.Sets.{Tells};

    ghost Value = { List ℕ };

    ghost view = { λ a. a.bytes.items };

    ghost invariant = { λ a. Tells a.there a.bytes.items };
}

impl ByteSet {
    /// No bytes.
    pub fn new(alloc: Global) -> ByteSet
        ensures { result ≡ [] }
    {
        ByteSet {
            bytes: Vec::new(alloc),
            there: [false; 256],
        }
    }

    /// How many have been put in.
    pub fn len(&self) -> usize
        ensures { result ≡ length self.now }
    {
        self.bytes.len()
    }

    /// Whether the byte is there.
    pub fn has(&self, byte: u8) -> bool
        ensures { IsTrue result ↔ Contains self.now byte }
    {
        self.there[byte as usize]
    }

    /// Puts a byte in.
    ///
    /// # Errors
    ///
    /// Where there is no memory. The bytes are unchanged then.
    pub fn push(&mut self, byte: u8) -> Result<(), AllocError>
        ensures ok { OnOk result (self.new ≡ self.old ++ byte ∷ []) }
        ensures err { OnErr result (self.new ≡ self.old) }
    {
        self.bytes.push(byte)?;
        self.there[byte as usize] = true;
        Ok(())
    }

    /// Puts others in.
    ///
    /// # Errors
    ///
    /// Where there is no memory. The bytes are unchanged then.
    pub fn append(&mut self, others: &ByteSet) -> Result<(), AllocError>
        ensures ok { OnOk result (self.new ≡ self.old ++ others.now) }
        ensures err { OnErr result (self.new ≡ self.old) }
    {
        self.bytes.extend_from_slice(&others.bytes)?;
        mark(&mut self.there, &others.bytes);
        Ok(())
    }

    /// Keeps so many of them, those that were put in first.
    pub fn shorten(&mut self, many: usize)
        ensures { self.new ≡ take many self.old }
    {
        self.bytes.truncate(many);
        self.there = [false; 256];
        mark(&mut self.there, &self.bytes);
    }
}

/// Flags these bytes in a table.
fn mark(there: &mut [bool; 256], bytes: &[u8])
    ensures { (c : ℕ) → IsTrue (get_or there.new c false) ↔ (IsTrue (get_or there.old c false) ⊎ Contains bytes.now c) }
{
    for byte in bytes {
        there[*byte as usize] = true;
    }
}
