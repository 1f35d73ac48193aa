// Bytes that are kept.
ghost use Rattle.std.specs.Prelude.{◌≡◌, ◌↔◌, IsTrue, IfOk};

use std::alloc::{AllocError, Global};
use std::marker::Model;

/// The bytes of a name or of a constant.
#[derive(Drop)]
pub struct Bytes {
    bytes: Vec<u8>,
}

impl Model for Bytes {
    ghost use Rattle.std.specs.Prelude.{List, ℕ};

    ghost Value = { List ℕ };

    ghost view = { λ a. a.bytes.items };
}

impl Bytes {
    /// A copy of these bytes.
    ///
    /// # Errors
    ///
    /// Where there is no memory.
    pub fn copy_of(alloc: Global, bytes: &[u8]) -> Result<Bytes, AllocError>
        ensures { IfOk result (λ copy. copy ≡ bytes.now) }
    {
        let bytes = bytes.to_vec(alloc)?;
        Ok(Bytes { bytes })
    }

    /// The bytes in order.
    pub fn as_slice(&self) -> &[u8]
        ensures { result.now ≡ self.now }
    {
        &self.bytes
    }

    /// Whether they are these bytes.
    pub fn is(&self, bytes: &[u8]) -> bool
        ensures { IsTrue result ↔ (self.now ≡ bytes.now) }
    {
        self.as_slice() == bytes
    }
}
