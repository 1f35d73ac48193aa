//! Which calls on a fake in memory are to fail.
ghost use Rattle.std.specs.Prelude.{◌≡◌, [], ◌∷◌, ◌++◌, IsTrue, IsFalse, OnOk, OnErr, Contains};
ghost use Rattle.mz_io.specs.Plan.{next_number, IsListed, IsClear, CountsCall};

use std::alloc::{AllocError, Global};

/// How many calls were made, and the numbers of those that are to fail.
#[derive(Drop)]
pub struct Plan {
    pub calls: u64,
    pub listed: Vec<u64>,
}

impl Plan {
    /// No call so far, and none listed.
    pub fn new(alloc: Global) -> Plan
        ensures calls { result.calls ≡ 0 }
        ensures listed { result.listed.items ≡ [] }
    {
        Plan {
            calls: 0,
            listed: Vec::new(alloc),
        }
    }

    /// Lists a call that is to fail.
    pub fn list(&mut self, number: u64) -> Result<(), AllocError>
        ensures calls { self.new.calls ≡ self.old.calls }
        ensures ok { OnOk result (self.new.listed.items ≡ self.old.listed.items ++ number ∷ []) }
        ensures err { OnErr result (self.new.listed.items ≡ self.old.listed.items) }
    {
        self.listed.push(number)?;
        Ok(())
    }

    fn lists(&self, number: u64) -> bool
        ensures listed { IsTrue result → Contains self.now.listed.items number }
        ensures other { IsFalse result → Contains self.now.listed.items number → ⊥ }
    {
        self.listed.contains(&number)
    }

    /// Counts one more call, and says whether it is to fail.
    pub fn fails_next(&mut self) -> bool
        ensures counts { CountsCall self.old self.new }
        ensures fails { IsTrue result → IsListed self.old }
        ensures goes { IsFalse result → IsListed self.old → ⊥ }
        ensures never { IsClear self.old → IsFalse result }
        ensures stays_clear { IsClear self.old → IsClear self.new }
    {
        self.calls = self.calls.saturating_add(1);
        self.lists(self.calls)
    }
}
