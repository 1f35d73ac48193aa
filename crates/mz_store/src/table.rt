//! Where a store finds its terms. Each belongs to a bucket, and those of one bucket are a chain.
ghost use Rattle.std.specs.Prelude.{◌≡◌, ◌<◌, ◌≤◌, ◌+◌, OnOk, length, take};
ghost use Rattle.mz_store.specs.Tables.{bucket_of, newest_of, AreEarlier, KnowsNone, IsPut, IsTable};
ghost use Rattle.mz_store.specs.Kept.{shared_by, AreKept};
ghost use Rattle.mz_store.specs.Nodes.{AllLie};

use crate::buckets::{hash_of, part};
use crate::expressions::Expressions;
use crate::item::{Id, number};
use crate::node::{Application, Form, Node};
use std::alloc::{AllocError, Global};

/// The last term that was put into a bucket, and the round in which it was.
#[derive(Clone, Copy)]
pub struct Bucket {
    pub round: u32,
    pub last: Id,
}

/// The last term of each bucket. With the store's terms a round is over: what was put in before counts for
/// nothing then, so that no bucket needs to be cleared.
#[derive(Drop)]
pub struct Table {
    /// What hashes are made with: odd, so that it takes no bit of them away.
    pub factor: u64,
    pub round: u32,
    pub buckets: Vec<Bucket>,
}

/// How many buckets there are at first.
const FIRST: usize = 64;

impl Table {
    /// A table of no terms.
    pub fn new(alloc: Global, factor: u64) -> Table
        ensures { KnowsNone result }
    {
        Table {
            factor,
            round: 1,
            buckets: Vec::new(alloc),
        }
    }

    /// Forgets all terms.
    #[inline(always)]
    pub fn forget(&mut self)
        requires { AreEarlier self.old }
        ensures { KnowsNone self.new }
    {
        match self.round.checked_add(1) {
            Some(next) => self.round = next,
            None => {
                self.buckets.clear();
                self.round = 1;
            }
        }
    }

    /// The bucket of a term over operands.
    #[inline(always)]
    pub fn bucket_of(&self, head: u32, args: &[Id]) -> usize
        requires { 0 < length self.now.buckets.items }
        ensures is { result ≡ bucket_of self.now.factor (length self.now.buckets.items) head args.now }
        ensures within { result < length self.now.buckets.items }
    {
        hash_of(self.factor, head, args) as usize & (self.buckets.len() - 1)
    }

    /// The last term of the bucket.
    #[inline(always)]
    pub fn newest(&self, bucket: usize) -> Option<Id>
        requires { bucket < length self.now.buckets.items }
        ensures { result ≡ newest_of self.now bucket }
    {
        let found = self.buckets[bucket];
        if found.round == self.round {
            Some(found.last)
        } else {
            None
        }
    }

    /// Makes the term the last one of the bucket.
    #[inline(always)]
    pub fn put(&mut self, bucket: usize, id: Id)
        requires { bucket < length self.old.buckets.items }
        ensures { IsPut self.old bucket id self.new }
    {
        self.buckets[bucket] = Bucket {
            round: self.round,
            last: id,
        };
    }

    /// Sees to it that there are more buckets than expressions. The expressions stay the same.
    ///
    /// # Errors
    ///
    /// Where there is no memory, or no place for 2^32 expressions. The table is as it was then.
    #[inline(always)]
    pub fn make_room(
        &mut self,
        alloc: Global,
        expressions: &mut Expressions,
    ) -> Result<(), AllocError>
        requires kept { AreKept expressions.old }
        requires table { IsTable self.old expressions.old.operands.items expressions.old.nodes.items }
        ensures room { OnOk result (0 < length self.new.buckets.items) }
        ensures kept { AreKept expressions.new }
        ensures table { IsTable self.new expressions.new.operands.items expressions.new.nodes.items }
        ensures same { shared_by expressions.new ≡ shared_by expressions.old }
    {
        if expressions.nodes.len() < self.buckets.len() {
            return Ok(());
        }
        self.widen(alloc, expressions)
    }

    /// Takes four times as many buckets, and puts all terms into them anew.
    #[inline(never)]
    fn widen(&mut self, alloc: Global, expressions: &mut Expressions) -> Result<(), AllocError>
        requires kept { AreKept expressions.old }
        requires table { IsTable self.old expressions.old.operands.items expressions.old.nodes.items }
        requires full { length self.old.buckets.items ≤ length expressions.old.nodes.items }
        ensures room { OnOk result (0 < length self.new.buckets.items) }
        ensures kept { AreKept expressions.new }
        ensures table { IsTable self.new expressions.new.operands.items expressions.new.nodes.items }
        ensures same { shared_by expressions.new ≡ shared_by expressions.old }
    {
        let count = number(expressions.nodes.len())?;
        let many = FIRST.max(4 * self.buckets.len());
        let empty = Bucket {
            round: 0,
            last: Id(0),
        };
        self.buckets = vec![in alloc; empty; many]?;
        'terms: for i in 0..count {
            self.link(expressions, Id(i));
        }
        Ok(())
    }

    /// Puts the expression into its bucket, if it is a term. Those before it are in theirs, and none
    /// from it on.
    fn link(&mut self, expressions: &mut Expressions, id: Id)
        requires room { 0 < length self.old.buckets.items }
        requires inside { id.0 < length expressions.old.nodes.items }
        requires kept { AreKept expressions.old }
        requires lie { AllLie expressions.old.operands.items expressions.old.nodes.items }
        requires table { IsTable self.old expressions.old.operands.items (take id.0 expressions.old.nodes.items) }
        ensures room { 0 < length self.new.buckets.items }
        ensures table { IsTable self.new expressions.new.operands.items (take (id.0 + 1) expressions.new.nodes.items) }
        ensures kept { AreKept expressions.new }
        ensures lie { AllLie expressions.new.operands.items expressions.new.nodes.items }
        ensures same { shared_by expressions.new ≡ shared_by expressions.old }
    {
        let at = id.0 as usize;
        let node = expressions.nodes[at];
        let Form::Application(made) = node.form else {
            return;
        };
        let args = part(&expressions.operands, made.from as usize, made.to as usize);
        let bucket = self.bucket_of(made.head, args);
        let earlier = self.newest(bucket).unwrap_or(id);
        expressions.nodes[at] = Node {
            form: Form::Application(Application { earlier, ..made }),
            ..node
        };
        self.put(bucket, id);
    }
}
