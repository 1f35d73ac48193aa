// Sets of numbers, each kept once.
ghost use Rattle.std.specs.Prelude.{◌≡◌, ◌≤◌, ◌<◌, ◌^◌, ◌++◌, ◌↔◌, ℕ, All, Contains, IfOk, IfSome, OnOk, Some, length, map, slice_get, slice_index};
ghost use Rattle.mz_axioms.specs.Members.{AreOnce, InSome, IsJoined, IsSet, IsSingle, IsStore, IsUnion, bits, left_of, node, other, right_of, span as span_of};

use mz_spec::Hashing;
use std::alloc::{AllocError, Global};
use std::collections::HashMap;

/// How many numbers sets may have: those less than 64 times two to the height.
#[derive(Clone, Copy)]
pub struct Size {
    pub height: u32,
    pub span: u64,
}

impl Size {
    /// The least size for numbers less than this one.
    pub fn for_numbers_below(bound: u32) -> Size
        ensures power { result.span ≡ span_of result.height }
        ensures small { result.span ≤ 2 ^ 33 }
        ensures enough { bound ≤ result.span }
    {
        let mut height = 0;
        let mut span = 64;
        'heights: while span < u64::from(bound) {
            height += 1;
            span *= 2;
        }
        Size { height, span }
    }
}

/// A set that is kept, by the ids of its two halves.
#[derive(Clone, Copy)]
pub struct Node {
    pub left: u64,
    pub right: u64,
}

/// Sets of numbers, each kept once, so that equal sets have equal ids.
///
/// A set of height 0 is a word, a bit for each of 64 numbers, and is its own id. One of a greater height
/// is a node. Sets that differ in few numbers share nearly all nodes; 0 is the set of none, of each height.
#[derive(Drop)]
pub struct Sets {
    pub nodes: Vec<Node>,
    // from a node to its place
    places: HashMap<(u64, u64), u64, Hashing>,
}

impl Sets {
    /// A store of no set but that of no numbers.
    pub fn new(alloc: Global, hashing: Hashing) -> Result<Sets, AllocError>
        ensures { IfOk result (λ sets. IsStore sets.nodes.items) }
    {
        let mut nodes = Vec::new(alloc);
        nodes.push(Node { left: 0, right: 0 })?;
        Ok(Sets {
            nodes,
            places: HashMap::with_hasher(alloc, hashing),
        })
    }

    /// The set of one number.
    pub fn single(&mut self, size: Size, n: u64) -> Result<u64, AllocError>
        requires starts { IsStore self.old.nodes.items }
        requires power { size.span ≡ span_of size.height }
        requires below { n < size.span }
        ensures { IfOk result (λ id. IsSingle self.old.nodes.items self.new.nodes.items size.height n id) }
    {
        if size.height == 0 {
            return Ok(1 << n);
        }
        let half = Size {
            height: size.height - 1,
            span: size.span / 2,
        };
        if n < half.span {
            let left = self.single(half, n)?;
            self.join(left, 0)
        } else {
            let right = self.single(half, n - half.span)?;
            self.join(0, right)
        }
    }

    /// The set of the numbers that one of these sets has.
    ///
    /// All are split at once, so that no set is made on the way, and where only one is left it is taken
    /// as it is.
    pub fn union(&mut self, alloc: Global, height: u32, ids: Vec<u64>) -> Result<u64, AllocError>
        requires starts { IsStore self.old.nodes.items }
        requires sets { All (IsSet self.old.nodes.items height) ids.items }
        ensures { IfOk result (λ id. IsUnion self.old.nodes.items self.new.nodes.items height ids.items id) }
    {
        let kept = each_once(alloc, ids)?;
        if kept.len() < 2 {
            return Ok(first_of(&kept));
        }
        if height == 0 {
            return Ok(one_word(&kept));
        }
        let (lefts, rights) = self.halves(alloc, &kept)?;
        let left = self.union(alloc, height - 1, lefts)?;
        let right = self.union(alloc, height - 1, rights)?;
        self.join(left, right)
    }

    /// The halves of these sets.
    fn halves(&self, alloc: Global, ids: &[u64]) -> Result<(Vec<u64>, Vec<u64>), AllocError>
        requires { All (λ id. id < length self.now.nodes.items) ids.now }
        ensures lefts { IfOk result (λ halves. halves.0.items ≡ map (left_of self.now.nodes.items) ids.now) }
        ensures rights { IfOk result (λ halves. halves.1.items ≡ map (right_of self.now.nodes.items) ids.now) }
    {
        let mut lefts = Vec::new(alloc);
        let mut rights = Vec::new(alloc);
        'ids: for &id in ids {
            let node = self.nodes[id as usize];
            lefts.push(node.left)?;
            rights.push(node.right)?;
        }
        Ok((lefts, rights))
    }

    /// The node's id: the one that it has already, or a new one.
    fn join(&mut self, left: u64, right: u64) -> Result<u64, AllocError>
        ensures { IfOk result (λ id. IsJoined self.old.nodes.items self.new.nodes.items left right id) }
    {
        match self.find(left, right) {
            Some(id) => Ok(id),
            None => self.add(left, right),
        }
    }

    fn find(&self, left: u64, right: u64) -> Option<u64>
        ensures { IfSome result (λ id. slice_get self.now.nodes.items id ≡ Some (node left right)) }
    {
        let id = self.places.get(&(left, right)).copied()?;
        // The node itself is asked, so that nothing need be known of the map.
        let node = self.nodes.get(id as usize).copied()?;
        if node.left == left && node.right == right {
            Some(id)
        } else {
            None
        }
    }

    fn add(&mut self, left: u64, right: u64) -> Result<u64, AllocError>
        ensures { IfOk result (λ id. IsJoined self.old.nodes.items self.new.nodes.items left right id) }
    {
        let id = self.nodes.len() as u64;
        self.nodes.push(Node { left, right })?;
        self.places.insert((left, right), id)?;
        Ok(id)
    }
}

/// The same ids, each once and without 0.
fn each_once(alloc: Global, mut ids: Vec<u64>) -> Result<Vec<u64>, AllocError>
    ensures { IfOk result (λ kept. AreOnce ids.items kept.items) }
{
    ids.sort_unstable();
    without_repeats(alloc, &ids)
}

/// These ids without 0 at the front, and each but the last of those that are equal and stand together left out.
fn without_repeats(alloc: Global, ids: &[u64]) -> Result<Vec<u64>, AllocError>
    ensures { IfOk result (λ kept. AreOnce ids.now kept.items) }
{
    let mut kept = Vec::new(alloc);
    let mut last = 0;
    'ids: for &id in ids {
        push_other(&mut kept, id, last)?;
        last = id;
    }
    Ok(kept)
}

/// Appends the id, unless it is this one.
fn push_other(kept: &mut Vec<u64>, id: u64, last: u64) -> Result<(), AllocError>
    ensures { OnOk result (kept.new.items ≡ kept.old.items ++ other id last) }
{
    if id != last {
        kept.push(id)?;
    }
    Ok(())
}

/// The first id, or that of no numbers.
fn first_of(ids: &[u64]) -> u64
    ensures { result ≡ slice_index ids.now 0 }
{
    ids.first().copied().unwrap_or(0)
}

/// The word that has the bits of all these.
fn one_word(words: &[u64]) -> u64
    ensures { (base n : ℕ) → Contains (bits 64 base result) n ↔ ((word : ℕ) × Contains words.now word × Contains (bits 64 base word) n) }
{
    let mut all = 0;
    'words: for &word in words {
        all |= word;
    }
    all
}
