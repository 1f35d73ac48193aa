//! From a head and operands to the expression that has them: those of one bucket are a chain, the last
//! one first.
ghost use Rattle.std.specs.Prelude.{ℕ, ◌≡◌, ◌↔◌, ◌≤◌, IfSome, IfNone, IsTrue, List, Some, length};
ghost use Rattle.mz_store.specs.Nodes.{all_made, operands_at};
ghost use Rattle.mz_store.specs.Hashes.{mixed, hash_of, spread};
ghost use Rattle.mz_store.specs.Chains.{IsNode, IsChain};

use crate::item::Id;
use crate::node::{Form, Node};

/// 2^32.
const HALF: u64 = 0x1_0000_0000;

/// The number of a head and operands by which they are looked up.
///
/// It is the factor that is drawn by chance: with a known one, operands can be chosen that have one
/// hash whatever it begins with.
#[inline(always)]
pub(crate) fn hash_of(factor: u64, head: u32, operands: &[Id]) -> u64
    ensures { result ≡ hash_of factor head operands.now }
{
    let mut hash = u64::from(head);
    for id in operands {
        hash = mixed(factor, hash, id.0);
    }
    hash
}

/// A hash with one id more. The upper half is added to the lower one, so that terms of one hash
/// can't be found by sums alone.
#[tactic(auto, unfolding(crate::specs::Hashes::mixed))]
#[inline(always)]
fn mixed(factor: u64, hash: u64, id: u32) -> u64
    ensures { result ≡ mixed factor hash id }
{
    let sum = spread(factor, hash, id);
    sum.wrapping_add(sum / HALF)
}

#[tactic(auto, unfolding(crate::specs::Hashes::spread))]
#[inline(always)]
fn spread(factor: u64, hash: u64, id: u32) -> u64
    ensures { result ≡ spread factor hash id }
{
    hash.wrapping_mul(factor).wrapping_add(u64::from(id))
}

/// The id of the term `head` over these operands, if there is one. `newest` is the last expression
/// of their bucket, if there is one.
#[inline(always)]
pub(crate) fn find(
    nodes: &[Node],
    operands: &[Id],
    newest: Option<Id>,
    head: u32,
    args: &[Id],
) -> Option<Id>
    requires { IsChain operands.now nodes.now head args.now newest }
    ensures some { IfSome result (λ id. IsNode (all_made operands.now nodes.now) head args.now id.0) }
    ensures none { IfNone result ((i : ℕ) → IsNode (all_made operands.now nodes.now) head args.now i → ⊥) }
{
    let Some(newest) = newest else {
        return None;
    };
    let mut next = newest;
    'chain: loop {
        let Form::Application(made) = nodes[next.0 as usize].form else {
            return None;
        };
        if made.head == head
            && are_same(part(operands, made.from as usize, made.to as usize), args)
        {
            return Some(next);
        }
        if made.earlier == next {
            return None;
        }
        next = made.earlier;
    }
}

#[inline(always)]
pub(crate) fn part(ids: &[Id], from: usize, to: usize) -> &[Id]
    requires order { from ≤ to }
    requires within { to ≤ length ids.now }
    ensures { result.now ≡ operands_at ids.now from to }
{
    &ids[from..to]
}

#[inline(always)]
fn are_same(a: &[Id], b: &[Id]) -> bool
    ensures { IsTrue result ↔ (a.now ≡ b.now) }
{
    a == b
}
