// Groups of sorts, so that sorts between which no coercions lead are told apart without a search.
ghost use Rattle.std.specs.Prelude.{◌≡◌, ◌<◌, [], ℕ, List, IsTrue, OnOk, OnErr, length};
ghost use Rattle.mz_math_coercions.specs.Groups.{AreJoined, GoDown, IsNamed, up_of as up_lem};

use std::alloc::{AllocError, Global};
use std::marker::Model;

/// Sorts in groups. A sort points to an earlier one of its group, or to itself where it is the first.
#[derive(Drop)]
pub struct Groups {
    ups: Vec<u32>,
}

impl Model for Groups {
    ghost use Rattle.std.specs.Prelude.{List, ℕ};
    ghost use Rattle.mz_math_coercions.specs.Groups.{GoDown};

    ghost Value = { List ℕ };

    ghost view = { λ a. a.ups.items };

    ghost invariant = { λ a. GoDown a.ups.items };
}

impl Groups {
    /// Each sort in a group of its own.
    pub fn new(alloc: Global) -> Groups
        ensures { result ≡ [] }
    {
        Groups {
            ups: Vec::new(alloc),
        }
    }

    /// Whether two sorts are in different groups.
    pub fn are_apart(&mut self, one: u32, other: u32) -> bool
        ensures named { (name : ℕ → ℕ) → IsNamed self.old name → IsNamed self.new name }
        ensures apart { IsTrue result → (name : ℕ → ℕ) → IsNamed self.old name → name one ≡ name other → ⊥ }
    {
        let top = top_of(&mut self.ups, one);
        let other_top = top_of(&mut self.ups, other);
        top != other_top
    }

    /// Makes one group of those of two sorts.
    ///
    /// # Errors
    ///
    /// Where there is no memory. The groups are as before then.
    pub fn join(&mut self, one: u32, other: u32) -> Result<(), AllocError>
        ensures ok { OnOk result (AreJoined self.old self.new one other) }
        ensures err { OnErr result ((name : ℕ → ℕ) → IsNamed self.old name → IsNamed self.new name) }
    {
        let top = top_of(&mut self.ups, one);
        let other_top = top_of(&mut self.ups, other);
        if top < other_top {
            return link(&mut self.ups, top, other_top);
        }
        if other_top < top {
            return link(&mut self.ups, other_top, top);
        }
        Ok(())
    }
}

/// The first sort of a sort's group. Those on the way there point further afterwards, so that no way
/// stays long.
fn top_of(ups: &mut Vec<u32>, sort: u32) -> u32
    requires { GoDown ups.old.items }
    ensures down { GoDown ups.new.items }
    ensures named { (name : ℕ → ℕ) → IsNamed ups.old.items name → IsNamed ups.new.items name × (name sort ≡ result) × (name result ≡ result) }
{
    let mut at = sort;
    let mut up = up_of(ups, at);
    'up: while up != at {
        let next = up_of(ups, up);
        ups[at as usize] = next;
        at = next;
        up = up_of(ups, at);
    }
    at
}

fn up_of(ups: &[u32], sort: u32) -> u32
    ensures { result ≡ up_lem ups.now sort }
{
    match ups.get(sort as usize) {
        None => sort,
        Some(up) => *up,
    }
}

/// Lets a sort point to an earlier one.
fn link(ups: &mut Vec<u32>, low: u32, high: u32) -> Result<(), AllocError>
    requires down { GoDown ups.old.items }
    requires lower { low < high }
    ensures down { GoDown ups.new.items }
    ensures ok { OnOk result ((up_lem ups.new.items high ≡ low) × ((s : ℕ) → (s ≡ high → ⊥) → up_lem ups.new.items s ≡ up_lem ups.old.items s)) }
    ensures err { OnErr result ((s : ℕ) → up_lem ups.new.items s ≡ up_lem ups.old.items s) }
{
    lengthen(ups, high)?;
    ups[high as usize] = low;
    Ok(())
}

/// Puts sorts that point to themselves behind the others, until this one is there.
fn lengthen(ups: &mut Vec<u32>, sort: u32) -> Result<(), AllocError>
    ensures there { OnOk result (sort < length ups.new.items) }
    ensures same { (s : ℕ) → up_lem ups.new.items s ≡ up_lem ups.old.items s }
{
    'ups: while ups.len() <= sort as usize {
        let next = ups.len() as u32;
        ups.push(next)?;
    }
    Ok(())
}
