// Coercions in chains, by the sorts at which they begin.
ghost use Rattle.std.specs.Prelude.{◌≡◌, ◌<◌, ◌+◌, ◌⊎◌, ◌++◌, ◌∷◌, [], ℕ, List, Contains, OnOk, OnErr, get_or, length};
ghost use Rattle.mz_math_coercions.specs.Graph.{AreChained};
ghost use Rattle.mz_math_coercions.specs.Reached.{AreReached, Has, IsStep};
ghost use Rattle.mz_math_theory.specs.declared.coercion.Coercion.{Coercion};

use crate::next_hop::coercion_at;
use crate::reached::{Reached, drop_last};
use mz_math_theory::Coercion;
use std::alloc::{AllocError, Global};
use std::marker::Model;

/// Coercions in order. Those that begin at a sort are found one after the other.
#[derive(Drop)]
pub struct Graph {
    items: Vec<Coercion>,
    // by sort: one more than the place of the last coercion from it, or 0
    last: Vec<usize>,
    // by coercion: the same for the one before it from its sort
    before: Vec<usize>,
}

impl Model for Graph {
    ghost use Rattle.std.specs.Prelude.{List};
    ghost use Rattle.mz_math_theory.specs.declared.coercion.Coercion.{Coercion};
    ghost use Rattle.mz_math_coercions.specs.Graph.{AreChained};

    ghost Value = { List Coercion };

    ghost view = { λ a. a.items.items };

    ghost invariant = { λ a. AreChained a.items.items a.last.items a.before.items };
}

impl Graph {
    /// No coercions.
    pub fn new(alloc: Global) -> Graph
        ensures { result ≡ [] }
    {
        Graph {
            items: Vec::new(alloc),
            last: Vec::new(alloc),
            before: Vec::new(alloc),
        }
    }

    /// The coercions in order.
    pub fn as_slice(&self) -> &[Coercion]
        ensures { result.now ≡ self.now }
    {
        &self.items
    }

    /// Adds a coercion behind the others.
    ///
    /// # Errors
    ///
    /// Where there is no memory. The coercions are as before then.
    pub fn add(&mut self, coercion: Coercion) -> Result<(), AllocError>
        ensures ok { OnOk result (self.new ≡ self.old ++ coercion ∷ []) }
        ensures err { OnErr result (self.new ≡ self.old) }
    {
        push(&mut self.items, &mut self.last, &mut self.before, coercion)
    }

    /// Goes on from the sorts that are reached to all that are reached from them.
    ///
    /// # Errors
    ///
    /// Where there is no memory.
    pub fn walk(&self, reached: &mut Reached) -> Result<(), AllocError>
        ensures { OnOk result (AreReached self.now reached.old reached.new) }
    {
        let mut i = 0;
        'steps: while i < reached.len() {
            let Some(sort) = reached.sort_at(i) else {
                unreachable!()
            };
            self.follow(sort, reached)?;
            i += 1;
        }
        Ok(())
    }

    /// Adds a sort, beside which a place stands, and the sorts to which a path leads from it, each with
    /// the coercion by which it was met.
    ///
    /// # Errors
    ///
    /// Where there is no memory.
    pub fn walk_from(
        &self,
        sort: u32,
        place: usize,
        reached: &mut Reached,
    ) -> Result<(), AllocError>
        requires { reached.old ≡ [] }
        ensures { OnOk result (AreReached self.now ((sort, place) ∷ []) reached.new) }
    {
        reached.add(sort, place)?;
        self.walk(reached)
    }

    /// Adds the sorts to which one coercion leads from a sort.
    fn follow(&self, sort: u32, reached: &mut Reached) -> Result<(), AllocError>
        ensures kept { (more : List (ℕ × ℕ)) × (reached.new ≡ reached.old ++ more) }
        ensures only { (t p : ℕ) → Contains reached.new (t, p) → Contains reached.old (t, p) ⊎ IsStep self.now sort p t }
        ensures ok { OnOk result ((p t : ℕ) → IsStep self.now sort p t → Has reached.new t) }
    {
        let mut next = link_at(&self.last, sort as usize);
        'chain: while next != 0 {
            let place = next - 1;
            let Some(coercion) = coercion_at(&self.items, place) else {
                unreachable!()
            };
            reached.add(coercion.to, place)?;
            next = link_at(&self.before, place);
        }
        Ok(())
    }
}

fn link_at(links: &[usize], place: usize) -> usize
    ensures { result ≡ get_or links.now place 0 }
{
    match links.get(place) {
        None => 0,
        Some(link) => *link,
    }
}

/// Puts 0 behind the others, until this place is there.
fn lengthen(links: &mut Vec<usize>, place: usize) -> Result<(), AllocError>
    ensures there { OnOk result (place < length links.new.items) }
    ensures same { (i : ℕ) → get_or links.new.items i 0 ≡ get_or links.old.items i 0 }
{
    'links: while links.len() <= place {
        links.push(0)?;
    }
    Ok(())
}

fn push(
    items: &mut Vec<Coercion>,
    last: &mut Vec<usize>,
    before: &mut Vec<usize>,
    coercion: Coercion,
) -> Result<(), AllocError>
    requires { AreChained items.old.items last.old.items before.old.items }
    ensures chained { AreChained items.new.items last.new.items before.new.items }
    ensures ok { OnOk result (items.new.items ≡ items.old.items ++ coercion ∷ []) }
    ensures err { OnErr result (items.new.items ≡ items.old.items) }
{
    let sort = coercion.from as usize;
    lengthen(last, sort)?;
    before.push(link_at(last, sort))?;
    let Ok(()) = items.push(coercion) else {
        drop_last(before);
        return Err(AllocError);
    };
    last[sort] = items.len();
    Ok(())
}
