ghost use Rattle.std.specs.Prelude.{◌≡◌, ◌↔◌, ◌<◌, ◌-◌, ◌∷◌, [], ◌++◌, true, IsTrue, IfErr, IfOk, OnOk, OnErr, Contains, length};
ghost use Rattle.std.specs.List.Sorted.{IsNonDecreasing};
ghost use Rattle.mz_logic_theory.specs.Alike.{deps_at};
ghost use Rattle.mz_logic_theory.specs.Modifiers.{IsPure, IsStrict, IsProvable, IsFree};

use crate::room::push_tightly;
use std::alloc::{AllocError, AllocFailed, Global};
use std::marker::Model;
use std::rc::RcSlice;

/// A sort's modifiers, one bit each.
#[derive(Clone, Copy, PartialEq, Eq)]
pub struct SortMods(pub u8);

impl SortMods {
    /// No term has this result sort.
    pub const PURE: u8 = 1;
    /// No bound variable has this sort.
    pub const STRICT: u8 = 2;
    /// Hypotheses and conclusions have such a sort.
    pub const PROVABLE: u8 = 4;
    /// No dummy has this sort.
    pub const FREE: u8 = 8;

    pub fn is_pure(self) -> bool
        ensures { IsTrue result ↔ IsPure self }
    {
        self.0 & SortMods::PURE != 0
    }

    pub fn is_strict(self) -> bool
        ensures { IsTrue result ↔ IsStrict self }
    {
        self.0 & SortMods::STRICT != 0
    }

    pub fn is_provable(self) -> bool
        ensures { IsTrue result ↔ IsProvable self }
    {
        self.0 & SortMods::PROVABLE != 0
    }

    pub fn is_free(self) -> bool
        ensures { IsTrue result ↔ IsFree self }
    {
        self.0 & SortMods::FREE != 0
    }
}

/// The places of the bound parameters on which something depends. Variables that depend on the same ones
/// may share their places.
#[derive(Drop)]
pub struct Deps {
    places: PlaceList,
}

/// How places are kept.
#[derive(Drop)]
enum PlaceList {
    Empty,
    /// None is below the one before it, as was seen when they were taken over.
    Ascending(RcSlice<u32>),
    Unordered(RcSlice<u32>),
}

impl Model for Deps {
    ghost use Rattle.std.specs.Prelude.{List, ℕ};

    ghost Value = { List ℕ };

    ghost use Rattle.mz_logic_theory.specs.PlaceLists.{places_kept, AscendAsSaid};

    ghost view = { λ a. places_kept a.places };

    ghost invariant = { λ a. AscendAsSaid a.places };
}

impl Deps {
    /// No places. It takes no memory.
    pub fn new() -> Deps
        ensures { result ≡ [] }
    {
        Deps {
            places: PlaceList::Empty,
        }
    }

    /// These places.
    ///
    /// # Errors
    ///
    /// Where there is no memory.
    pub fn from_vec(places: Vec<u32>) -> Result<Deps, AllocError>
        ensures { IfOk result (λ deps. deps ≡ places.items) }
    {
        if places.is_empty() {
            return Ok(Deps::new());
        }
        let ascend = places.is_sorted();
        let shared = RcSlice::from_vec(places)?;
        if ascend {
            return Ok(Deps {
                places: PlaceList::Ascending(shared),
            });
        }
        Ok(Deps {
            places: PlaceList::Unordered(shared),
        })
    }

    /// The same places, which are kept once for both.
    ///
    /// # Errors
    ///
    /// Where more share them than can be counted.
    pub fn share(&self) -> Result<Deps, AllocError>
        ensures { IfOk result (λ deps. deps ≡ self.now) }
    {
        let places = match &self.places {
            PlaceList::Empty => PlaceList::Empty,
            PlaceList::Ascending(places) => PlaceList::Ascending(places.clone()?),
            PlaceList::Unordered(places) => PlaceList::Unordered(places.clone()?),
        };
        Ok(Deps { places })
    }

    /// The places in order.
    pub fn as_slice(&self) -> &[u32]
        ensures { result.now ≡ self.now }
    {
        match &self.places {
            PlaceList::Empty => &[],
            PlaceList::Ascending(places) => places.as_slice(),
            PlaceList::Unordered(places) => places.as_slice(),
        }
    }

    /// Whether the place is one of them. Where they ascend, a few are looked at, else all.
    pub fn has(&self, place: u32) -> bool
        ensures { IsTrue result ↔ Contains self.now place }
    {
        match &self.places {
            PlaceList::Empty => false,
            PlaceList::Ascending(places) => is_among(place, places.as_slice(), true),
            PlaceList::Unordered(places) => is_among(place, places.as_slice(), false),
        }
    }
}

/// Whether the place is one of these, which may be said to ascend.
fn is_among(place: u32, places: &[u32], ascend: bool) -> bool
    requires { ascend ≡ true → IsNonDecreasing places.now }
    ensures { IsTrue result ↔ Contains places.now place }
{
    if ascend {
        places.binary_search(&place).is_ok()
    } else {
        places.contains(&place)
    }
}

/// A variable of a context: bound, or regular with the places of the bound parameters on which it
/// depends.
#[derive(Drop)]
pub struct Binder {
    pub sort: u32,
    pub bound: bool,
    pub deps: Deps,
}

/// So many binders are quick to compare one by one, so that nothing is noted of them.
const LONG: usize = 16;

/// A list of binders.
#[derive(Drop)]
pub struct Binders {
    items: Vec<Binder>,
    // places, in long lists alone, where the dependencies are known to be those of the binder before
    alike: Vec<usize>,
}

impl Model for Binders {
    ghost use Rattle.std.specs.Prelude.{List, All};
    ghost use Rattle.mz_logic_theory.specs.Alike.{DependsAsPrevious};
    ghost use Rattle.mz_logic_theory.specs.declared.binder.Binder.{Binder};

    ghost Value = { List Binder };

    ghost view = { λ a. a.items.items };

    ghost invariant = { λ a. All (DependsAsPrevious a.items.items) a.alike.items };
}

impl Binders {
    /// No binders.
    pub fn new(alloc: Global) -> Binders
        ensures { result ≡ [] }
    {
        Binders {
            items: Vec::new(alloc),
            alike: Vec::new(alloc),
        }
    }

    /// No binders, with room for so many.
    ///
    /// # Errors
    ///
    /// Where there is no memory.
    pub fn with_capacity(alloc: Global, many: usize) -> Result<Binders, AllocError>
        ensures { IfOk result (λ binders. binders ≡ []) }
    {
        let items = Vec::with_capacity(alloc, many)?;
        Ok(Binders::from_vec(items))
    }

    /// These binders.
    pub fn from_vec(items: Vec<Binder>) -> Binders
        ensures { result ≡ items.items }
    {
        let alloc = *items.allocator();
        Binders {
            items,
            alike: Vec::new(alloc),
        }
    }

    /// Appends a binder.
    ///
    /// # Errors
    ///
    /// Where there is no memory. The list is unchanged then, and the binder is given back.
    pub fn push(&mut self, binder: Binder) -> Result<(), AllocFailed<Binder>>
        ensures ok { OnOk result (self.new ≡ self.old ++ binder ∷ []) }
        ensures err { IfErr result (λ e. e.value ≡ binder) }
        ensures same { OnErr result (self.new ≡ self.old) }
    {
        push_tightly(&mut self.items, binder)
    }

    /// Appends a binder that depends on what the last one does, and on nothing where there is none. The
    /// places are kept once for both.
    ///
    /// # Errors
    ///
    /// Where there is no memory, or more share the places than can be counted. The list is unchanged then.
    pub fn push_alike(&mut self, sort: u32, bound: bool) -> Result<(), AllocError>
        ensures ok { OnOk result (self.new ≡ self.old ++ record { sort = sort; bound = bound; deps = deps_at self.old (length self.old - 1) } ∷ []) }
        ensures err { OnErr result (self.new ≡ self.old) }
    {
        let deps = self.last_deps()?;
        let binder = Binder { sort, bound, deps };
        if self.items.len() < LONG {
            return Ok(self.push(binder)?);
        }
        self.push_marked(binder)
    }

    /// Appends a binder that depends on what the last one does, and notes that it does.
    fn push_marked(&mut self, binder: Binder) -> Result<(), AllocError>
        requires { binder.deps ≡ deps_at self.old (length self.old - 1) }
        ensures ok { OnOk result (self.new ≡ self.old ++ binder ∷ []) }
        ensures err { OnErr result (self.new ≡ self.old) }
    {
        let place = self.items.len();
        push_tightly(&mut self.alike, place)?;
        match push_tightly(&mut self.items, binder) {
            Ok(()) => Ok(()),
            Err(failed) => {
                self.alike.pop();
                Err(failed.into())
            }
        }
    }

    /// On what the last one depends.
    fn last_deps(&self) -> Result<Deps, AllocError>
        ensures { IfOk result (λ deps. deps ≡ deps_at self.now (length self.now - 1)) }
    {
        match self.items.last() {
            None => Ok(Deps::new()),
            Some(binder) => binder.deps.share(),
        }
    }

    /// How many there are.
    pub fn len(&self) -> usize
        ensures { result ≡ length self.now }
    {
        self.items.len()
    }

    /// The binders in order.
    pub fn as_slice(&self) -> &[Binder]
        ensures { result.now ≡ self.now }
    {
        &self.items
    }

    /// Whether the i-th one and the one before it share what they depend on, kept once for both. No clause
    /// says that it is reported where it is so, since how the places are kept isn't to be seen.
    pub fn shares_with_previous(&self, i: usize) -> bool
        requires { 0 < i }
        ensures { IsTrue result → deps_at self.now (i - 1) ≡ deps_at self.now i }
    {
        self.alike.binary_search(&i).is_ok()
    }
}

/// The sort of a term's values, and the bound parameters on which they depend.
#[derive(Drop)]
pub struct ResultType {
    pub sort: u32,
    pub deps: Deps,
}
