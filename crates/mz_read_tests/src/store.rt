ghost use Rattle.std.specs.Prelude.{ℕ, ◌≡◌, ◌<◌, ◌∷◌, [], IsTrue, length, true, false};
ghost use Rattle.mz_logic_theory.specs.Words.{BitsRight, signatures_of, word_bound, word_sort};
ghost use Rattle.mz_logic_theory.specs.Sorts.{IsBoundVar};
ghost use Rattle.mz_store.specs.Sharing.{IsIn, AreIn, sort_of, tree_of, trees_of, IsOver, CanTake};

use crate::expect::{expect, expect_part};
use mz_logic_theory::{SortMods, Terms, Word};
use mz_store::{DepsMode, Id, Store};
use std::alloc::{AllocError, Global};
use std::marker::Model;
use std::process::Abort;

const IM: u32 = 0;

const ALL: u32 = 1;

const LAM: u32 = 2;

/// The sorts wff and nat, and the terms `im (a b: wff): wff`, `all {x: nat} (p: wff x): wff` and
/// `lam {x: nat} (p: wff x): nat x`.
#[derive(Drop)]
struct Sample;

impl Terms for Sample {
    ghost all_sorts = { λ _. record { 0 = 4 } ∷ record { 0 = 0 } ∷ [] };

    ghost all_terms = { λ _.
        record { params = record { 0 = 0 } ∷ record { 0 = 0 } ∷ []; result = record { 0 = 0 }; has_body = false }
        ∷ record { params = record { 0 = 0x8100_0000_0000_0001 } ∷ record { 0 = 1 } ∷ []; result = record { 0 = 0 }; has_body = false }
        ∷ record { params = record { 0 = 0x8100_0000_0000_0001 } ∷ record { 0 = 1 } ∷ []; result = record { 0 = 0x0100_0000_0000_0001 }; has_body = false }
        ∷ [] };

    fn sorts(&self) -> u32 {
        2
    }

    fn mods(&self, s: u32) -> SortMods {
        SortMods(if s == 0 { SortMods::PROVABLE } else { 0 })
    }

    fn terms(&self) -> u32 {
        3
    }

    fn arity(&self, _: u32) -> u32 {
        2
    }

    fn param(&self, t: u32, i: u32) -> Word {
        Word(match (t, i) {
            (0, _) => 0,
            (_, 0) => 0x8100_0000_0000_0001,
            _ => 1,
        })
    }

    fn result(&self, t: u32) -> Word {
        Word(if t == LAM { 0x0100_0000_0000_0001 } else { 0 })
    }

    fn has_body(&self, _: u32) -> bool {
        false
    }
}

/// A store over a table of terms, whose calls test what the store's calls ask.
#[derive(Drop)]
struct Bench<T: Terms> {
    terms: T,
    store: Store,
}

impl<T: Terms> Model for Bench<T> {
    ghost use Rattle.mz_logic_theory.specs.Words.{signatures_of};
    ghost use Rattle.mz_store.specs.Sharing.{Sharing, IsOver};
    ghost use Rattle.mz_store.specs.Codes.{sharing_code};

    ghost Value = { Sharing };

    ghost coded = { sharing_code };

    ghost view = { λ b. b.store };

    ghost invariant = { λ b. IsOver (signatures_of (T.all_terms b.terms)) b.store };
}

#[derive(Debug, Drop)]
enum Fault {
    Memory,
    Unfit,
}

impl<T: Terms> Bench<T> {
    fn new(alloc: Global, terms: T) -> Bench<T> {
        Bench {
            terms,
            store: Store::new(alloc),
        }
    }

    fn begin(&mut self, params: &[Word], mode: DepsMode) -> Result<(), AllocError>
        requires { BitsRight params.now }
    {
        self.store.begin(params, mode)
    }

    fn dummy(&mut self, sort: u32) -> Result<Id, Fault> {
        if self.store.bound_count() >= 55 {
            return Err(Fault::Unfit);
        }
        self.store.dummy(sort).map_err(|_| Fault::Memory)
    }

    fn app(&mut self, t: u32, args: &[Id]) -> Result<Id, Fault> {
        if !can_take(&self.store, &self.terms, t, args) {
            return Err(Fault::Unfit);
        }
        self.store
            .app(&self.terms, t, args)
            .map_err(|_| Fault::Memory)
    }

    /// What the store says of an expression that it has.
    fn told(&self, id: Id) -> Option<Told> {
        if id.0 as usize >= self.store.len() {
            return None;
        }
        Some(Told {
            sort: self.store.sort_of(id),
            bound: self.store.is_bound(id),
            deps: self.store.deps(id),
            head: self.store.head(id),
        })
    }

    fn same(&self, a: Id, b: Id) -> Option<bool> {
        let many = self.store.len();
        if a.0 as usize >= many || b.0 as usize >= many {
            return None;
        }
        Some(self.store.same(a, b))
    }

    fn has_operands(&self, id: Id, operands: &[Id]) -> bool {
        (id.0 as usize) < self.store.len() && self.store.args(id) == operands
    }
}

/// An expression's sort, whether it is a bound variable, its word and its head.
#[derive(Clone, Copy, PartialEq, Eq, Debug)]
struct Told {
    sort: u32,
    bound: bool,
    deps: u64,
    head: Option<u32>,
}

/// Whether the term may be put over these operands.
fn can_take<T: Terms>(store: &Store, terms: &T, t: u32, args: &[Id]) -> bool
    requires { IsOver (signatures_of (T.all_terms terms.now)) store.now }
    ensures { IsTrue result → AreIn store.now args.now × CanTake (T.all_terms terms.now) store.now.context t (trees_of store.now args.now) }
{
    if t >= terms.terms() || terms.arity(t) as usize != args.len() {
        return false;
    }
    for i in 0..args.len() {
        if !is_fit(store, terms.param(t, i as u32), args[i]) {
            return false;
        }
    }
    true
}

/// Whether the store has the operand, and it fits the parameter.
fn is_fit(store: &Store, param: Word, arg: Id) -> bool
    ensures { IsTrue result → IsIn store.now arg.0 × (sort_of store.now arg.0 ≡ word_sort param) × (word_bound param ≡ true → IsBoundVar store.now.context (tree_of store.now arg.0)) }
{
    if arg.0 as usize >= store.len() || store.sort_of(arg) != param.sort() {
        return false;
    }
    !param.bound() || store.is_bound(arg)
}

/// `{x y: nat} (p: wff x) (q: wff x y) (r: wff)`.
const PARAMS: [Word; 5] = [
    Word(0x8100_0000_0000_0001),
    Word(0x8100_0000_0000_0002),
    Word(1),
    Word(3),
    Word(0),
];

/// What is built over them: a term with two operands, its sort, all its variables and the free ones.
const BUILT: &[(u32, u32, u32, u32, u64, u64, &str)] = &[
    (IM, 2, 3, 0, 3, 3, "5: im p q"),
    (ALL, 0, 2, 0, 1, 0, "6: all x p, whose x is not free"),
    (ALL, 1, 2, 0, 3, 1, "7: all y p"),
    (ALL, 0, 3, 0, 3, 2, "8: all x q"),
    (LAM, 0, 2, 1, 1, 1, "9: lam x p, whose result depends on x"),
    (LAM, 1, 2, 1, 3, 3, "10: lam y p"),
    (LAM, 1, 4, 1, 2, 2, "11: lam y r"),
    (ALL, 1, 4, 0, 2, 0, "12: all y r"),
    (IM, 5, 7, 0, 3, 3, "13: im (im p q) (all y p)"),
    (ALL, 0, 13, 0, 3, 2, "14: all x (13)"),
    (ALL, 1, 14, 0, 3, 0, "15: all y (14)"),
];

/// The parameters' sorts, boundness, words and names.
const ENTERED: &[(u32, bool, u64, &str)] = &[
    (1, true, 1, "variable 0"),
    (1, true, 2, "variable 1"),
    (0, false, 1, "variable 2"),
    (0, false, 3, "variable 3"),
    (0, false, 0, "variable 4"),
];

fn expect_told(rt: &impl Abort, bench: &Bench<Sample>, id: Id, told: Told, what: &str) {
    assert_eq!(rt; bench.told(id), Some(told), "{what}");
}

fn expect_operands(rt: &impl Abort, bench: &Bench<Sample>, id: Id, operands: &[Id], what: &str) {
    expect_part(rt, bench.has_operands(id, operands), "operands", what);
}

/// Tests that the store has the parameters.
fn check_entered(rt: &impl Abort, bench: &Bench<Sample>) {
    expect(rt, bench.store.bound_count() == 2, "bound variables");
    for (i, (sort, bound, deps, what)) in ENTERED.iter().enumerate() {
        let told = Told {
            sort: *sort,
            bound: *bound,
            deps: *deps,
            head: None,
        };
        let id = Id::at(i).expect(rt, "an id");
        expect_told(rt, bench, id, told, what);
        expect_operands(rt, bench, id, &[], what);
    }
}

/// Tests that the store has the parameters, and the first of what is built over them.
fn check_built(rt: &impl Abort, bench: &Bench<Sample>, mode: DepsMode, many: usize) {
    expect(rt, bench.store.len().saturating_sub(5) == many, "how many");
    check_entered(rt, bench);
    for (i, (term, a, b, sort, all, free, what)) in BUILT.iter().take(many).enumerate() {
        let told = Told {
            sort: *sort,
            bound: false,
            deps: match mode {
                DepsMode::All => *all,
                DepsMode::Free => *free,
            },
            head: Some(*term),
        };
        let id = Id::at(5 + i).expect(rt, "an id");
        expect_told(rt, bench, id, told, what);
        expect_operands(rt, bench, id, &[Id(*a), Id(*b)], what);
    }
}

/// Begins, and where memory is refused, tests that the store is empty and begins again.
fn begin(rt: &impl Abort, bench: &mut Bench<Sample>, mode: DepsMode) {
    if bench.begin(&PARAMS, mode).is_ok() {
        return;
    }
    expect(rt, bench.store.len() == 0, "empty after a refused begin");
    expect(
        rt,
        bench.store.bound_count() == 0,
        "no variables after a refused begin",
    );
    bench.begin(&PARAMS, mode).expect(rt, "memory");
}

/// Puts a term over two operands. Where memory is refused, the store is as before, with `many` built.
fn build(
    rt: &impl Abort,
    bench: &mut Bench<Sample>,
    mode: DepsMode,
    many: usize,
    t: u32,
    operands: &[Id],
) -> Id {
    if let Ok(id) = bench.app(t, operands) {
        return id;
    }
    check_built(rt, bench, mode, many);
    bench.app(t, operands).expect(rt, "memory")
}

/// Builds all of it, and tests after each growth that was refused that the store is as before.
fn build_all(rt: &impl Abort, alloc: Global, mode: DepsMode) {
    let mut bench = Bench::new(alloc, Sample);
    begin(rt, &mut bench, mode);
    for (i, (term, a, b, _, _, _, what)) in BUILT.iter().enumerate() {
        let first = build(rt, &mut bench, mode, i, *term, &[Id(*a), Id(*b)]);
        let id = Id::at(5 + i).expect(rt, "an id");
        expect_part(rt, first == id, "the id", what);
        check_built(rt, &bench, mode, i.saturating_add(1));
    }
    for (i, (term, a, b, _, _, _, what)) in BUILT.iter().enumerate() {
        let again = build(rt, &mut bench, mode, BUILT.len(), *term, &[Id(*a), Id(*b)]);
        let id = Id::at(5 + i).expect(rt, "an id");
        expect_part(rt, again == id, "again", what);
    }
    check_built(rt, &bench, mode, BUILT.len());
}

#[test]
fn all_variables(rt: HostRuntime) {
    build_all(&rt, rt.alloc(), DepsMode::All);
}

#[test]
fn free_variables(rt: HostRuntime) {
    build_all(&rt, rt.alloc(), DepsMode::Free);
}

/// A store over the parameters.
fn begun(rt: &(impl Abort + AllocGlobal), params: &[Word], mode: DepsMode) -> Bench<Sample>
    requires { BitsRight params.now }
{
    let mut bench = Bench::new(rt.alloc(), Sample);
    bench.begin(params, mode).expect(rt, "memory");
    bench
}

fn app(rt: &impl Abort, bench: &mut Bench<Sample>, t: u32, operands: &[Id]) -> Id {
    bench
        .app(t, operands)
        .expect(rt, "a term over its operands")
}

/// A tree of 2^71 - 1 nodes takes 70 ids beside that of its leaves, and built a second time it is
/// the same.
#[test]
fn more_nodes_than_numbers(rt: HostRuntime) {
    let mut bench = begun(&rt, &[Word(0), Word(0)], DepsMode::All);
    let (mut first, mut second, mut other) = (Id(0), Id(0), Id(1));
    for _ in 0..70 {
        first = app(&rt, &mut bench, IM, &[first, first]);
        second = app(&rt, &mut bench, IM, &[second, second]);
        other = app(&rt, &mut bench, IM, &[other, other]);
    }
    expect(
        &rt,
        bench.store.len() == 142,
        "two leaves, and 70 ids over each",
    );
    expect(&rt, bench.same(first, second) == Some(true), "built twice");
    expect(
        &rt,
        bench.same(first, other) == Some(false),
        "over another leaf",
    );
}

/// Trees that differ in one place, in the order of operands, or in the head.
#[test]
fn different_trees(rt: HostRuntime) {
    let mut bench = begun(&rt, &PARAMS, DepsMode::All);
    let forward = app(&rt, &mut bench, IM, &[Id(2), Id(3)]);
    let back = app(&rt, &mut bench, IM, &[Id(3), Id(2)]);
    let bound = app(&rt, &mut bench, ALL, &[Id(0), Id(2)]);
    let lambda = app(&rt, &mut bench, LAM, &[Id(0), Id(2)]);
    let others = bench.same(forward, back);
    expect(&rt, others == Some(false), "operands in another order");
    expect(
        &rt,
        bench.same(bound, lambda) == Some(false),
        "another head",
    );
    expect(&rt, bench.same(back, back) == Some(true), "itself");
    let unfit = bench.app(ALL, &[Id(2), Id(2)]);
    expect(&rt, matches!(unfit, Err(Fault::Unfit)), "p isn't bound");
}

/// Adds the dummy of this number to a store with two bound variables and an expression over five.
fn expect_dummy(rt: &impl Abort, bench: &mut Bench<Sample>, i: u32)
    requires { i < 53 }
{
    let told = Told {
        sort: 1,
        bound: true,
        deps: 1 << (2 + i),
        head: None,
    };
    let dummy = bench.dummy(1).expect(rt, "a dummy");
    assert!(rt; dummy == Id(6 + i), "the id of dummy {i}");
    assert!(rt; bench.told(dummy) == Some(told), "dummy {i}");
}

#[test]
fn dummies(rt: HostRuntime) {
    let mut bench = begun(&rt, &PARAMS, DepsMode::Free);
    let before = app(&rt, &mut bench, IM, &[Id(2), Id(3)]);
    for i in 0..53 {
        expect_dummy(&rt, &mut bench, i);
    }
    expect(&rt, bench.store.bound_count() == 55, "all bits");
    let unfit = bench.dummy(1);
    expect(&rt, matches!(unfit, Err(Fault::Unfit)), "no bit is left");
    let again = app(&rt, &mut bench, IM, &[Id(2), Id(3)]);
    expect(&rt, again == before, "built before the dummies");
    let last = app(&rt, &mut bench, ALL, &[Id(58), before]);
    let told = Told {
        sort: 0,
        bound: false,
        deps: 3,
        head: Some(ALL),
    };
    expect_told(
        &rt,
        &bench,
        last,
        told,
        "the last dummy doesn't stand in it",
    );
}

/// After `begin` what was built is gone, and its ids are those of other trees.
#[test]
fn begun_again(rt: HostRuntime) {
    let mut bench = begun(&rt, &PARAMS, DepsMode::All);
    app(&rt, &mut bench, IM, &[Id(2), Id(3)]);
    bench
        .begin(&[Word(0), Word(0), Word(0), Word(0)], DepsMode::Free)
        .expect(&rt, "memory");
    expect(&rt, bench.store.len() == 4, "the parameters alone");
    expect(&rt, bench.store.bound_count() == 0, "none of them bound");
    let id = app(&rt, &mut bench, IM, &[Id(2), Id(3)]);
    expect(&rt, id == Id(4), "built again");
    let told = Told {
        sort: 0,
        bound: false,
        deps: 0,
        head: Some(IM),
    };
    expect_told(
        &rt,
        &bench,
        id,
        told,
        "over variables that depend on nothing",
    );
}
