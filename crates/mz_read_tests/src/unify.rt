// Streams run over a small store, with what the format says of them.
ghost use Rattle.std.specs.Prelude.{◌≡◌, ◌<◌, ◌^◌, ◌∷◌, [], true, false, List, IsTrue, IfOk, OnOk, length};
ghost use Rattle.mz_logic_theory.specs.Signature.{Signature};
ghost use Rattle.mz_logic_theory.specs.Sorts.{HasSort, IsBoundVar};
ghost use Rattle.mz_logic_theory.specs.Words.{signatures_of, word_sort, word_bound};
ghost use Rattle.mz_store.specs.Sharing.{AreIn, IsIn, tree_of, trees_of, IsOver, CanTake};
ghost use Rattle.mz_store.specs.declared.item.DepsMode.TheVariants.{All as AllVars};
ghost use Rattle.mz_unify.specs.Stored.{AreItemsIn};

use crate::expect::expect_part;
use mz_cmd::{K, Steps};
use mz_logic_theory::{SortMods, Terms, Word};
use mz_store::{DepsMode, Id, Item, Store};
use mz_unify::{Unified, UnifyMode, unify};
use std::alloc::Global;
use std::marker::Brand;
use std::process::Abort;
use std::sync::ledger::{Blank, Ledger};

/// The sorts wff and nat, and the terms 0, `im (a b: wff): wff`, and 1, `all {x: nat} (p: wff x): wff`.
#[derive(Drop)]
struct Sample;

impl Terms for Sample {
    ghost all_sorts = { λ _. record { 0 = 4 } ∷ record { 0 = 0 } ∷ [] };

    ghost all_terms = { λ _.
        record { params = record { 0 = 0 } ∷ record { 0 = 0 } ∷ []; result = record { 0 = 0 }; has_body = false }
        ∷ record { params = record { 0 = 0x8100_0000_0000_0001 } ∷ record { 0 = 1 } ∷ []; result = record { 0 = 0 }; has_body = false }
        ∷ [] };

    fn sorts(&self) -> u32 {
        2
    }

    fn mods(&self, s: u32) -> SortMods {
        SortMods(if s == 0 { SortMods::PROVABLE } else { 0 })
    }

    fn terms(&self) -> u32 {
        2
    }

    fn arity(&self, _: u32) -> u32 {
        2
    }

    fn param(&self, t: u32, i: u32) -> Word {
        Word(match (t, i) {
            (0, _) => 0,
            (_, 0) => 0x8100_0000_0000_0001,
            _ => 1,
        })
    }

    fn result(&self, _: u32) -> Word {
        Word(0)
    }

    fn has_body(&self, _: u32) -> bool {
        false
    }
}

#[derive(Debug, Drop)]
enum Fault {
    Memory,
    Unfit,
}

/// `{x y: nat} (p: wff x) (q: wff)`, the ids 0 to 3.
const PARAMS: [Word; 4] = [
    Word(0x8100_0000_0000_0001),
    Word(0x8100_0000_0000_0002),
    Word(1),
    Word(0),
];

/// What is built over them, from the id 4 on: a term and its operands.
const BUILT: &[(u32, usize, usize)] = &[
    (0, 2, 3), // 4: im p q
    (0, 4, 4), // 5: im (im p q) (im p q)
    (0, 3, 2), // 6: im q p
    (0, 4, 6), // 7: im (im p q) (im q p)
    (1, 0, 2), // 8: all x p
    (1, 1, 2), // 9: all y p
    (1, 0, 3), // 10: all x q
    (1, 1, 3), // 11: all y q
    (0, 10, 10), // 12: im (all x q) (all x q)
    (0, 10, 11), // 13: im (all x q) (all y q)
];

/// Whether the expression may stand for the parameter.
fn fits(store: &Store, id: Id, param: Word) -> bool
    requires { IsIn store.now id.0 }
    ensures { (sigs : List Signature) → IsOver sigs store.now → IsTrue result → HasSort sigs store.now.context (tree_of store.now id.0) (word_sort param) × (word_bound param ≡ true → IsBoundVar store.now.context (tree_of store.now id.0)) }
{
    if store.sort_of(id) != param.sort() {
        return false;
    }
    if param.bound() {
        store.is_bound(id)
    } else {
        true
    }
}

/// Whether the term may be put over these two operands.
fn can_take<T: Terms>(store: &Store, terms: &T, t: u32, a: Id, b: Id) -> bool
    requires over { IsOver (signatures_of (T.all_terms terms.now)) store.now }
    requires first { IsIn store.now a.0 }
    requires second { IsIn store.now b.0 }
    ensures { IsTrue result → CanTake (T.all_terms terms.now) store.now.context t (trees_of store.now (a ∷ b ∷ [])) }
{
    if t >= terms.terms() {
        return false;
    }
    if terms.arity(t) != 2 {
        return false;
    }
    if !fits(store, a, terms.param(t, 0)) {
        return false;
    }
    fits(store, b, terms.param(t, 1))
}

/// The expression with this number.
fn numbered(store: &Store, ids: &[Id], place: usize) -> Result<Id, Fault>
    requires { AreIn store.now ids.now }
    ensures { IfOk result (λ id. IsIn store.now id.0) }
{
    match ids.get(place) {
        Some(id) => Ok(*id),
        None => Err(Fault::Unfit),
    }
}

/// Builds one more expression.
fn add<T: Terms>(
    terms: &T,
    store: &mut Store,
    ids: &mut Vec<Id>,
    built: (u32, usize, usize),
) -> Result<(), Fault>
    requires over { IsOver (signatures_of (T.all_terms terms.now)) store.old }
    requires ids { AreIn store.old ids.old.items }
    ensures over { OnOk result (IsOver (signatures_of (T.all_terms terms.now)) store.new) }
    ensures ids { OnOk result (AreIn store.new ids.new.items) }
    ensures mode { store.new.mode ≡ store.old.mode }
{
    let (t, a, b) = built;
    let first = numbered(store, ids, a)?;
    let second = numbered(store, ids, b)?;
    if !can_take(store, terms, t, first, second) {
        return Err(Fault::Unfit);
    }
    let Ok(id) = store.app(terms, t, &[first, second]) else {
        return Err(Fault::Memory);
    };
    match ids.push(id) {
        Ok(()) => Ok(()),
        Err(_) => Err(Fault::Memory),
    }
}

/// The parameters, and what is built over them.
fn build<T: Terms>(alloc: Global, terms: &T, store: &mut Store) -> Result<Vec<Id>, Fault>
    ensures over { OnOk result (IsOver (signatures_of (T.all_terms terms.now)) store.new) }
    ensures ids { IfOk result (λ ids. AreIn store.new ids.items) }
    ensures mode { OnOk result (store.new.mode ≡ AllVars) }
{
    let Ok(()) = store.begin(&PARAMS, DepsMode::All) else {
        return Err(Fault::Memory);
    };
    let Ok(mut ids) = Vec::from_slice(alloc, &[Id(0), Id(1), Id(2), Id(3)]) else {
        return Err(Fault::Memory);
    };
    for built in BUILT {
        add(terms, store, &mut ids, *built)?;
    }
    Ok(ids)
}

/// The expressions with these numbers.
fn chosen(alloc: Global, store: &Store, ids: &[Id], places: &[usize]) -> Result<Vec<Id>, Fault>
    requires { AreIn store.now ids.now }
    ensures { IfOk result (λ v. AreIn store.now v.items) }
{
    let mut chosen = Vec::new(alloc);
    for place in places {
        let id = numbered(store, ids, *place)?;
        let Ok(()) = chosen.push(id) else {
            return Err(Fault::Memory);
        };
    }
    Ok(chosen)
}

/// Proofs of the expressions with these numbers.
fn proofs(alloc: Global, store: &Store, ids: &[Id], places: &[usize]) -> Result<Vec<Item>, Fault>
    requires { AreIn store.now ids.now }
    ensures { IfOk result (λ v. AreItemsIn store.now v.items) }
{
    let mut proofs = Vec::new(alloc);
    for place in places {
        let id = numbered(store, ids, *place)?;
        let Ok(()) = proofs.push(Item::Proof(id)) else {
            return Err(Fault::Memory);
        };
    }
    Ok(proofs)
}

fn run<T: Terms, L: Ledger>(
    blank: Blank,
    terms: &T,
    stream: &[u8],
    mode: UnifyMode,
    heap: &mut Vec<Id>,
    target: Id,
    hyps: &mut Vec<Item>,
    store: &Store,
) -> Unified
    requires name { blank.name ≡ L.name }
    requires parts { blank.parts ≡ L.parts }
    requires some { 0 < blank.parts }
    requires stream { length stream.now < 2 ^ 32 }
    requires over { IsOver (signatures_of (T.all_terms terms.now)) store.now }
    requires all { store.now.mode ≡ AllVars }
    requires heap { AreIn store.now heap.old.items }
    requires target { IsIn store.now target.0 }
    requires hyps { AreItemsIn store.now hyps.old.items }
{
    let mut steps = Steps::<L>::start(blank);
    unify(terms, stream, mode, heap, target, hyps, store, &mut steps)
}

/// What is said of a stream, and the heap and how many items are left then.
fn said<T: Terms>(
    alloc: Global,
    terms: &T,
    store: &Store,
    ids: &[Id],
    mode: UnifyMode,
    stream: &[u8],
    operands: &[usize],
    target: usize,
    hyps: &[usize],
) -> Result<(Unified, Vec<Id>, usize), Fault>
    requires over { IsOver (signatures_of (T.all_terms terms.now)) store.now }
    requires all { store.now.mode ≡ AllVars }
    requires ids { AreIn store.now ids.now }
{
    let target = numbered(store, ids, target)?;
    if stream.len() >= 100 {
        return Err(Fault::Unfit);
    }
    let mut heap = chosen(alloc, store, ids, operands)?;
    let mut items = proofs(alloc, store, ids, hyps)?;
    let blank = Blank::new(1);
    let said = run::<T, Brand>(
        blank, terms, stream, mode, &mut heap, target, &mut items, store,
    );
    Ok((said, heap, items.len()))
}

/// A mode, a stream, the operands, the target and the hypotheses, the top one last; the hypotheses
/// taken and the heap in the end.
type Row<Wanted> = (
    UnifyMode,
    &'static [u8],
    &'static [usize],
    usize,
    &'static [usize],
    Wanted,
    &'static str,
);

const DONE: &[Row<(u32, &'static [u32])>] = &[
    (
        UnifyMode::Use,
        &[0x30, 0x32, 0x72, 1, 0],
        &[2, 3],
        4,
        &[],
        (0, &[2, 3]),
        "im a b, without hypotheses",
    ),
    (
        UnifyMode::Use,
        &[0xF0, 0, 0, 0, 0, 0xB2, 0, 0, 0x72, 1, 0x40, 7],
        &[2, 3],
        4,
        &[],
        (0, &[2, 3]),
        "long operands, and one at the END",
    ),
    (
        UnifyMode::Use,
        &[0x72, 1, 0x36, 0x32, 0x36, 0x30, 0x32, 0x72, 1, 0],
        &[2, 3],
        3,
        &[4, 2],
        (2, &[2, 3]),
        "a from h2, im a b from h1",
    ),
    (
        UnifyMode::Use,
        &[0x72, 1, 0x36, 0x32, 0x36, 0x30, 0x32, 0x72, 1, 0],
        &[2, 3],
        3,
        &[7, 6, 4, 2],
        (2, &[2, 3]),
        "what lies below stays",
    ),
    (
        UnifyMode::Final,
        &[0x72, 1, 0x36, 0x32, 0x36, 0x30, 0x32, 0x72, 1, 0],
        &[2, 3],
        3,
        &[4, 2],
        (2, &[2, 3]),
        "its own hypotheses, the last one first",
    ),
    (
        UnifyMode::Use,
        &[0x30, 0x31, 0x32, 0x72, 1, 0x72, 2, 0],
        &[2, 3],
        5,
        &[],
        (0, &[2, 3, 4]),
        "a saved application that is referred to",
    ),
    (
        UnifyMode::Use,
        &[0x31, 0x31, 0x32, 0x72, 1, 0x72, 3, 0],
        &[2, 3],
        5,
        &[],
        (0, &[2, 3, 5, 4]),
        "saved before its operands",
    ),
    (
        UnifyMode::Body,
        &[0x32, 0],
        &[7],
        7,
        &[6],
        (0, &[7]),
        "a body takes no items",
    ),
    (
        UnifyMode::Body,
        &[0x70, 1, 0x73, 1, 0x32, 0],
        &[3],
        10,
        &[],
        (0, &[3, 0]),
        "a dummy",
    ),
    (
        UnifyMode::Body,
        &[0x70, 1, 0x73, 1, 0x32, 0],
        &[2],
        9,
        &[],
        (0, &[2, 1]),
        "a dummy on which the operand doesn't depend",
    ),
    (
        UnifyMode::Body,
        &[0x30, 0x70, 1, 0x73, 1, 0x32, 0x70, 1, 0x73, 1, 0x32, 0],
        &[3],
        13,
        &[],
        (0, &[3, 0, 1]),
        "two dummies",
    ),
    (
        UnifyMode::Body,
        &[0x30, 0x70, 1, 0x73, 1, 0x32, 0x70, 1, 0x72, 1, 0x32, 0],
        &[3],
        12,
        &[],
        (0, &[3, 0]),
        "a dummy that is referred to",
    ),
    (
        UnifyMode::Body,
        &[0x31, 0x70, 1, 0x73, 1, 0x32, 0x70, 1, 0x73, 1, 0x32, 0],
        &[3],
        13,
        &[],
        (0, &[3, 13, 0, 1]),
        "a saved application isn't kept apart from dummies",
    ),
];

const REFUSED: &[Row<(u32, K)>] = &[
    (
        UnifyMode::Use,
        &[],
        &[2, 3],
        4,
        &[],
        (0, K::Command),
        "no command",
    ),
    (
        UnifyMode::Use,
        &[0x30, 0x72],
        &[2, 3],
        4,
        &[],
        (1, K::Command),
        "a cut command",
    ),
    (
        UnifyMode::Use,
        &[0x30, 0x32, 0x72, 1],
        &[2, 3],
        4,
        &[],
        (4, K::Command),
        "no END",
    ),
    (
        UnifyMode::Use,
        &[0x01],
        &[2, 3],
        4,
        &[],
        (0, K::Command),
        "an unknown code",
    ),
    (
        UnifyMode::Use,
        &[0x10],
        &[2, 3],
        4,
        &[],
        (0, K::Command),
        "a code of a proof",
    ),
    (
        UnifyMode::Use,
        &[0x73, 1],
        &[2, 3],
        0,
        &[],
        (0, K::Command),
        "a dummy in a citation",
    ),
    (
        UnifyMode::Final,
        &[0x73, 1],
        &[2, 3],
        0,
        &[],
        (0, K::Command),
        "a dummy in an assertion",
    ),
    (
        UnifyMode::Body,
        &[0x32, 0x36],
        &[3],
        3,
        &[2],
        (1, K::Command),
        "a hypothesis in a definition",
    ),
    (
        UnifyMode::Use,
        &[0x70, 1],
        &[2, 3],
        4,
        &[],
        (0, K::UnifyTerm),
        "another term",
    ),
    (
        UnifyMode::Use,
        &[0x30],
        &[2, 3],
        3,
        &[],
        (0, K::UnifyTerm),
        "a variable is no application",
    ),
    (
        UnifyMode::Use,
        &[0x71, 1],
        &[2, 3],
        4,
        &[],
        (0, K::UnifyTerm),
        "another term, to be saved",
    ),
    (
        UnifyMode::Use,
        &[0x32, 0x30],
        &[3],
        3,
        &[],
        (1, K::UnifyRest),
        "a term without a target",
    ),
    (
        UnifyMode::Use,
        &[0x32, 0x31],
        &[3],
        3,
        &[],
        (1, K::UnifyRest),
        "a saved term without a target",
    ),
    (
        UnifyMode::Use,
        &[0x32, 0x32],
        &[3],
        3,
        &[],
        (1, K::UnifyRest),
        "a reference without a target",
    ),
    (
        UnifyMode::Use,
        &[0x72, 2],
        &[2, 3],
        3,
        &[],
        (0, K::UnifyReference),
        "no such place",
    ),
    (
        UnifyMode::Use,
        &[0x32],
        &[2, 3],
        3,
        &[],
        (0, K::UnifyReference),
        "another variable",
    ),
    (
        UnifyMode::Use,
        &[0x30, 0x31, 0x32, 0x72, 1, 0x72, 2, 0],
        &[2, 3],
        7,
        &[],
        (5, K::UnifyReference),
        "the same head over other operands",
    ),
    (
        UnifyMode::Body,
        &[0x32, 0x73, 1],
        &[3],
        3,
        &[],
        (1, K::UnifyRest),
        "a dummy without a target",
    ),
    (
        UnifyMode::Body,
        &[0x73, 1],
        &[3],
        2,
        &[],
        (0, K::UnifyDummy),
        "not bound",
    ),
    (
        UnifyMode::Body,
        &[0x33],
        &[3],
        0,
        &[],
        (0, K::UnifyDummy),
        "another sort",
    ),
    (
        UnifyMode::Body,
        &[0x70, 1, 0x73, 1],
        &[2],
        8,
        &[],
        (2, K::UnifyDummy),
        "the operand depends on it",
    ),
    (
        UnifyMode::Body,
        &[0x30, 0x70, 1, 0x73, 1, 0x32, 0x70, 1, 0x73, 1, 0x32, 0],
        &[3],
        12,
        &[],
        (8, K::UnifyDummy),
        "two dummies on one variable",
    ),
    (
        UnifyMode::Use,
        &[0x36],
        &[2, 3],
        3,
        &[4],
        (0, K::UnifyRest),
        "a hypothesis before the target is done",
    ),
    (
        UnifyMode::Use,
        &[0x32, 0x36],
        &[3],
        3,
        &[],
        (1, K::Underflow),
        "no item on the stack",
    ),
    (
        UnifyMode::Final,
        &[0x32, 0x36],
        &[3],
        3,
        &[],
        (1, K::UnifyHypothesis),
        "no hypothesis left",
    ),
    (
        UnifyMode::Use,
        &[0x72, 1, 0x36, 0x32, 0x36, 0x30, 0x32, 0x72, 1, 0],
        &[2, 3],
        3,
        &[2, 4],
        (3, K::UnifyReference),
        "hypotheses in the other order",
    ),
    (
        UnifyMode::Use,
        &[0],
        &[2, 3],
        4,
        &[],
        (0, K::UnifyRest),
        "END with the target left",
    ),
    (
        UnifyMode::Body,
        &[0x30, 0x32, 0],
        &[2, 3],
        4,
        &[],
        (2, K::UnifyRest),
        "END with an operand left",
    ),
    (
        UnifyMode::Final,
        &[0x72, 1, 0x36, 0x32, 0x36, 0x30, 0x32, 0x72, 1, 0],
        &[2, 3],
        3,
        &[6, 4, 2],
        (9, K::UnifyRest),
        "END with a hypothesis left",
    ),
];

fn are_numbered(ids: &[Id], numbers: &[u32]) -> bool {
    ids.iter().map(|id| id.0).eq(numbers.iter().copied())
}

fn expect_said(rt: &impl Abort, said: Unified, wanted: Unified, what: &str) {
    assert_eq!(rt; said, wanted, "{what}");
}

fn check_done<T: Terms>(
    rt: &impl Abort,
    alloc: Global,
    terms: &T,
    rows: &[Row<(u32, &'static [u32])>],
) {
    let mut store = Store::new(alloc);
    let ids = build(alloc, terms, &mut store).expect(rt, "memory");
    for row in rows {
        let (mode, stream, operands, target, hyps, (taken, wanted), what) = *row;
        let (said, heap, left) = said(
            alloc, terms, &store, &ids, mode, stream, operands, target, hyps,
        )
        .expect(rt, "memory");
        expect_said(rt, said, Unified::Done { taken }, what);
        expect_part(rt, are_numbered(&heap, wanted), "the heap", what);
        let are_left = Some(left) == hyps.len().checked_sub(taken as usize);
        expect_part(rt, are_left, "items left", what);
    }
}

fn check_refused<T: Terms>(rt: &impl Abort, alloc: Global, terms: &T, rows: &[Row<(u32, K)>]) {
    let mut store = Store::new(alloc);
    let ids = build(alloc, terms, &mut store).expect(rt, "memory");
    for row in rows {
        let (mode, stream, operands, target, hyps, (at, rule), what) = *row;
        let (said, _, _) = said(
            alloc, terms, &store, &ids, mode, stream, operands, target, hyps,
        )
        .expect(rt, "memory");
        expect_said(rt, said, Unified::Refused { at, rule }, what);
    }
}

#[test]
fn streams_that_run(rt: HostRuntime) {
    check_done(&rt, rt.alloc(), &Sample, DONE);
}

#[test]
fn streams_that_are_refused(rt: HostRuntime) {
    check_refused(&rt, rt.alloc(), &Sample, REFUSED);
}
