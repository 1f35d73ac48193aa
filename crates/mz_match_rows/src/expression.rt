// An expression of a specification beside what a unify stream of a binary says. The recursion is on
// the specification's expression: the binary's may be far too large to be written out.
ghost use Rattle.std.specs.Prelude.{◌≡◌, ◌≤◌, ◌<◌, ◌-◌, ◌^◌, ◌↔◌, ℕ, Bool, true, false, IsTrue, MatchBool, reverse, List, Some, None, length, slice_get};
ghost use Rattle.mz_logic_theory.specs.Tree.{Tree, Trees, listed, var};
ghost use Rattle.mz_logic_theory.specs.View.{tree};
ghost use Rattle.mz_layout_tables.specs.Tables.{term_count, term_row};
ghost use Rattle.mz_machine_theory.specs.Spells.{Marks, trees_of};
ghost use Rattle.mz_match_rows.specs.Streams.{mark_from, step_at as step_lem};
ghost use Rattle.mz_spec_proved_theory.specs.AlphaTrees.{SameBody, SameTree, SameTrees};
ghost use Rattle.mz_spec_proved_theory.specs.Comparison.{all_none, all_compared, compared, dummy_compared, has_sort as sort_lem, is_taken as taken_lem, is_number as number_lem, paired};
ghost use Rattle.mz_match_rows.specs.TermCodes.{makes_term as term_lem};
ghost use Rattle.mz_match_rows.specs.Comparison.{Answers};
ghost use Rattle.mz_match_rows.specs.Numbers.{AreRight};
ghost use Rattle.mz_match_rows.specs.Beside.{AllSaidAt, at_start, HypsSaidAt, IsHypAt, IsPlainStream, IsStream, MadeAt, SaidAt, beside};

use crate::by_number::same_from;
use crate::formulas::Formulas;
use crate::heap::place_of_mark;
use crate::publics::Publics;
use crate::stream::{Cursor, Step, next_hyp, step_at};
use mz_cmd::UnifyCode;
use mz_layout_tables::Mmb;
use mz_logic_theory::{Binder, Expr, ExprRef, Hyps, Operands, Shape, Terms};

/// What is compared: a unify stream of the file, that begins at `start` and is over so many
/// parameters, beside expressions of a specification over as many and these dummies. `places` has
/// those of the stream's marks that are kept.
#[derive(Drop)]
pub struct Sides<'a> {
    pub mmb: &'a Mmb<'a>,
    pub publics: &'a Publics,
    pub dummies: &'a [Binder],
    pub start: u32,
    pub places: Vec<Cursor>,
    pub params: u32,
}

impl<'a> Sides<'a> {
    /// Where the stream makes the mark with this number, which is no parameter's.
    pub(crate) fn place_of(&self, mark: u32) -> Option<Cursor>
        requires stream { (m : Marks) × IsStream self.now m }
        requires behind { self.now.params ≤ mark }
        ensures { (n : ℕ) (place : Cursor) → mark_from self.now.mmb.now n self.now.start 0 (mark - self.now.params) ≡ Some place → result ≡ Some place }
    {
        let places = self.places.as_slice();
        place_of_mark(self.mmb, self.start, places, mark - self.params)
    }
}

/// Whether the body is the one that the stream says, up to the names of dummies: which of the
/// specification's each of the binary's stands for is kept, and a row has at most 55.
pub fn same_body(sides: &Sides, body: &Expr) -> bool
    requires { (m : Marks) × (f : Tree) × (to : Cursor) × IsStream sides.now m × SaidAt sides.now m (at_start sides.now) f to }
    ensures { (m : Marks) (f : Tree) (to : Cursor) → IsStream sides.now m → SaidAt sides.now m (at_start sides.now) f to
        → (IsTrue result ↔ SameBody sides.now.publics.now sides.now.params sides.now.dummies.now m.dummies (tree body.now) f) }
{
    let mut pairs = no_pairs();
    let start = Cursor {
        at: sides.start,
        dummies: 0,
    };
    same_at(sides, &body.borrowed(), start, &mut pairs).is_some()
}

/// Whether the expression is the one that the stream says first.
pub fn same_first(sides: &Sides, expr: &Expr) -> bool
    requires { (m : Marks) × (f : Tree) × (to : Cursor) × IsPlainStream sides.now m × SaidAt sides.now m (at_start sides.now) f to }
    ensures { (m : Marks) (f : Tree) (to : Cursor) → IsPlainStream sides.now m → SaidAt sides.now m (at_start sides.now) f to
        → (IsTrue result ↔ SameTree sides.now.publics.now (tree expr.now) f) }
{
    let start = Cursor {
        at: sides.start,
        dummies: 0,
    };
    same_tree(sides, expr, start)
}

/// Whether the stream says these hypotheses: behind the conclusion, from the last to the first.
pub fn same_hyps(sides: &Sides, hyps: &Hyps) -> bool
    requires { (m : Marks) × (hs : List Tree) × IsPlainStream sides.now m × HypsSaidAt sides.now m hs }
    ensures { (m : Marks) (hs : List Tree) → IsPlainStream sides.now m → HypsSaidAt sides.now m hs
        → (IsTrue result ↔ SameTrees sides.now.publics.now hyps.now (trees_of (reverse hs))) }
{
    // most statements have none: they need no formulas
    if hyps.len() == 0 {
        return next_hyp(sides.mmb.file(), sides.start).is_none();
    }
    let mut left = hyps.len();
    let mut at = sides.start;
    // no hypothesis stands at `left` yet, so nothing is known of it
    let mut known = Cursor { at, dummies: 0 };
    let mut formulas = Formulas::new(*sides.places.allocator());
    'hyps: loop {
        let Some(next) = next_hyp(sides.mmb.file(), at) else {
            return left == 0;
        };
        if left == 0 {
            return false;
        }
        let made = made_at(sides, next);
        if !same_hyp(sides, hyps, left, known, made, &mut formulas) {
            return false;
        }
        left -= 1;
        known = made;
        at = next;
    }
}

/// Where what the stream says from a place on is made: there, or where it makes the mark to which
/// the place refers. The clause holds of the place itself, too.
fn made_at(sides: &Sides, at: u32) -> Cursor
    requires { (m : Marks) × (f : Tree) × (to : Cursor) × IsStream sides.now m × SaidAt sides.now m (record { at = at; dummies = 0 }) f to }
    ensures { (m : Marks) (f : Tree) (to : Cursor) → IsStream sides.now m → SaidAt sides.now m (record { at = at; dummies = 0 }) f to
        → (end : Cursor) × SaidAt sides.now m result f end }
{
    let here = Cursor { at, dummies: 0 };
    let Some(step) = step_at(sides.mmb.file(), at) else {
        return here;
    };
    if !is_ref(step.code) {
        return here;
    }
    if step.value < sides.params {
        return here;
    }
    sides.place_of(step.value).unwrap_or(here)
}

/// Whether the hypothesis before the i-th one is what the stream says from `made` on.
///
/// The i-th one is what it says from `known` on: a formula that both share is compared once with a
/// place, and by its number with all others.
fn same_hyp(
    sides: &Sides,
    hyps: &Hyps,
    i: usize,
    known: Cursor,
    made: Cursor,
    formulas: &mut Formulas,
) -> bool
    requires some { 0 < i }
    requires there { i ≤ length (listed hyps.now) }
    requires known { IsHypAt sides.now hyps.now i known }
    requires said { (m : Marks) × (f : Tree) × (to : Cursor) × IsPlainStream sides.now m × SaidAt sides.now m made f to }
    requires right { AreRight sides.now hyps.now i formulas.old }
    ensures same { (e : Tree) (m : Marks) (f : Tree) (to : Cursor) → slice_get (listed hyps.now) (i - 1) ≡ Some e → IsPlainStream sides.now m → SaidAt sides.now m made f to
        → (IsTrue result ↔ SameTree sides.now.publics.now e f) }
    ensures right { AreRight sides.now hyps.now (i - 1) formulas.new }
{
    if is_known(hyps, i, known, made) {
        return true;
    }
    let Some(number) = formulas.go_on(sides.publics, hyps, i) else {
        return same_tree(sides, hyps.at(i - 1), made);
    };
    same_from(sides, &formulas.pieces, number, made.at, &mut formulas.said)
}

/// Whether the places are the same one, and the i-th hypothesis has the formula of the one before. No
/// clause says that it is reported where it is so: that such hypotheses are compared once isn't proved.
fn is_known(hyps: &Hyps, i: usize, known: Cursor, made: Cursor) -> bool
    requires { 0 < i }
    ensures { IsTrue result → (known ≡ made) × (slice_get (listed hyps.now) (i - 1) ≡ slice_get (listed hyps.now) i) }
{
    known == made && hyps.shares_with_previous(i)
}

/// Whether an expression of an assertion is the one that the stream says from a place on.
fn same_tree(sides: &Sides, expr: &Expr, from: Cursor) -> bool
    requires { (m : Marks) × (f : Tree) × (to : Cursor) × IsPlainStream sides.now m × SaidAt sides.now m from f to }
    ensures { (m : Marks) (f : Tree) (to : Cursor) → IsPlainStream sides.now m → SaidAt sides.now m from f to
        → (IsTrue result ↔ SameTree sides.now.publics.now (tree expr.now) f) }
{
    // an assertion has no dummies to pair
    let mut pairs: [Option<u32>; 0] = [];
    same_at(sides, &expr.borrowed(), from, &mut pairs).is_some()
}

fn no_pairs() -> [Option<u32>; 55]
    ensures none_yet { all_none result ≡ true }
    ensures many { length result ≡ 55 }
{
    [None; 55]
}

/// Compares an expression with what the stream says from a place on.
///
/// Where they are the same, gives the place behind.
#[cycle(same_at)]
fn same_at(sides: &Sides, expr: &ExprRef, from: Cursor, pairs: &mut [Option<u32>]) -> Option<Cursor>
    requires { (m : Marks) × (f : Tree) × (to : Cursor) × IsStream sides.now m × SaidAt sides.now m from f to }
    ensures { (m : Marks) (f : Tree) (to : Cursor) → IsStream sides.now m → SaidAt sides.now m from f to → Answers result pairs.new (compared (beside sides.now m) pairs.old expr.now f) to }
{
    let Some(step) = step_at(sides.mmb.file(), from.at) else {
        return None;
    };
    if !is_ref(step.code) {
        return same_made(sides, expr, from, step, pairs);
    }
    if !same_mark(sides, expr, step.value, pairs) {
        return None;
    }
    Some(Cursor {
        at: step.next,
        dummies: from.dummies,
    })
}

/// The same of a mark: of a parameter, or of what the stream says where it makes the mark.
#[cycle(same_at)]
fn same_mark(sides: &Sides, expr: &ExprRef, mark: u32, pairs: &mut [Option<u32>]) -> bool
    requires { (m : Marks) × (f : Tree) × IsStream sides.now m × (slice_get m.trees mark ≡ Some f) }
    ensures { (m : Marks) (f : Tree) → IsStream sides.now m → slice_get m.trees mark ≡ Some f
        → MatchBool result (compared (beside sides.now m) pairs.old expr.now f ≡ Some pairs.new) (compared (beside sides.now m) pairs.old expr.now f ≡ None) }
{
    if mark < sides.params {
        return is_variable(expr, mark);
    }
    let Some(place) = sides.place_of(mark) else {
        return false;
    };
    let Some(step) = step_at(sides.mmb.file(), place.at) else {
        return false;
    };
    same_made(sides, expr, place, step, pairs).is_some()
}

/// The same of a place at which this command stands, which is no reference.
#[cycle(same_at)]
fn same_made(
    sides: &Sides,
    expr: &ExprRef,
    from: Cursor,
    step: Step,
    pairs: &mut [Option<u32>],
) -> Option<Cursor>
    requires { (step_lem sides.now.mmb.now from.at ≡ Some step) × (m : Marks) × (f : Tree) × (to : Cursor) × IsStream sides.now m × MadeAt sides.now m from f to }
    ensures { (m : Marks) (f : Tree) (to : Cursor) → IsStream sides.now m → MadeAt sides.now m from f to → Answers result pairs.new (compared (beside sides.now m) pairs.old expr.now f) to }
{
    match expr.shape() {
        Shape::Var(x) => {
            if !is_dummy(sides, x, from.dummies, step, pairs) {
                return None;
            }
            Some(Cursor {
                at: step.next,
                dummies: from.dummies + 1,
            })
        }
        Shape::App(k, es) => {
            if !is_term(sides, k, &es, step) {
                return None;
            }
            let place = Cursor {
                at: step.next,
                dummies: from.dummies,
            };
            same_all(sides, &es, place, pairs)
        }
    }
}

/// Compares expressions with as many that the stream says one after another.
#[cycle(same_at)]
fn same_all(
    sides: &Sides,
    exprs: &Operands,
    from: Cursor,
    pairs: &mut [Option<u32>],
) -> Option<Cursor>
    requires { (m : Marks) × (fs : Trees) × (to : Cursor) × IsStream sides.now m × AllSaidAt sides.now m from fs to × (length (listed exprs.now) ≡ length (listed fs)) }
    ensures { (m : Marks) (fs : Trees) (to : Cursor) → IsStream sides.now m → AllSaidAt sides.now m from fs to → length (listed exprs.now) ≡ length (listed fs)
        → Answers result pairs.new (all_compared (beside sides.now m) pairs.old exprs.now fs) to }
{
    let mut place = from;
    for i in 0..exprs.len() {
        let Some(next) = same_at(sides, &exprs.at(i), place, pairs) else {
            return None;
        };
        place = next;
    }
    Some(place)
}

fn is_variable(expr: &ExprRef, x: u32) -> bool
    ensures { IsTrue result ↔ (expr.now ≡ var x) }
{
    match expr.shape() {
        Shape::Var(y) => y == x,
        Shape::App(_, _) => false,
    }
}

/// Whether the command makes an application of the partner of the specification's k-th term, to so
/// many operands.
fn is_term(sides: &Sides, k: u32, operands: &Operands, step: Step) -> bool
    requires { term_lem step.code ≡ true → step.value < term_count sides.now.mmb.now }
    ensures { IsTrue result ↔ ((term_lem step.code ≡ true) × (number_lem step.value (slice_get sides.now.publics.now k) ≡ true) × (length (listed operands.now) ≡ length (term_row sides.now.mmb.now step.value).words.params)) }
{
    if !makes_term(step.code) || !is_number(sides.publics.row(k), step.value) {
        return false;
    }
    operands.len() == sides.mmb.arity(step.value) as usize
}

/// Whether the command is the k-th dummy's, which may stand for the specification's variable.
fn is_dummy(sides: &Sides, x: u32, k: u32, step: Step, pairs: &mut [Option<u32>]) -> bool
    ensures { MatchBool result
        ((step.code ≡ UnifyCode.Dummy) × (dummy_compared sides.now.params sides.now.dummies.now pairs.old k step.value x ≡ Some pairs.new))
        (step.code ≡ UnifyCode.Dummy → dummy_compared sides.now.params sides.now.dummies.now pairs.old k step.value x ≡ None) }
{
    if !is_dummy_code(step.code) || x < sides.params {
        return false;
    }
    pair(sides.dummies, pairs, k, step.value, x - sides.params)
}

pub fn makes_term(code: UnifyCode) -> bool
    ensures { result ≡ term_lem code }
{
    matches!(code, UnifyCode::Term | UnifyCode::TermSave)
}

fn is_dummy_code(code: UnifyCode) -> bool
    ensures { IsTrue result ↔ (code ≡ UnifyCode.Dummy) }
{
    matches!(code, UnifyCode::Dummy)
}

pub fn is_ref(code: UnifyCode) -> bool
    ensures { IsTrue result ↔ (code ≡ UnifyCode.Ref) }
{
    matches!(code, UnifyCode::Ref)
}

/// Lets the k-th dummy, of this sort, stand for the p-th of the specification's, if nothing speaks
/// against it.
fn pair(dummies: &[Binder], pairs: &mut [Option<u32>], k: u32, sort: u32, p: u32) -> bool
    ensures { MatchBool result (paired dummies.now pairs.old k sort p ≡ Some pairs.new) (paired dummies.now pairs.old k sort p ≡ None) }
{
    match pairs.get(k as usize).copied() {
        None => false,
        Some(Some(q)) => q == p,
        Some(None) => {
            if is_taken(pairs, p) || !has_sort(dummies, p, sort) {
                return false;
            }
            pairs[k as usize] = Some(p);
            true
        }
    }
}

fn is_taken(pairs: &[Option<u32>], p: u32) -> bool
    ensures { result ≡ taken_lem pairs.now p }
{
    for pair in pairs {
        if is_number(*pair, p) {
            return true;
        }
    }
    false
}

fn is_number(found: Option<u32>, number: u32) -> bool
    ensures { result ≡ number_lem number found }
{
    match found {
        None => false,
        Some(other) => other == number,
    }
}

fn has_sort(dummies: &[Binder], p: u32, sort: u32) -> bool
    ensures { result ≡ sort_lem (slice_get dummies.now p) sort }
{
    match dummies.get(p as usize) {
        Some(dummy) => dummy.sort == sort,
        None => false,
    }
}
