ghost use Rattle.std.specs.Prelude.{ℕ, suc, ◌≡◌, ◌<◌, ◌∷◌, [], Some, length, slice_get, false};
ghost use Rattle.mz_logic_theory.specs.Words.{term_at};

use crate::expect::expect;
use mz_logic::check_decl;
use mz_logic_theory::{
    Binder, Binders, Decl, DeclFault, Deps, Env, Expr, ExprRef, Exprs, Hyps, ResultType,
    Shape as BorrowedShape, SortMods, TermDecl, TermForm, Terms, ThmDecl, ThmForm, Word,
};
use std::alloc::{AllocError, Global};
use std::process::Abort;

/// The sorts wff and nat, and the term `all {x: nat} (p: wff x): wff`.
struct Quantifier;

impl Terms for Quantifier {
    ghost all_sorts = { λ _. record { 0 = 4 } ∷ record { 0 = 0 } ∷ [] };

    ghost all_terms = { λ _. record {
      params = record { 0 = 0x8100_0000_0000_0001 } ∷ record { 0 = 1 } ∷ [];
      result = record { 0 = 0 };
      has_body = false;
    } ∷ [] };

    fn sorts(&self) -> u32 {
        2
    }

    fn mods(&self, s: u32) -> SortMods {
        SortMods(if s == 0 { SortMods::PROVABLE } else { 0 })
    }

    fn terms(&self) -> u32 {
        1
    }

    fn arity(&self, _: u32) -> u32 {
        2
    }

    fn param(&self, _: u32, i: u32) -> Word {
        Word(if i == 0 { 0x8100_0000_0000_0001 } else { 1 })
    }

    fn result(&self, _: u32) -> Word {
        Word(0)
    }

    fn has_body(&self, _: u32) -> bool {
        false
    }
}

/// The word of the term's last parameter, or of its result where it has none.
fn last_word<T: Terms>(table: &T, t: u32) -> Word
    requires { t < length (T.all_terms table.now) }
    ensures { (k : ℕ) → length (term_at (T.all_terms table.now) t).params ≡ suc k → slice_get (term_at (T.all_terms table.now) t).params k ≡ Some result }
{
    let arity = table.arity(t);
    if arity == 0 {
        table.result(t)
    } else {
        table.param(t, arity - 1)
    }
}

/// Words, each with its sort, whether it is bound, and its dependencies.
const WORDS: &[(u64, u32, bool, u64)] = &[
    (0x8100_0000_0000_0001, 1, true, 1),
    (0x0000_0000_0000_0001, 0, false, 1),
    (0xFFFF_FFFF_FFFF_FFFF, 127, true, 0x00FF_FFFF_FFFF_FFFF),
    (0x7F80_0000_0000_0000, 127, false, 0x0080_0000_0000_0000),
];

#[test]
fn words_of_a_table(rt: HostRuntime) {
    for (word, sort, bound, deps) in WORDS {
        let word = Word(*word);
        expect(&rt, word.sort() == *sort, "sort");
        expect(&rt, word.bound() == *bound, "bound");
        expect(&rt, word.deps() == *deps, "dependencies");
    }
    let last = last_word(&Quantifier, 0);
    expect(&rt, last.sort() == 0, "the sort of p");
    expect(&rt, last.deps() == 1, "p depends on x");
}

// ---- declarations

/// An expression of the table below: a variable, a term without operands, a term over two variables.
#[derive(Clone, Copy)]
enum Shape {
    Var(u32),
    Alone(u32),
    Pair(u32, u32, u32),
}

/// What a case declares.
#[derive(Clone, Copy)]
enum Kind {
    Term(u32),
    Definition(u32, &'static [Param], Shape),
    Axiom(Shape),
}

/// A parameter: its sort, whether it is bound, and on which place it depends, if on one.
type Param = (u32, bool, Option<u32>);

fn expr(rt: &(impl Abort + AllocGlobal), shape: Shape) -> Expr {
    match shape {
        Shape::Var(x) => Expr::var(x),
        Shape::Alone(t) => Expr::app(t, Exprs::new(rt.alloc())),
        Shape::Pair(t, x, y) => {
            let mut operands = Exprs::new(rt.alloc());
            operands.push(Expr::var(x)).expect(rt, "memory");
            operands.push(Expr::var(y)).expect(rt, "memory");
            Expr::app(t, operands)
        }
    }
}

fn binder(alloc: Global, param: &Param) -> Result<Binder, AllocError> {
    let (sort, bound, place) = *param;
    let deps = match place {
        Some(place) => Deps::from_vec(Vec::from_slice(alloc, &[place])?)?,
        None => Deps::new(),
    };
    Ok(Binder { sort, bound, deps })
}

fn binders(rt: &(impl Abort + AllocGlobal), params: &[Param]) -> Binders {
    let mut binders = Binders::new(rt.alloc());
    for param in params {
        let binder = binder(rt.alloc(), param).expect(rt, "memory");
        binders.push(binder).expect(rt, "memory");
    }
    binders
}

fn term(params: Binders, sort: u32, form: TermForm) -> Decl {
    let deps = Deps::new();
    Decl::Term(TermDecl {
        params,
        result: ResultType { sort, deps },
        form,
    })
}

fn defined(rt: &(impl Abort + AllocGlobal), dummies: &[Param], body: Shape) -> TermForm {
    TermForm::Body {
        dummies: binders(rt, dummies),
        body: expr(rt, body),
    }
}

fn axiom(alloc: Global, params: Binders, conclusion: Expr) -> Decl {
    Decl::Thm(ThmDecl {
        form: ThmForm::Axiom,
        params,
        hyps: Hyps::new(alloc),
        conclusion,
    })
}

fn declaration(rt: &(impl Abort + AllocGlobal), params: &[Param], kind: Kind) -> Decl {
    let params = binders(rt, params);
    match kind {
        Kind::Term(sort) => term(params, sort, TermForm::Plain),
        Kind::Definition(sort, dummies, body) => term(params, sort, defined(rt, dummies, body)),
        Kind::Axiom(conclusion) => axiom(rt.alloc(), params, expr(rt, conclusion)),
    }
}

/// Adds a declaration that is legal.
fn declare(env: &mut Env, decl: Decl) -> Result<(), AllocError> {
    if check_decl(env, &decl).is_ok() && env.len() < 4_294_967_295 {
        return env.push_decl(decl);
    }
    drop(decl);
    Err(AllocError)
}

const WFF: u32 = 0;

const NAT: u32 = 1;

const PURE: u32 = 2;

const STRICT: u32 = 3;

const FREE: u32 = 4;

const IM: u32 = 0;

const ALL: u32 = 1;

const EQ: u32 = 2;

const A_WFF: Param = (WFF, false, None);

const A_NAT: Param = (NAT, false, None);

const X_NAT: Param = (NAT, true, None);

const X_FREE: Param = (FREE, true, None);

/// The modifiers of five sorts.
const SORTS: &[u8] = &[
    SortMods::PROVABLE,
    0,
    SortMods::PURE,
    SortMods::STRICT,
    SortMods::FREE,
];

/// The parameters of implication, a quantifier over nat, and equality on nat.
const TERMS: &[[Param; 2]] = &[
    [A_WFF, A_WFF],
    [X_NAT, (WFF, false, Some(0))],
    [A_NAT, A_NAT],
];

/// These sorts and terms.
fn small_env(rt: &(impl Abort + AllocGlobal)) -> Env {
    let mut env = Env::new(rt.alloc());
    for mods in SORTS {
        declare(&mut env, Decl::Sort(SortMods(*mods))).expect(rt, "a legal sort");
    }
    for params in TERMS {
        let term = declaration(rt, params, Kind::Term(WFF));
        declare(&mut env, term).expect(rt, "a legal term");
    }
    env
}

const PAIR: Shape = Shape::Pair(EQ, 0, 0);

/// Parameters, what is declared over them, and its first fault.
const FIRST_FAULTS: &[(&[Param], Kind, Option<DeclFault>, &str)] = &[
    (
        &[A_WFF, A_WFF],
        Kind::Axiom(Shape::Pair(IM, 0, 1)),
        None,
        "an axiom",
    ),
    (
        &[A_NAT],
        Kind::Definition(WFF, &[X_NAT], PAIR),
        None,
        "a definition with a dummy",
    ),
    (&[], Kind::Term(9), Some(DeclFault::Index), "no such sort"),
    (
        &[],
        Kind::Axiom(Shape::Var(0)),
        Some(DeclFault::Index),
        "no such variable",
    ),
    (
        &[],
        Kind::Axiom(Shape::Alone(7)),
        Some(DeclFault::Index),
        "no such term",
    ),
    (
        &[],
        Kind::Axiom(Shape::Alone(IM)),
        Some(DeclFault::Index),
        "operands left out",
    ),
    (
        &[(WFF, false, Some(1))],
        Kind::Term(WFF),
        Some(DeclFault::Index),
        "a dependency on no variable",
    ),
    (
        &[(WFF, false, Some(1)), X_NAT],
        Kind::Term(WFF),
        Some(DeclFault::Binder),
        "a dependency on a later one",
    ),
    (
        &[(STRICT, true, None)],
        Kind::Term(WFF),
        Some(DeclFault::Binder),
        "a strict sort's variable",
    ),
    (
        &[(STRICT, true, None)],
        Kind::Term(PURE),
        Some(DeclFault::Binder),
        "the binder before the result",
    ),
    (
        &[],
        Kind::Term(PURE),
        Some(DeclFault::Pure),
        "a pure result",
    ),
    (
        &[A_NAT],
        Kind::Definition(WFF, &[], Shape::Var(0)),
        Some(DeclFault::Sort),
        "a body of another sort",
    ),
    (
        &[A_NAT, A_WFF],
        Kind::Axiom(Shape::Pair(ALL, 0, 1)),
        Some(DeclFault::BoundOperand),
        "a regular one for a bound one",
    ),
    (
        &[A_NAT],
        Kind::Axiom(Shape::Var(0)),
        Some(DeclFault::NotProvable),
        "a sort that isn't provable",
    ),
    (
        &[],
        Kind::Definition(WFF, &[X_FREE], Shape::Var(0)),
        Some(DeclFault::Sort),
        "the body before the dummy",
    ),
    (
        &[],
        Kind::Definition(FREE, &[X_FREE], Shape::Var(0)),
        Some(DeclFault::DummySort),
        "a free sort's dummy",
    ),
    (
        &[X_NAT],
        Kind::Definition(WFF, &[], PAIR),
        Some(DeclFault::DefDeps),
        "a variable that the result leaves out",
    ),
];

/// Whether what is declared over the parameters has this first fault.
fn has_first(
    rt: &(impl Abort + AllocGlobal),
    env: &Env,
    params: &[Param],
    kind: Kind,
    wanted: Option<DeclFault>,
) -> bool {
    let decl = declaration(rt, params, kind);
    let found = check_decl(env, &decl).err();
    drop(decl);
    found == wanted
}

#[test]
fn first_faults(rt: HostRuntime) {
    let env = small_env(&rt);
    for (params, kind, wanted, what) in FIRST_FAULTS {
        expect(&rt, has_first(&rt, &env, params, *kind, *wanted), what);
    }
    drop(env);
}

#[test]
fn what_is_added(rt: HostRuntime) {
    let env = small_env(&rt);
    expect(&rt, env.len() == 8, "five sorts and three terms");
    expect(
        &rt,
        env.term(2).is_some() && env.term(3).is_none(),
        "three terms",
    );
    let e = expr(&rt, Shape::Pair(EQ, 0, 1));
    expect(
        &rt,
        is_pair(&e, EQ, 0, 1),
        "what is put together is read back",
    );
    drop(e);
    drop(env);
}

/// Whether the expression is this term over these two variables.
fn is_pair(e: &Expr, term: u32, x: u32, y: u32) -> bool {
    match e.shape() {
        BorrowedShape::Var(_) => false,
        BorrowedShape::App(t, es) => {
            t == term && es.len() == 2 && is_variable(es.get(0), x) && is_variable(es.get(1), y)
        }
    }
}

fn is_variable(e: Option<ExprRef<'_>>, x: u32) -> bool {
    match e {
        None => false,
        Some(e) => match e.shape() {
            BorrowedShape::Var(y) => y == x,
            BorrowedShape::App(_, _) => false,
        },
    }
}
