// Coercions in the order in which they were declared, and their paths.
ghost use Rattle.std.specs.Prelude.{◌≡◌, ◌↔◌, ◌++◌, ◌∷◌, [], ℕ, List, IsTrue, IfOk, IfSome, OnErr, MatchBool, MatchOption, length, true};
ghost use Rattle.mz_logic_theory.specs.Tree.{app, more, none};
ghost use Rattle.mz_logic_theory.specs.View.{tree};
ghost use Rattle.mz_math_theory.specs.Coercions.{IsPath, OnePath, Reaches, wrapped};
ghost use Rattle.mz_math_theory.specs.declared.coercion.Coercion.{Coercion};
ghost use Rattle.mz_math_theory.specs.CoercionAnswers.{HasLength, HasPath};
ghost use Rattle.mz_math_coercions.specs.Firsts.{AreLed};
ghost use Rattle.mz_math_coercions.specs.Found.{AreFound, AreTermsOf};
ghost use Rattle.mz_math_coercions.specs.Graph.{all_turned, turned as turned_lem};
ghost use Rattle.mz_math_coercions.specs.Reached.{Has};
ghost use Rattle.mz_math_coercions.specs.declared.hops.FirstSteps.{FirstSteps};

use crate::clash::is_clash;
use crate::graph::Graph;
use crate::groups::Groups;
use crate::hops::FirstSteps;
use crate::next_hop::{lead, next_coercion, terms_along};
use crate::path_back::terms_reached;
use crate::paths::Paths;
use crate::reached::Reached;
use mz_logic_theory::{Expr, Exprs, TermPath};
use mz_math_theory::Coercion;
use std::alloc::{AllocError, Global};
use std::marker::Model;

/// The coercions in order. Between two sorts they have one path at most. Among sorts that a binary
/// can have it is found in as many steps as it has coercions, else by a walk over all that its first
/// sort reaches.
#[derive(Drop)]
pub struct Coercions {
    graph: Graph,
    // the same coercions, each leading back
    back: Graph,
    groups: Groups,
    // for two sorts the place of the first coercion of the path, where all are kept
    firsts: FirstSteps,
    is_led: bool,
    // no longer, where memory ran out while a coercion was added
    is_whole: bool,
}

impl Model for Coercions {
    ghost use Rattle.std.specs.Prelude.{List};
    ghost use Rattle.mz_math_theory.specs.declared.coercion.Coercion.{Coercion};
    ghost use Rattle.mz_math_coercions.specs.Kept.{AreKept};

    ghost Value = { List Coercion };

    ghost view = { λ a. a.graph };

    ghost invariant = { λ a. AreKept a.graph a.back a.groups a.firsts a.is_led a.is_whole };
}

impl Coercions {
    /// No coercions.
    pub fn new(alloc: Global) -> Coercions
        ensures { result ≡ [] }
    {
        Coercions {
            graph: Graph::new(alloc),
            back: Graph::new(alloc),
            groups: Groups::new(alloc),
            firsts: FirstSteps::new(alloc),
            is_led: true,
            is_whole: true,
        }
    }

    /// The coercions in order.
    pub fn as_slice(&self) -> &[Coercion]
        ensures items { result.now ≡ self.now }
        ensures one_path { OnePath result.now }
    {
        self.graph.as_slice()
    }

    /// Adds a coercion, where there is at most one path between two sorts with it, too, and says
    /// whether it did. Where its sorts are in different groups there is, without a search.
    ///
    /// # Errors
    ///
    /// Where there is no memory, or was none while another one was added. The coercions are unchanged
    /// then.
    pub fn add(&mut self, alloc: Global, coercion: Coercion) -> Result<bool, AllocError>
        ensures ok { IfOk result (λ added. MatchBool added (OnePath (self.old ++ coercion ∷ []) × (self.new ≡ self.old ++ coercion ∷ []))
            ((OnePath (self.old ++ coercion ∷ []) → ⊥) × (self.new ≡ self.old))) }
        ensures err { OnErr result (self.new ≡ self.old) }
    {
        if !self.is_whole {
            return Err(AllocError);
        }
        if is_clash(alloc, &self.graph, &self.back, &mut self.groups, coercion)? {
            return Ok(false);
        }
        let was_led = self.is_led;
        self.is_led = false;
        let is_led = lead_on(
            alloc,
            &self.graph,
            &self.back,
            &mut self.firsts,
            coercion,
            was_led,
        )?;
        self.is_whole = false;
        self.back.add(turned(coercion))?;
        self.groups.join(coercion.from, coercion.to)?;
        self.graph.add(coercion)?;
        self.is_whole = true;
        self.is_led = is_led;
        Ok(true)
    }
}

/// The coercion that leads back.
fn turned(coercion: Coercion) -> Coercion
    ensures { result ≡ turned_lem coercion }
{
    Coercion {
        term: coercion.term,
        from: coercion.to,
        to: coercion.from,
    }
}

/// Keeps the first coercions of the paths that go by a new coercion, where those of all others are
/// kept, and says whether all are kept.
///
/// # Errors
///
/// Where there is no memory.
fn lead_on(
    alloc: Global,
    graph: &Graph,
    back: &Graph,
    firsts: &mut FirstSteps,
    coercion: Coercion,
    was_led: bool,
) -> Result<bool, AllocError>
    requires led { was_led ≡ true → AreLed graph.now firsts.old }
    requires one { OnePath (graph.now ++ coercion ∷ []) }
    requires turned { back.now ≡ all_turned graph.now }
    ensures { IfOk result (λ all. all ≡ true → AreLed (graph.now ++ coercion ∷ []) firsts.new) }
{
    if was_led {
        lead(alloc, graph, back, firsts, coercion)
    } else {
        Ok(false)
    }
}

/// The length of the path from a sort to another, if there is one.
///
/// Neither it nor `reaches` is inlined: operands stand deep in one another, and what a walk needs would
/// take stack for each of them.
///
/// # Errors
///
/// Where there is no memory.
#[inline(never)]
pub fn distance(
    alloc: Global,
    coercions: &Coercions,
    paths: &mut Paths,
    from: u32,
    to: u32,
) -> Result<Option<usize>, AllocError>
    requires { AreFound coercions.now paths.old }
    ensures found { AreFound coercions.now paths.new }
    ensures many { IfOk result (λ o. MatchOption o (Reaches coercions.now (length coercions.now) from to → ⊥) (HasLength coercions.now (length coercions.now) from to)) }
{
    if from == to {
        return Ok(Some(0));
    }
    if single_step(coercions, from, to).is_some() {
        return Ok(Some(1));
    }
    match terms_between(alloc, coercions, paths, from, to)? {
        None => Ok(None),
        Some(terms) => Ok(Some(terms.as_slice().len())),
    }
}

/// Whether there is a path from a sort to another.
///
/// # Errors
///
/// Where there is no memory.
#[inline(never)]
pub fn reaches(
    alloc: Global,
    coercions: &Coercions,
    paths: &mut Paths,
    from: u32,
    to: u32,
) -> Result<bool, AllocError>
    requires { AreFound coercions.now paths.old }
    ensures found { AreFound coercions.now paths.new }
    ensures there { IfOk result (λ b. IsTrue b ↔ HasPath coercions.now from to) }
{
    if from == to {
        return Ok(true);
    }
    if coercions.is_led {
        return Ok(coercions.firsts.get(from, to).is_some());
    }
    let terms = terms_between(alloc, coercions, paths, from, to)?;
    Ok(terms.is_some())
}

/// The sorts to which a path leads from a sort.
///
/// # Errors
///
/// Where there is no memory.
pub fn reached_from(alloc: Global, coercions: &Coercions, from: u32) -> Result<Reached, AllocError>
    ensures { IfOk result (λ reached. (t : ℕ) → Has reached t ↔ HasPath coercions.now from t) }
{
    let mut reached = Reached::new(alloc);
    coercions.graph.walk_from(from, 0, &mut reached)?;
    Ok(reached)
}

/// An expression of a sort, wrapped in the path to another.
///
/// # Errors
///
/// Where there is no memory.
pub fn wrap(
    alloc: Global,
    coercions: &Coercions,
    paths: &mut Paths,
    from: u32,
    to: u32,
    expr: Expr,
) -> Result<Expr, AllocError>
    requires found { AreFound coercions.now paths.old }
    requires there { Reaches coercions.now (length coercions.now) from to }
    ensures found { AreFound coercions.now paths.new }
    ensures wrapped { IfOk result (λ e. (path : List ℕ) × IsPath coercions.now from path to × (tree e ≡ wrapped coercions.now path (tree expr))) }
{
    if from == to {
        return Ok(expr);
    }
    if let Some(term) = single_step(coercions, from, to) {
        return applied(alloc, term, expr);
    }
    let Some(terms) = terms_between(alloc, coercions, paths, from, to)? else {
        unreachable!()
    };
    Expr::under(alloc, terms, expr)
}

/// The term of the coercion that leads from a sort right to another, where the first steps are kept
/// and it is one. Most paths are of one step, and this takes no memory.
fn single_step(coercions: &Coercions, from: u32, to: u32) -> Option<u32>
    ensures { IfSome result (λ term. AreTermsOf coercions.now from to (term ∷ [])) }
{
    if !coercions.is_led {
        return None;
    }
    let items = coercions.graph.as_slice();
    let coercion = next_coercion(items, &coercions.firsts, from, to)?;
    if coercion.to == to {
        Some(coercion.term)
    } else {
        None
    }
}

/// A term over one expression.
fn applied(alloc: Global, term: u32, expr: Expr) -> Result<Expr, AllocError>
    ensures { IfOk result (λ e. e ≡ app term (more (tree expr) none)) }
{
    let mut operands = Exprs::new(alloc);
    operands.push(expr)?;
    Ok(Expr::app(term, operands))
}

/// The terms of the path from a sort to another, if there is one. It is kept from now on, where it
/// wasn't yet.
fn terms_between(
    alloc: Global,
    coercions: &Coercions,
    paths: &mut Paths,
    from: u32,
    to: u32,
) -> Result<Option<TermPath>, AllocError>
    requires { AreFound coercions.now paths.old }
    ensures found { AreFound coercions.now paths.new }
    ensures terms { IfOk result (λ o. MatchOption o (HasPath coercions.now from to → ⊥) (λ terms. AreTermsOf coercions.now from to terms)) }
{
    if let Some(terms) = paths.get(from, to)? {
        return Ok(Some(terms));
    }
    match find_terms(alloc, coercions, from, to)? {
        None => Ok(None),
        Some(terms) => {
            let terms = keep_terms(paths, from, to, terms)?;
            Ok(Some(terms))
        }
    }
}

/// Keeps the terms of the path from a sort to another, and gives them.
fn keep_terms(
    paths: &mut Paths,
    from: u32,
    to: u32,
    terms: Vec<u32>,
) -> Result<TermPath, AllocError>
    ensures kept { (cs : List Coercion) → AreFound cs paths.old → AreTermsOf cs from to terms.items → AreFound cs paths.new }
    ensures given { IfOk result (λ path. path ≡ terms.items) }
{
    let terms = TermPath::from_vec(terms)?;
    paths.keep(from, to, terms.share()?)?;
    Ok(terms)
}

/// The terms of the path from a sort to another in order, if there is one.
fn find_terms(
    alloc: Global,
    coercions: &Coercions,
    from: u32,
    to: u32,
) -> Result<Option<Vec<u32>>, AllocError>
    ensures { IfOk result (λ o. MatchOption o (HasPath coercions.now from to → ⊥) (λ terms. AreTermsOf coercions.now from to terms.items)) }
{
    if coercions.is_led {
        let items = coercions.graph.as_slice();
        return terms_along(alloc, items, &coercions.firsts, from, to);
    }
    let mut reached = Reached::new(alloc);
    terms_reached(alloc, &coercions.graph, from, to, &mut reached)
}
