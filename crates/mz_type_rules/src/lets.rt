//! The visible lets, and what is kept of the subproofs that were compared with hypotheses.
ghost use Rattle.std.specs.Prelude.{◌≡◌, ◌↔◌, ◌<◌, ℕ, List, IfSome, IfOk, IsTrue, OnOk, Some, length, slice_get};
ghost use Rattle.mz_logic_theory.specs.Declaration.{Declaration};
ghost use Rattle.mz_logic_theory.specs.Tree.{Tree, Trees, none, listed, operand, instance, instances};
ghost use Rattle.mz_logic_theory.specs.View.{tree};
ghost use Rattle.mz_mmu_theory.specs.ProofView.{proof_view};
ghost use Rattle.mz_mmu_theory.specs.Sides.{assertion_at, proved};
ghost use Rattle.mz_type_rules.specs.Claims.{claim_tree};
ghost use Rattle.mz_type_rules.specs.Scopes.{Scope, with_let};
ghost use Rattle.mz_type_rules.specs.Compared.{let_trees, AreNamed, IsNamed, Names, put_into, source};

use crate::claim::{BorrowedExprs, Claim, Put, same_claim, same_claim_in};
use crate::resolving::resolved;
use mz_logic_theory::{Env, Expr, ExprRef, Exprs, Hyps, Operands, Shape};
use mz_mmu_theory::Proof;
use std::alloc::{AllocError, Global};
use std::collections::BTreeMap;
use std::marker::Model;

/// A comparison is kept where it takes more turns than so many.
const MANY_TURNS: usize = 64;

/// Nothing is kept where there are more operands: it would take memory for each, and those of a conclusion are
/// looked for among those of another.
const MOST_OPERANDS: usize = 64;

/// What a subproof proves that can be named.
#[derive(Clone, Copy, PartialEq)]
enum Name {
    /// A hypothesis of the theorem.
    Hyp(u32),
    /// What a let proves, by its number among all lets so far.
    Let(usize),
    /// The conclusion of an axiom or theorem, whatever is put in.
    Cited(u32),
}

/// What was compared with which hypothesis of which axiom or theorem.
#[derive(Clone, Copy, PartialEq)]
struct Key {
    name: Name,
    number: u32,
    place: usize,
}

impl Key {
    /// The key as numbers, which have an order.
    fn numbers(self) -> (u8, usize, u32, usize) {
        match self.name {
            Name::Hyp(i) => (0, i as usize, self.number, self.place),
            Name::Let(i) => (1, i, self.number, self.place),
            Name::Cited(i) => (2, i as usize, self.number, self.place),
        }
    }
}

/// A comparison that need not be made again: where these are put in, both are the same.
#[derive(Drop)]
struct Kept<'t> {
    key: Key,
    /// The operands that were put into the hypothesis.
    at: &'t Exprs,
    /// The hypothesis' own variables, and a constant in place of the others.
    own: Exprs,
    /// What is put into the hypothesis for the pattern: its own variables again, or for a conclusion the
    /// conclusion's variables.
    vars: Exprs,
}

/// A let that is visible. Where what it proves has a name already, it has that one.
#[derive(Clone, Copy)]
struct Named<'t> {
    claim: Claim<'t>,
    name: Name,
}

/// The visible lets of a theorem's proof, over the statements before it and its hypotheses.
#[derive(Drop)]
pub(crate) struct Lets<'t> {
    env: &'t Env,
    hyps: &'t Hyps,
    visible: Vec<Named<'t>>,
    // what all lets so far prove that have a name of their own, those that are no longer visible too
    named: Vec<Claim<'t>>,
    kept: Vec<Kept<'t>>,
    // by the keys' numbers; what is found here is asked of what is kept, so that nothing need be known of the map
    places: BTreeMap<(u8, usize, u32, usize), usize>,
}

impl<'t> Model for Lets<'t> {
    ghost use Rattle.mz_type_rules.specs.Scopes.{Scope, scope_code};

    ghost Value = { Scope };

    ghost coded = { scope_code };

    ghost use Rattle.mz_type_rules.specs.Compared.{let_trees, AreNamed, AreKept};

    ghost view = { λ a. record { env = a.env.now; hyps = a.hyps.now; lets = let_trees a.visible.items } };

    ghost invariant = { λ a. AreNamed a.hyps.now a.named.items a.visible.items × AreKept a.env.now a.hyps.now a.named.items a.kept.items };
}

/// The visible let at the place.
fn visible_at<'t>(visible: &[Named<'t>], place: usize) -> Option<Named<'t>>
    ensures { result ≡ slice_get visible.now place }
{
    visible.get(place).copied()
}

/// The name of what the subproof proves, if it has one.
fn name_of(visible: &[Named], proof: &Proof) -> Option<Name>
    ensures { IfSome result (λ name. Names visible.now (proof_view proof.now) name) }
{
    match proof {
        Proof::Hyp(i) => Some(Name::Hyp(*i)),
        Proof::Name(i) => {
            let Some(named) = visible_at(visible, *i as usize) else {
                return None;
            };
            Some(named.name)
        }
        Proof::Cite(number, _, _) => Some(Name::Cited(*number)),
        _ => None,
    }
}

/// The claim under the name of what proves it, if that is a hypothesis or a visible let.
fn named_alike<'t>(visible: &[Named<'t>], claim: Claim<'t>, stated: &Proof) -> Option<Named<'t>>
    ensures { IfSome result (λ n. (env : List Declaration) (hyps : Trees) (named : List Claim) → AreNamed hyps named visible.now
        → claim_tree claim.entry ≡ proved env hyps (let_trees visible.now) (proof_view stated.now) → IsNamed hyps named n.claim n.name × (claim_tree n.claim ≡ claim_tree claim.entry)) }
{
    match stated {
        Proof::Hyp(i) => Some(Named {
            claim,
            name: Name::Hyp(*i),
        }),
        Proof::Name(i) => visible_at(visible, *i as usize),
        _ => None,
    }
}

/// What the visible let at the place proves.
fn claim_named<'t>(visible: &[Named<'t>], place: usize) -> Claim<'t>
    requires { place < length visible.now }
    ensures { claim_tree result ≡ operand (let_trees visible.now) place }
{
    visible[place].claim
}

/// What is put into the pattern.
fn put_in_pattern<'t>(proof: &'t Proof, at: &'t Exprs) -> &'t Exprs
    ensures { result.now ≡ put_into (proof_view proof.now) at.now }
{
    match proof {
        Proof::Cite(_, es, _) => es,
        _ => at,
    }
}

/// The expression of which the subproof proves an instance.
fn source_of<'t>(env: &'t Env, proof: &Proof, hyp: &'t Expr) -> Option<&'t Expr>
    ensures { IfSome result (λ e. tree e.now ≡ source env.now (proof_view proof.now) (tree hyp.now)) }
{
    match proof {
        Proof::Cite(number, _, _) => {
            let Some(thm) = env.thm(*number) else {
                return None;
            };
            Some(&thm.conclusion)
        }
        _ => Some(hyp),
    }
}

/// What is kept under the key.
fn find<'k, 't>(
    kept: &'k [Kept<'t>],
    places: &BTreeMap<(u8, usize, u32, usize), usize>,
    key: Key,
) -> Option<&'k Kept<'t>>
    ensures { IfSome result (λ k. (k.now.key ≡ key) × ((i : ℕ) × (slice_get kept.now i ≡ Some k.now))) }
{
    let Some(place) = places.get(&key.numbers()).copied() else {
        return None;
    };
    let Some(found) = kept.get(place) else {
        return None;
    };
    if found.key == key { Some(found) } else { None }
}

/// Whether two lists are the same, each with operands put in. False where memory runs out.
fn same_lists(alloc: Global, es: &Exprs, own: &Exprs, at: &Exprs, vars: &Exprs) -> bool
    ensures { IsTrue result → instances es.now own.now ≡ instances at.now vars.now }
{
    let own = BorrowedExprs::of(&own.borrowed());
    let vars = BorrowedExprs::of(&vars.borrowed());
    let left = Claim::App(0, own, Put::Operands(es, &[]));
    let right = Claim::App(0, vars, Put::Operands(at, &[]));
    match same_claim(alloc, left, right) {
        Ok(same) => same,
        Err(_) => false,
    }
}

/// Whether the expression is the hypothesis with these put in. False where memory runs out.
fn is_instance(alloc: Global, expr: &Expr, hyp: &Expr, vars: &Exprs) -> bool
    ensures { IsTrue result → tree expr.now ≡ instance vars.now (tree hyp.now) }
{
    match same_claim(alloc, Claim::of(expr), Claim::instance(hyp, vars)) {
        Ok(same) => same,
        Err(_) => false,
    }
}

/// Keeps the number of the variable at its place.
fn number_variable(numbers: &mut [Option<u32>], number: u32) {
    let place = number as usize;
    if place < numbers.len() {
        numbers[place] = Some(number);
    }
}

/// Lets expressions wait.
fn wait_all<'e>(waiting: &mut Vec<ExprRef<'e>>, es: &Operands<'e>) -> Result<(), AllocError> {
    for i in 0..es.len() {
        waiting.push(es.at(i))?;
    }
    Ok(())
}

/// Keeps the numbers of the variables that stand in what waits.
fn number_waiting<'e>(
    waiting: &mut Vec<ExprRef<'e>>,
    numbers: &mut [Option<u32>],
) -> Result<(), AllocError> {
    // more turns than there are nodes in a text
    for _turn in 0..u32::MAX {
        let Some(e) = waiting.pop() else {
            return Ok(());
        };
        match e.shape() {
            Shape::Var(x) => number_variable(numbers, x),
            Shape::App(_, es) => wait_all(waiting, &es)?,
        }
    }
    Ok(())
}

/// Keeps the numbers of the variables that stand in the expression. What is left to look at is kept in a
/// list, since the expression may be deep.
fn number_variables(
    alloc: Global,
    expr: &Expr,
    numbers: &mut [Option<u32>],
) -> Result<(), AllocError> {
    let mut waiting: Vec<ExprRef> = Vec::new(alloc);
    waiting.push(expr.borrowed())?;
    number_waiting(&mut waiting, numbers)
}

/// The variable with this number, and a constant where there is none.
fn variable(alloc: Global, number: Option<u32>) -> Expr {
    match number {
        Some(x) => Expr::var(x),
        None => Expr::app(0, Exprs::new(alloc)),
    }
}

/// The variables with these numbers.
fn variables_of(alloc: Global, numbers: &[Option<u32>]) -> Result<Exprs, AllocError> {
    let mut vars = Exprs::with_capacity(alloc, numbers.len())?;
    for i in 0..numbers.len() {
        vars.push(variable(alloc, numbers[i]))?;
    }
    Ok(vars)
}

/// The place at which the expression is among the operands.
fn place_among(alloc: Global, e: &Expr, fs: &[Expr]) -> Result<Option<u32>, AllocError> {
    for i in 0..fs.len() {
        let same = same_claim(alloc, Claim::of(e), Claim::of(&fs[i]))?;
        if same {
            return Ok(u32::try_from(i).ok());
        }
    }
    Ok(None)
}

/// Puts in place of the number of each variable that of the conclusion's variable with the same operand.
/// False where one has no such variable, or there are too many operands.
fn number_operands(
    alloc: Global,
    numbers: &mut [Option<u32>],
    es: &[Expr],
    fs: &[Expr],
) -> Result<bool, AllocError> {
    if fs.len() > MOST_OPERANDS {
        return Ok(false);
    }
    for i in 0..es.len() {
        if i < numbers.len() && numbers[i].is_some() {
            let place = place_among(alloc, &es[i], fs)?;
            if place.is_none() {
                return Ok(false);
            }
            numbers[i] = place;
        }
    }
    Ok(true)
}

/// The lists of the variables with these numbers, and of what is put in for them, if it can be.
fn put_lists(
    alloc: Global,
    proof: &Proof,
    es: &Exprs,
    numbers: &mut [Option<u32>],
    own: &mut Exprs,
    vars: &mut Exprs,
) -> Result<bool, AllocError> {
    *own = variables_of(alloc, numbers)?;
    if let Proof::Cite(_, fs, _) = proof {
        let known = number_operands(alloc, numbers, es.as_slice(), fs.as_slice())?;
        if !known {
            return Ok(false);
        }
    }
    *vars = variables_of(alloc, numbers)?;
    Ok(true)
}

/// What is to be put in for both, if there are such lists. They are tried by the caller.
fn find_lists(
    alloc: Global,
    proof: &Proof,
    hyp: &Expr,
    es: &Exprs,
    own: &mut Exprs,
    vars: &mut Exprs,
) -> Result<bool, AllocError> {
    if es.len() > MOST_OPERANDS {
        return Ok(false);
    }
    let mut numbers: Vec<Option<u32>> = vec![in alloc; None; es.len()]?;
    number_variables(alloc, hyp, &mut numbers)?;
    put_lists(alloc, proof, es, &mut numbers, own, vars)
}

/// Whether the hypothesis is the same with its own variables put in, and what the subproof's name stands
/// for is the hypothesis with the others put in.
fn are_right(alloc: Global, env: &Env, proof: &Proof, hyp: &Expr, own: &Exprs, vars: &Exprs) -> bool
    ensures own { IsTrue result → tree hyp.now ≡ instance own.now (tree hyp.now) }
    ensures source { IsTrue result → source env.now (proof_view proof.now) (tree hyp.now) ≡ instance vars.now (tree hyp.now) }
{
    let Some(from) = source_of(env, proof, hyp) else {
        return false;
    };
    is_instance(alloc, hyp, hyp, own) && is_instance(alloc, from, hyp, vars)
}

/// Finds what is to be put in for both, and tries it.
fn finds_right(
    alloc: Global,
    env: &Env,
    proof: &Proof,
    hyp: &Expr,
    es: &Exprs,
    own: &mut Exprs,
    vars: &mut Exprs,
) -> bool
    ensures own { IsTrue result → tree hyp.now ≡ instance own.new (tree hyp.now) }
    ensures source { IsTrue result → source env.now (proof_view proof.now) (tree hyp.now) ≡ instance vars.new (tree hyp.now) }
{
    let Ok(found) = find_lists(alloc, proof, hyp, es, own, vars) else {
        return false;
    };
    found && are_right(alloc, env, proof, hyp, own, vars)
}

/// What is to be kept of a comparison, if anything is.
fn kept_of<'t>(
    alloc: Global,
    env: &Env,
    name: Name,
    proof: &Proof,
    number: u32,
    place: usize,
    hyp: &Expr,
    es: &'t Exprs,
) -> Option<Kept<'t>>
    ensures key { IfSome result (λ k. k.key ≡ record { name = name; number = number; place = place }) }
    ensures at { IfSome result (λ k. k.at.now ≡ es.now) }
    ensures own { IfSome result (λ k. tree hyp.now ≡ instance k.own (tree hyp.now)) }
    ensures source { IfSome result (λ k. source env.now (proof_view proof.now) (tree hyp.now) ≡ instance k.vars (tree hyp.now)) }
{
    let mut own = Exprs::new(alloc);
    let mut vars = Exprs::new(alloc);
    if !finds_right(alloc, env, proof, hyp, es, &mut own, &mut vars) {
        return None;
    }
    let key = Key {
        name,
        number,
        place,
    };
    Some(Kept {
        key,
        at: es,
        own,
        vars,
    })
}

impl<'t> Lets<'t> {
    /// No lets.
    pub(crate) fn new(alloc: Global, env: &'t Env, hyps: &'t Hyps) -> Lets<'t>
        ensures { result ≡ record { env = env.now; hyps = hyps.now; lets = none } }
    {
        Lets {
            env,
            hyps,
            visible: Vec::new(alloc),
            named: Vec::new(alloc),
            kept: Vec::new(alloc),
            places: BTreeMap::new(alloc),
        }
    }

    /// What the visible let at the place proves.
    pub(crate) fn at(&self, place: u32) -> Claim<'t>
        requires { place < length (listed self.now.lets) }
        ensures { claim_tree result ≡ operand self.now.lets place }
    {
        claim_named(&self.visible, place as usize)
    }

    /// Lets what the proof proves be visible.
    pub(crate) fn open(
        &mut self,
        alloc: Global,
        claim: Claim<'t>,
        stated: &Proof,
    ) -> Result<(), AllocError>
        requires { claim_tree claim ≡ proved self.old.env self.old.hyps self.old.lets (proof_view stated.now) }
        ensures { OnOk result (self.new ≡ with_let self.old (claim_tree claim.entry)) }
    {
        let stated = resolved(alloc, self.visible.len(), stated)?;
        match named_alike(&self.visible, claim, stated) {
            None => self.open_new(claim),
            Some(named) => {
                self.visible.push(named)?;
                Ok(())
            }
        }
    }

    /// The same under a name of its own.
    fn open_new(&mut self, claim: Claim<'t>) -> Result<(), AllocError>
        ensures { OnOk result (self.new ≡ with_let self.old (claim_tree claim.entry)) }
    {
        let number = self.named.len();
        self.named.push(claim)?;
        self.visible.push(Named {
            claim,
            name: Name::Let(number),
        })?;
        Ok(())
    }

    /// The last let is no longer visible.
    pub(crate) fn close(&mut self)
        ensures { (before : Scope) (e : Tree) → self.old ≡ with_let before e → self.new ≡ before }
    {
        self.visible.pop();
    }

    /// Whether it is known that what the subproof proves is the instance of the hypothesis.
    fn knows(&self, alloc: Global, proof: &Proof, number: u32, place: usize, es: &Exprs) -> bool
        ensures { IsTrue result → proved self.now.env self.now.hyps self.now.lets (proof_view proof.now) ≡ instance es.now (operand (assertion_at self.now.env number).hyps place) }
    {
        let Some(name) = name_of(&self.visible, proof) else {
            return false;
        };
        let key = Key {
            name,
            number,
            place,
        };
        let Some(kept) = find(&self.kept, &self.places, key) else {
            return false;
        };
        let at = put_in_pattern(proof, kept.at);
        same_lists(alloc, es, &kept.own, at, &kept.vars)
    }

    /// Keeps that what the subproof proves is the instance of the hypothesis.
    fn keep(
        &mut self,
        alloc: Global,
        proof: &Proof,
        number: u32,
        place: usize,
        hyp: &Expr,
        es: &'t Exprs,
    )
        requires hyp { tree hyp.now ≡ operand (assertion_at self.old.env number).hyps place }
        requires same { proved self.old.env self.old.hyps self.old.lets (proof_view proof.now) ≡ instance es.now (tree hyp.now) }
        ensures { self.new ≡ self.old }
    {
        let Some(name) = name_of(&self.visible, proof) else {
            return;
        };
        let Some(kept) = kept_of(alloc, self.env, name, proof, number, place, hyp, es) else {
            return;
        };
        let key = kept.key;
        let last = self.kept.len();
        let Ok(()) = self.kept.push(kept) else {
            return;
        };
        // where this fails the comparison is made again
        let _ = self.places.insert(key.numbers(), last);
    }

    /// Whether the claim, which the subproof proves, is the instance of the hypothesis at the place of
    /// the axiom or theorem. A long comparison is kept.
    #[inline(never)]
    pub(crate) fn is_hyp(
        &mut self,
        alloc: Global,
        claim: Claim<'t>,
        proof: &Proof,
        number: u32,
        place: usize,
        hyp: &Expr,
        es: &'t Exprs,
    ) -> Result<bool, AllocError>
        requires claim { claim_tree claim ≡ proved self.old.env self.old.hyps self.old.lets (proof_view proof.now) }
        requires hyp { tree hyp.now ≡ operand (assertion_at self.old.env number).hyps place }
        ensures is { IfOk result (λ is. IsTrue is ↔ (claim_tree claim.entry ≡ instance es.now (tree hyp.now))) }
        ensures same { self.new ≡ self.old }
    {
        let proof = resolved(alloc, self.visible.len(), proof)?;
        self.is_hyp_of(alloc, claim, proof, number, place, hyp, es)
    }

    /// The same where the subproof isn't a let.
    fn is_hyp_of(
        &mut self,
        alloc: Global,
        claim: Claim<'t>,
        proof: &Proof,
        number: u32,
        place: usize,
        hyp: &Expr,
        es: &'t Exprs,
    ) -> Result<bool, AllocError>
        requires claim { claim_tree claim ≡ proved self.old.env self.old.hyps self.old.lets (proof_view proof.now) }
        requires hyp { tree hyp.now ≡ operand (assertion_at self.old.env number).hyps place }
        ensures is { IfOk result (λ is. IsTrue is ↔ (claim_tree claim.entry ≡ instance es.now (tree hyp.now))) }
        ensures same { self.new ≡ self.old }
    {
        if self.knows(alloc, proof, number, place, es) {
            return Ok(true);
        }
        let mut turns: usize = 0;
        let same = same_claim_in(alloc, claim, Claim::instance(hyp, es), &mut turns)?;
        if same && turns > MANY_TURNS {
            self.keep(alloc, proof, number, place, hyp, es);
        }
        Ok(same)
    }
}
