//! Environments in which it is reported at once how large a body or a conclusion becomes where operands
//! are put in.
ghost use Rattle.std.specs.Prelude.{◌≡◌, ◌<◌, ◌^◌, ◌+◌, ◌∷◌, [], ◌++◌, IfOk, OnOk, List, sum_by, get_or, drop, length};
ghost use Rattle.mz_logic_theory.specs.Declaration.{body_of, context_of, term_decl, sort_decl, body_tree};
ghost use Rattle.mz_logic_theory.specs.DeclView.{declaration, form, term_view, term_of, assertion_of};
ghost use Rattle.mz_logic_theory.specs.Legality.{IsLegalDecl, InRange, AllInRange};
ghost use Rattle.mz_logic_theory.specs.Signature.{Signature};
ghost use Rattle.mz_logic_theory.specs.Tree.{var, size, trees_size, instance};
ghost use Rattle.mz_logic_theory.specs.View.{tree};
ghost use Rattle.mz_mmu_theory.specs.Sides.{assertion_at, term_at};
ghost use Rattle.mz_type.specs.Shapes.{one_more, counted, all_counted, put_on, IsShapeOf};
ghost use Rattle.mz_mmu_theory.specs.Weight.{declaration_weight};

use crate::sizes::{size_of, sizes_of};
use mz_logic_theory::{
    Decl, Env, Expr, ExprRef, Exprs, Operands, Shape as ExprShape, TermDecl, ThmDecl,
};
use std::alloc::{AllocError, Global};
use std::marker::Model;

/// How large an expression is, and how often each variable stands in it.
#[derive(Drop)]
pub(crate) struct Shape {
    own: u64,
    uses: Vec<u64>,
}

/// Counts the variable at the place.
fn count_variable(uses: &mut [u64], place: usize)
    requires { sum_by (λ u. u) uses.old + 1 < 2 ^ 64 }
    ensures { uses.new ≡ one_more uses.old place }
{
    if place < uses.len() {
        uses[place] += 1;
    }
}

/// Counts the variables of the expression.
#[cycle(count_uses)]
fn count_uses(expr: &ExprRef, uses: &mut [u64])
    requires { sum_by (λ u. u) uses.old + size expr.now < 2 ^ 64 }
    ensures { uses.new ≡ counted uses.old expr.now }
{
    match expr.shape() {
        ExprShape::Var(x) => count_variable(uses, x as usize),
        ExprShape::App(_, es) => count_all(&es, uses),
    }
}

/// Counts the variables of the expressions.
#[cycle(count_uses)]
fn count_all(es: &Operands, uses: &mut [u64])
    requires { sum_by (λ u. u) uses.old + trees_size es.now < 2 ^ 64 }
    ensures { uses.new ≡ all_counted uses.old es.now }
{
    for i in 0..es.len() {
        count_uses(&es.at(i), uses);
    }
}

/// The shape of an expression over so many variables.
fn shape_of(alloc: Global, expr: &Expr, places: usize) -> Result<Shape, AllocError>
    requires there { (sigs : List Signature) × InRange sigs places (tree expr.now) }
    requires small { size (tree expr.now) < 2 ^ 64 }
    ensures { IfOk result (λ shape. IsShapeOf shape (tree expr.now)) }
{
    let mut uses: Vec<u64> = vec![in alloc; 0; places]?;
    count_uses(&expr.borrowed(), &mut uses);
    Ok(Shape {
        own: size_of(expr) as u64,
        uses,
    })
}

/// The shape of a term's body; where there is none, of a term without operands.
fn body_shape(alloc: Global, term: &TermDecl) -> Result<Shape, AllocError>
    requires there { (sigs : List Signature) × AllInRange sigs (length (context_of (term_view term.now))) (body_of (form term.now.form)) }
    requires small { trees_size (body_of (form term.now.form)) < 2 ^ 64 }
    ensures { IfOk result (λ shape. IsShapeOf shape (body_tree (form term.now.form))) }
{
    match term.form.body() {
        None => Ok(Shape {
            own: 1,
            uses: Vec::new(alloc),
        }),
        Some(body) => shape_of(alloc, body, term.context().len()),
    }
}

impl Shape {
    /// How often the variable at the place stands in the expression.
    fn uses_of(&self, place: usize) -> u128
        ensures { result ≡ get_or self.now.uses.items place 0 }
    {
        if place < self.uses.len() {
            self.uses[place] as u128
        } else {
            0
        }
    }

    /// How many stand in the operands, and in the expression with these put in.
    fn weight_with(&self, es: &Exprs) -> u128
        requires { trees_size es.now + (self.now.own + put_on es.now self.now.uses.items) < 2 ^ 128 }
        ensures { result ≡ trees_size es.now + (self.now.own + put_on es.now self.now.uses.items) }
    {
        let items = es.as_slice();
        let mut total = self.own as u128;
        for i in 0..items.len() {
            let size = size_of(&items[i]);
            total += size + self.uses_of(i) * (size - 1);
        }
        total
    }
}

/// An environment, and the shapes of its terms' bodies and of its conclusions.
#[derive(Drop)]
pub(crate) struct Shaped {
    env: Env,
    bodies: Vec<Shape>,
    conclusions: Vec<Shape>,
}

impl Model for Shaped {
    ghost use Rattle.std.specs.Prelude.{List};
    ghost use Rattle.mz_logic_theory.specs.Declaration.{Declaration};
    ghost use Rattle.mz_logic_theory.specs.Codes.{declaration_code};
    ghost use Rattle.std.specs.Coded.{coded_list};

    ghost Value = { List Declaration };

    ghost coded = { coded_list declaration_code };

    ghost use Rattle.mz_type.specs.Shapes.{AreShapes, bodies_of, conclusions_of};

    ghost view = { λ a. a.env };

    ghost invariant = { λ a. AreShapes a.bodies.items (bodies_of a.env) × AreShapes a.conclusions.items (conclusions_of a.env) };
}

impl Shaped {
    /// No declarations.
    pub(crate) fn new(alloc: Global) -> Shaped
        ensures { result ≡ [] }
    {
        Shaped {
            env: Env::new(alloc),
            bodies: Vec::new(alloc),
            conclusions: Vec::new(alloc),
        }
    }

    /// The environment.
    pub(crate) fn env(&self) -> &Env
        ensures { result.now ≡ self.now }
    {
        &self.env
    }

    /// The environment alone.
    pub(crate) fn into_env(self) -> Env
        ensures { result ≡ self }
    {
        self.env
    }

    /// Adds a declaration that is legal over those that are here.
    ///
    /// # Errors
    ///
    /// Where there is no memory.
    pub(crate) fn push(&mut self, alloc: Global, decl: Decl) -> Result<(), AllocError>
        requires legal { IsLegalDecl self.old (declaration decl) }
        requires room { length self.old < 4294967295 }
        requires small { declaration_weight (declaration decl) < 2 ^ 64 }
        ensures { OnOk result (self.new ≡ self.old ++ declaration decl ∷ []) }
    {
        match decl {
            Decl::Sort(mods) => self.env.push_decl(Decl::Sort(mods)),
            Decl::Term(term) => self.push_term(alloc, term),
            Decl::Thm(thm) => self.push_thm(alloc, thm),
        }
    }

    fn push_term(&mut self, alloc: Global, term: TermDecl) -> Result<(), AllocError>
        requires legal { IsLegalDecl self.old (term_of term) }
        requires room { length self.old < 4294967295 }
        requires small { declaration_weight (term_of term) < 2 ^ 64 }
        ensures { OnOk result (self.new ≡ self.old ++ term_of term ∷ []) }
    {
        let shape = body_shape(alloc, &term)?;
        self.bodies.push(shape)?;
        match self.env.push_decl(Decl::Term(term)) {
            Ok(()) => Ok(()),
            Err(failed) => {
                self.bodies.pop();
                Err(failed)
            }
        }
    }

    fn push_thm(&mut self, alloc: Global, thm: ThmDecl) -> Result<(), AllocError>
        requires legal { IsLegalDecl self.old (assertion_of thm) }
        requires room { length self.old < 4294967295 }
        requires small { declaration_weight (assertion_of thm) < 2 ^ 64 }
        ensures { OnOk result (self.new ≡ self.old ++ assertion_of thm ∷ []) }
    {
        let shape = shape_of(alloc, &thm.conclusion, thm.params.len())?;
        self.conclusions.push(shape)?;
        match self.env.push_decl(Decl::Thm(thm)) {
            Ok(()) => Ok(()),
            Err(failed) => {
                self.conclusions.pop();
                Err(failed)
            }
        }
    }

    /// How many stand in the operands, and in the body of the term with these put in.
    pub(crate) fn body_weight(&self, term: u32, es: &Exprs) -> u128
        requires { trees_size es.now + size (instance es.now (body_tree (term_at self.now term).form)) < 2 ^ 128 }
        ensures { result ≡ trees_size es.now + size (instance es.now (body_tree (term_at self.now term).form)) }
    {
        match self.bodies.get(term as usize) {
            None => sizes_of(es) + 1,
            Some(shape) => shape.weight_with(es),
        }
    }

    /// How many stand in the operands, and in the conclusion of the axiom or theorem with these put in.
    pub(crate) fn conclusion_weight(&self, number: u32, es: &Exprs) -> u128
        requires { trees_size es.now + size (instance es.now (assertion_at self.now number).conclusion) < 2 ^ 128 }
        ensures { result ≡ trees_size es.now + size (instance es.now (assertion_at self.now number).conclusion) }
    {
        match self.conclusions.get(number as usize) {
            None => sizes_of(es) + 1,
            Some(shape) => shape.weight_with(es),
        }
    }
}
