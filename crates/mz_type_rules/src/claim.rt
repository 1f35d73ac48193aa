//! What proofs prove, and the sides of conversions, compared without being written out.
ghost use Rattle.std.specs.Prelude.{◌≡◌, ◌↔◌, ◌<◌, ◌≤◌, ◌+◌, ◌*◌, Bool, true, false, [], suc, IfOk, IsTrue, OnOk};
ghost use Rattle.mz_logic_theory.specs.Shapes.{shape_tree};
ghost use Rattle.mz_logic_theory.specs.Tree.{var, operand, instance, followed_by, size, variables};
ghost use Rattle.mz_logic_theory.specs.View.{tree};
ghost use Rattle.mz_mmu_theory.specs.ConvCode.{conv_steps};
ghost use Rattle.mz_mmu_theory.specs.ConvView.{conversion, conversions};
ghost use Rattle.mz_type_rules.specs.Claims.{put_in, all_put_in, borrowed_trees, claim_tree, side_tree, side_steps, AreSame, AllSame, lists_size, turns};
ghost use Rattle.mz_mmu_theory.specs.Sides.{side, sides};

use mz_logic_theory::{Expr, ExprRef, Exprs, Operands, Shape};
use mz_mmu_theory::{Conv, Convs};
use std::alloc::{AllocError, Global};

/// What stands in place of variables.
#[derive(Clone, Copy)]
pub(crate) enum Put<'t> {
    /// The variables themselves.
    Nothing,
    /// These operands, and behind them these variables.
    Operands(&'t Exprs, &'t [u32]),
}

/// Expressions that are borrowed: the terms of a path over each of these.
#[derive(Clone, Copy)]
pub(crate) struct BorrowedExprs<'t> {
    path: &'t [u32],
    exprs: &'t [Expr],
}

/// A variable, or a term over expressions with something put in.
#[derive(Clone, Copy)]
pub(crate) enum Claim<'t> {
    Var(u32),
    App(u32, BorrowedExprs<'t>, Put<'t>),
}

impl<'t> BorrowedExprs<'t> {
    /// The same expressions, in parts that can be copied.
    pub(crate) fn of(es: &Operands<'t>) -> BorrowedExprs<'t>
        ensures { borrowed_trees result ≡ es.now }
    {
        let (path, exprs) = es.parts();
        BorrowedExprs { path, exprs }
    }

    /// The same expressions, to be gone through.
    fn operands(&self) -> Operands<'t>
        ensures { result ≡ borrowed_trees self.now }
    {
        Operands::over(self.path, self.exprs)
    }
}

/// The variable at the place; past the end a term without operands.
#[tactic(auto, using(crate::proofs::Claims::variable_in, crate::proofs::Claims::variable_past))]
fn variable_at<'t>(vars: &'t [u32], place: usize) -> Claim<'t>
    ensures { claim_tree result ≡ operand (variables vars.now) place }
{
    if place < vars.len() {
        return Claim::Var(vars[place]);
    }
    let none = BorrowedExprs {
        path: &[],
        exprs: &[],
    };
    Claim::App(0, none, Put::Nothing)
}

/// What stands in place of the variable at the place.
fn operand_at<'t>(es: &'t Exprs, vars: &'t [u32], place: usize) -> Claim<'t>
    ensures { claim_tree result ≡ operand (followed_by es.now (variables vars.now)) place }
{
    match es.get(place) {
        Some(e) => Claim::of(e),
        None => variable_at(vars, place - es.len()),
    }
}

impl<'t> Claim<'t> {
    /// The expression itself.
    pub(crate) fn of(expr: &'t Expr) -> Claim<'t>
        ensures { claim_tree result ≡ tree expr.now }
    {
        match expr.shape() {
            Shape::Var(x) => Claim::Var(x),
            Shape::App(t, es) => Claim::App(t, BorrowedExprs::of(&es), Put::Nothing),
        }
    }

    /// The expression of this shape, with this put in.
    fn with(shape: Shape<'t>, put: Put<'t>) -> Claim<'t>
        ensures { claim_tree result ≡ put_in put.entry (shape_tree shape.entry) }
    {
        match (shape, put) {
            (Shape::Var(x), Put::Nothing) => Claim::Var(x),
            (Shape::Var(x), Put::Operands(es, vars)) => operand_at(es, vars, x as usize),
            (Shape::App(t, es), put) => Claim::App(t, BorrowedExprs::of(&es), put),
        }
    }

    /// The expression with the operands in place of its variables, and the variables behind them.
    pub(crate) fn unfolded(expr: &'t Expr, es: &'t Exprs, vars: &'t [u32]) -> Claim<'t>
        ensures { claim_tree result ≡ instance (followed_by es.now (variables vars.now)) (tree expr.now) }
    {
        Claim::with(expr.shape(), Put::Operands(es, vars))
    }

    /// The expression with the operands in place of its variables.
    pub(crate) fn instance(expr: &'t Expr, es: &'t Exprs) -> Claim<'t>
        ensures { claim_tree result ≡ instance es.now (tree expr.now) }
    {
        Claim::unfolded(expr, es, &[])
    }
}

/// Lists of expressions with something put in, which are left to compare.
#[derive(Drop)]
struct Lists<'t> {
    es: BorrowedExprs<'t>,
    p: Put<'t>,
    fs: BorrowedExprs<'t>,
    q: Put<'t>,
}

/// Lets lists wait to be compared.
fn wait<'t>(waiting: &mut Vec<Lists<'t>>, lists: Lists<'t>) -> Result<(), AllocError>
    ensures same { OnOk result (AllSame waiting.new.items ↔ (AllSame waiting.old.items × AreSame lists.entry)) }
    ensures small { OnOk result (turns waiting.new.items ≤ turns waiting.old.items + suc (2 * lists_size lists.entry)) }
{
    if lists.es.exprs.is_empty() && lists.fs.exprs.is_empty() {
        return Ok(());
    }
    waiting.push(lists)?;
    Ok(())
}

/// Whether two claims are the same, if their operands are, which wait to be compared.
fn compare<'t>(waiting: &mut Vec<Lists<'t>>, a: Claim<'t>, b: Claim<'t>) -> Result<bool, AllocError>
    ensures same { IfOk result (λ same. (IsTrue same × AllSame waiting.new.items) ↔ (AllSame waiting.old.items × (claim_tree a.entry ≡ claim_tree b.entry))) }
    ensures less { OnOk result (turns waiting.new.items < turns waiting.old.items + 2 * size (claim_tree a.entry)) }
{
    match (a, b) {
        (Claim::Var(x), Claim::Var(y)) => Ok(x == y),
        (Claim::App(t, es, p), Claim::App(u, fs, q)) => {
            if t != u {
                return Ok(false);
            }
            wait(waiting, Lists { es, p, fs, q })?;
            Ok(true)
        }
        _ => Ok(false),
    }
}

/// The same of the first expressions of two lists; those behind them wait too.
fn compare_first<'t>(waiting: &mut Vec<Lists<'t>>, lists: Lists<'t>) -> Result<bool, AllocError>
    ensures same { IfOk result (λ same. (IsTrue same × AllSame waiting.new.items) ↔ (AllSame waiting.old.items × AreSame lists.entry)) }
    ensures less { OnOk result (turns waiting.new.items < turns waiting.old.items + suc (2 * lists_size lists.entry)) }
{
    let Lists { es, p, fs, q } = lists;
    match (es.operands().split_first(), fs.operands().split_first()) {
        (Some((e, es)), Some((f, fs))) => {
            let es = BorrowedExprs::of(&es);
            let fs = BorrowedExprs::of(&fs);
            wait(waiting, Lists { es, p, fs, q })?;
            compare(
                waiting,
                Claim::with(e.shape(), p),
                Claim::with(f.shape(), q),
            )
        }
        (None, None) => Ok(true),
        _ => Ok(false),
    }
}

/// Whether two claims are the same expression.
#[inline(never)]
pub(crate) fn same_claim<'t>(alloc: Global, a: Claim<'t>, b: Claim<'t>) -> Result<bool, AllocError>
    ensures { IfOk result (λ same. IsTrue same ↔ (claim_tree a.entry ≡ claim_tree b.entry)) }
{
    let mut turns: usize = 0;
    same_claim_in(alloc, a, b, &mut turns)
}

/// The same, and counts the turns that it takes.
pub(crate) fn same_claim_in<'t>(
    alloc: Global,
    a: Claim<'t>,
    b: Claim<'t>,
    count: &mut usize,
) -> Result<bool, AllocError>
    ensures { IfOk result (λ same. IsTrue same ↔ (claim_tree a.entry ≡ claim_tree b.entry)) }
{
    let mut waiting: Vec<Lists> = Vec::new(alloc);
    compare_all(&mut waiting, a, b, count)
}

/// The same. What is left to compare is kept in a list: both may be deep, and so are proofs, so that
/// there is no stack for both.
fn compare_all<'t>(
    waiting: &mut Vec<Lists<'t>>,
    a: Claim<'t>,
    b: Claim<'t>,
    count: &mut usize,
) -> Result<bool, AllocError>
    requires { waiting.old.items ≡ [] }
    ensures { IfOk result (λ same. IsTrue same ↔ (claim_tree a.entry ≡ claim_tree b.entry)) }
{
    let begun = compare(waiting, a, b)?;
    if !begun {
        return Ok(false);
    }
    'comparing: while let Some(lists) = waiting.pop() {
        *count = count.saturating_add(1);
        let same = compare_first(waiting, lists)?;
        if !same {
            return Ok(false);
        }
    }
    Ok(true)
}

/// A side of a conversion, below the turnings and unfoldings that stand over it.
#[derive(Clone, Copy)]
enum Side<'c> {
    /// This expression.
    Own(&'c Expr),
    /// The term over these operands.
    Term(u32, &'c Exprs),
    /// The term over a side of each of these: the right ones, or the left ones.
    Under(u32, &'c Convs, bool),
}

/// A side of the conversion: the right one, or the left one.
fn side_of<'c>(conv: &'c Conv, right: bool) -> Side<'c>
    ensures same { side_tree result ≡ side right (conversion conv.now) }
    ensures small { side_steps result ≤ conv_steps (conversion conv.now) }
{
    match conv {
        Conv::Refl(e) => Side::Own(e),
        Conv::Sym(part) => side_of(part.get(), !right),
        Conv::Cong(t, parts) => Side::Under(*t, parts, right),
        Conv::Unfold(t, es, _, part) => {
            if right {
                return side_of(part.get(), right);
            }
            Side::Term(*t, es)
        }
        Conv::Gap(l, r) => {
            if right {
                return Side::Own(r);
            }
            Side::Own(l)
        }
    }
}

/// Whether a side of the conversion, the right one or the left one, is the claim.
#[cycle(is_side)]
pub(crate) fn is_side(
    alloc: Global,
    conv: &Conv,
    right: bool,
    claim: Claim,
) -> Result<bool, AllocError>
    ensures { IfOk result (λ is. IsTrue is ↔ (side right (conversion conv.now) ≡ claim_tree claim.entry)) }
{
    match side_of(conv, right) {
        Side::Own(e) => same_claim(alloc, Claim::of(e), claim),
        Side::Term(t, es) => {
            let es = BorrowedExprs::of(&es.borrowed());
            same_claim(alloc, Claim::App(t, es, Put::Nothing), claim)
        }
        Side::Under(t, parts, right) => match claim {
            Claim::Var(_) => Ok(false),
            Claim::App(u, es, put) => {
                if t != u {
                    return Ok(false);
                }
                are_sides(alloc, parts.as_slice(), right, &es.operands(), &put)
            }
        },
    }
}

/// Whether the sides of the conversions are the expressions with something put in.
#[cycle(is_side)]
fn are_sides(
    alloc: Global,
    convs: &[Conv],
    right: bool,
    es: &Operands,
    put: &Put,
) -> Result<bool, AllocError>
    ensures { IfOk result (λ are. IsTrue are ↔ (sides right (conversions convs.now) ≡ all_put_in put.now es.now)) }
{
    if convs.len() != es.len() {
        return Ok(false);
    }
    for i in 0..convs.len() {
        let is = is_side_with(alloc, &convs[i], right, &es.at(i), put)?;
        if !is {
            return Ok(false);
        }
    }
    Ok(true)
}

/// Whether a side of the conversion is the expression with something put in. Where both are terms
/// over more no claim is made, which would stand on the stack once a level.
#[cycle(is_side)]
fn is_side_with(
    alloc: Global,
    conv: &Conv,
    right: bool,
    expr: &ExprRef,
    put: &Put,
) -> Result<bool, AllocError>
    ensures { IfOk result (λ is. IsTrue is ↔ (side right (conversion conv.now) ≡ put_in put.now expr.now)) }
{
    match (side_of(conv, right), expr.shape()) {
        (Side::Under(t, parts, right), Shape::App(u, es)) => {
            if t != u {
                return Ok(false);
            }
            are_sides(alloc, parts.as_slice(), right, &es, put)
        }
        _ => is_side_read(alloc, conv, right, expr, put),
    }
}

/// The same of what the expression is where it is read. It isn't inlined: the claim would stand on
/// the stack once a level.
#[cycle(is_side)]
#[inline(never)]
fn is_side_read(
    alloc: Global,
    conv: &Conv,
    right: bool,
    expr: &ExprRef,
    put: &Put,
) -> Result<bool, AllocError>
    ensures { IfOk result (λ is. IsTrue is ↔ (side right (conversion conv.now) ≡ put_in put.now expr.now)) }
{
    is_side(alloc, conv, right, Claim::with(expr.shape(), *put))
}
