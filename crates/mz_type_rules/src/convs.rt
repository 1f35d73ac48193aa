//! What is asked of conversions.
ghost use Rattle.std.specs.Prelude.{◌≡◌, ◌↔◌, ⊤, Bool, true, false, IfOk, IsTrue, length};
ghost use Rattle.mz_base.specs.Checks.{Judges, AllHold};
ghost use Rattle.mz_sexpr.specs.Number.{first, rest};
ghost use Rattle.mz_sexpr.specs.Node.{parts};
ghost use Rattle.mz_logic_theory.specs.Conversions.{refl_conv, sym_conv, cong_conv, unfold_conv, gap_conv, IsBoundOf};
ghost use Rattle.mz_logic_theory.specs.Declaration.{signatures};
ghost use Rattle.mz_logic_theory.specs.DeclView.{term_view};
ghost use Rattle.mz_logic_theory.specs.Legality;
ghost use Rattle.mz_logic_theory.specs.Sorts.{IsBoundVar};
ghost use Rattle.mz_logic_theory.specs.Tree.{instance, followed_by, variables};
ghost use Rattle.mz_logic_theory.specs.View.{tree};
ghost use Rattle.mz_mmu_theory.specs.ConvView.{conversion};
ghost use Rattle.mz_type_rules.specs.Answers.{Judged, told};
ghost use Rattle.mz_mmu_theory.specs.Names.{ConvThere, ConvsThere};
ghost use Rattle.mz_mmu_theory.specs.Parts.{part, is_list};
ghost use Rattle.mz_mmu_theory.specs.Rules;
ghost use Rattle.mz_mmu_theory.specs.Rules.{conv_rules, convs_rules, side_rules, own_side_rules, variable_rules, unfold_rules, exprs_rules, sorted_rules, AreNew};
ghost use Rattle.mz_mmu_theory.specs.Sides.{side, left};

use crate::claim::{Claim, is_side};
use crate::cursor::Cursor;
use crate::exprs::{check_expr, check_exprs, check_operands, params_of};
use mz_logic::{is_bound_var, sort_of, sort_of_term};
use mz_logic_free::{VariableSet, some_name_any};
use mz_logic_theory::{Binder, Context, Env, Expr, Exprs, Hyps, TermDecl};
use mz_mmu_theory::{Conv, Convs, Fault, Stop, Vars};
use mz_sexpr::U;
use std::alloc::{AllocError, Global};

/// A refusal as a cause to stop.
pub(crate) fn refuse(checked: Result<(), Fault>) -> Result<(), Stop>
    ensures { result ≡ told checked }
{
    match checked {
        Ok(()) => Ok(()),
        Err(fault) => Err(Stop::Refused(fault)),
    }
}

/// The sort of a side of a conversion: of the right one, or of the left one.
fn sort_of_side(env: &Env, ctx: &Context, conv: &Conv, right: bool) -> u32
    ensures { result ≡ Legality.sort_of (signatures env.now) ctx.now (side right (conversion conv.now)) }
{
    match conv {
        Conv::Refl(e) => sort_of(env, ctx, e),
        Conv::Sym(conv) => sort_of_side(env, ctx, conv.get(), !right),
        Conv::Cong(t, _) => sort_of_term(env, *t),
        Conv::Unfold(t, _, _, conv) => {
            if right {
                sort_of_side(env, ctx, conv.get(), right)
            } else {
                sort_of_term(env, *t)
            }
        }
        Conv::Gap(l, r) => {
            if right {
                sort_of(env, ctx, r)
            } else {
                sort_of(env, ctx, l)
            }
        }
    }
}

/// Is a side of a conversion a bound variable?
fn is_bound_side(ctx: &Context, conv: &Conv, right: bool) -> bool
    ensures { IsTrue result ↔ IsBoundVar ctx.now (side right (conversion conv.now)) }
{
    match conv {
        Conv::Refl(e) => is_bound_var(ctx, e),
        Conv::Sym(conv) => is_bound_side(ctx, conv.get(), !right),
        Conv::Cong(_, _) => false,
        Conv::Unfold(_, _, _, conv) => right && is_bound_side(ctx, conv.get(), right),
        Conv::Gap(l, r) => {
            if right {
                is_bound_var(ctx, r)
            } else {
                is_bound_var(ctx, l)
            }
        }
    }
}

/// Both sides of a part have the parameter's sort, and are bound variables where it is bound.
fn check_side(
    env: &Env,
    ctx: &Context,
    conv: &Conv,
    nodes: &Cursor,
    param: &Binder,
) -> Result<(), Fault>
    ensures { Judges result (own_side_rules (signatures env.now) ctx.now (conversion conv.now) (first nodes.now) param.now) }
{
    if sort_of_side(env, ctx, conv, false) != param.sort
        || sort_of_side(env, ctx, conv, true) != param.sort
    {
        return Err(nodes.fault(U::Sort));
    }
    if param.bound && !(is_bound_side(ctx, conv, false) && is_bound_side(ctx, conv, true)) {
        return Err(nodes.fault(U::Bound));
    }
    Ok(())
}

/// Both sides of each part fit the parameter at its place.
fn check_sides(
    env: &Env,
    ctx: &Context,
    convs: &Convs,
    nodes: &Cursor,
    params: &[Binder],
) -> Result<(), Fault>
    ensures { Judges result (side_rules (signatures env.now) ctx.now convs.now nodes.now params.now) }
{
    let items = convs.as_slice();
    let mut left = nodes.after(0);
    for i in 0..items.len() {
        if i == params.len() {
            return Ok(());
        }
        check_side(env, ctx, &items[i], &left, &params[i])?;
        left = left.rest();
    }
    Ok(())
}

/// Is the variable at the place bound, and of this sort?
fn is_bound_of(ctx: &Context, place: u32, sort: u32) -> bool
    ensures { IsTrue result ↔ IsBoundOf ctx.now place sort }
{
    match ctx.get(place) {
        None => false,
        Some(binder) => binder.bound && binder.sort == sort,
    }
}

/// Whether each variable is bound and of its dummy's sort.
fn check_variables(
    ctx: &Context,
    vars: &Vars,
    nodes: &Cursor,
    dummies: &[Binder],
) -> Result<(), Fault>
    ensures { Judges result (variable_rules ctx.now vars.now nodes.now dummies.now) }
{
    let places = vars.as_slice();
    let mut left = nodes.after(0);
    for i in 0..places.len() {
        if i == dummies.len() {
            return Ok(());
        }
        if !is_bound_of(ctx, places[i], dummies[i].sort) {
            return Err(left.fault(U::Bound));
        }
        left = left.rest();
    }
    Ok(())
}

/// Whether the variables differ, and none is in V of an operand.
fn are_new(alloc: Global, ctx: &Context, es: &Exprs, vars: &Vars) -> Result<bool, AllocError>
    ensures { IfOk result (λ new. IsTrue new ↔ AreNew ctx.now es.now vars.now) }
{
    let mut seen = VariableSet::new(alloc);
    for place in vars.as_slice() {
        if seen.has(*place) {
            return Ok(false);
        }
        seen.add(*place)?;
    }
    Ok(!some_name_any(alloc, ctx, es, &seen))
}

/// Whether a conversion goes from the body with the operands and variables put in.
fn goes_from_body(
    alloc: Global,
    body: &Expr,
    es: &Exprs,
    vars: &Vars,
    conv: &Conv,
) -> Result<bool, AllocError>
    ensures { IfOk result (λ goes. IsTrue goes ↔ (left (conversion conv.now) ≡ instance (followed_by es.now (variables vars.now)) (tree body.now))) }
{
    is_side(
        alloc,
        conv,
        false,
        Claim::unfolded(body, es, vars.as_slice()),
    )
}

/// The node of a reflexivity's expression, which may stand alone.
fn refl_node<'n, 'a>(nodes: &Cursor<'n, 'a>) -> Cursor<'n, 'a>
    ensures { first result ≡ Rules.refl_node (is_list (first nodes.now)) (first nodes.now) }
{
    if nodes.is_list() {
        nodes.part(1)
    } else {
        nodes.after(0)
    }
}

/// The rules of an expression, at the first node, and whether it has this sort.
fn check_of_sort(
    env: &Env,
    ctx: &Context,
    sort: u32,
    expr: &Expr,
    nodes: &Cursor,
) -> Result<(), Fault>
    ensures { Judges result (sorted_rules (signatures env.now) ctx.now sort (tree expr.now) (first nodes.now)) }
{
    check_expr(env, ctx, expr, nodes)?;
    if sort == sort_of(env, ctx, expr) {
        Ok(())
    } else {
        Err(nodes.fault(U::Sort))
    }
}

/// The rules of a gap between two expressions, at the first node: both have one sort.
fn check_gap_sides(
    env: &Env,
    ctx: &Context,
    left: &Expr,
    right: &Expr,
    nodes: &Cursor,
) -> Result<(), Fault>
    ensures { Judges result (conv_rules env.now ctx.now (gap_conv (tree left.now) (tree right.now)) (first nodes.now)) }
{
    check_expr(env, ctx, left, &nodes.part(1))?;
    check_of_sort(env, ctx, sort_of(env, ctx, left), right, &nodes.part(2))
}

/// What the type rules of conversions and proofs are tried over.
#[derive(Clone, Copy)]
pub(crate) struct Checker<'t, 'c> {
    /// Where sets of variables are kept.
    pub(crate) alloc: Global,
    /// The statements before.
    pub(crate) env: &'t Env,
    /// The variables.
    pub(crate) ctx: &'t Context<'c>,
    /// The theorem's hypotheses.
    pub(crate) hyps: &'t Hyps,
}

// Conversions and proofs stand deep in one another, and what calls itself through them takes stack
// once a level. So what they ask beside their parts stands in functions that aren't inlined there.
impl<'t, 'c> Checker<'t, 'c> {
    /// The rules of the expressions that are the parts of the first node's part at the place.
    #[inline(never)]
    pub(crate) fn check_part_exprs(
        &self,
        es: &Exprs,
        place: usize,
        nodes: &Cursor,
    ) -> Result<(), Stop>
        ensures { Judged result (exprs_rules (signatures self.now.env.now) self.now.ctx.now es.now (parts (part (parts (first nodes.now)) place))) }
    {
        refuse(check_exprs(self.env, self.ctx, es, &nodes.parts_of(place)))
    }

    /// The rules of a reflexivity, at the first node.
    #[inline(never)]
    fn check_refl(&self, e: &Expr, nodes: &Cursor) -> Result<(), Stop>
        ensures { Judged result (conv_rules self.now.env.now self.now.ctx.now (refl_conv (tree e.now)) (first nodes.now)) }
    {
        refuse(check_expr(self.env, self.ctx, e, &refl_node(nodes)))
    }

    /// The rules of a gap between two expressions, at the first node.
    #[inline(never)]
    fn check_gap_conv(&self, left: &Expr, right: &Expr, nodes: &Cursor) -> Result<(), Stop>
        ensures { Judged result (conv_rules self.now.env.now self.now.ctx.now (gap_conv (tree left.now) (tree right.now)) (first nodes.now)) }
    {
        refuse(check_gap_sides(self.env, self.ctx, left, right, nodes))
    }

    /// The own rules of a conversion under a term, after those of its parts.
    #[inline(never)]
    fn check_cong_sides(&self, term: u32, convs: &Convs, nodes: &Cursor) -> Result<(), Stop>
        requires { AllHold (convs_rules self.now.env.now self.now.ctx.now convs.now (rest (parts (first nodes.now)))) }
        ensures { Judged result (conv_rules self.now.env.now self.now.ctx.now (cong_conv term convs.now) (first nodes.now)) }
    {
        let params = params_of(self.env, term);
        if convs.as_slice().len() != params.len() {
            return Err(Stop::Refused(nodes.fault(U::Arity)));
        }
        refuse(check_sides(self.env, self.ctx, convs, &nodes.parts_after(1), params))
    }

    /// The rules of a conversion, at the first node.
    #[cycle(check_conv)]
    pub(crate) fn check_conv(&self, conv: &Conv, nodes: &Cursor) -> Result<(), Stop>
        requires { ConvThere (length (signatures self.now.env.now)) (length self.now.ctx.now) (conversion conv.now) }
        ensures { Judged result (conv_rules self.now.env.now self.now.ctx.now (conversion conv.now) (first nodes.now)) }
    {
        match conv {
            Conv::Refl(e) => self.check_refl(e, nodes),
            Conv::Sym(conv) => self.check_sym(conv.get(), nodes),
            Conv::Cong(t, convs) => self.check_cong(*t, convs, nodes),
            Conv::Unfold(t, es, vars, conv) => self.check_unfold(*t, es, vars, conv.get(), nodes),
            Conv::Gap(l, r) => self.check_gap_conv(l, r, nodes),
        }
    }

    /// The rules of a conversion turned round, at the first node.
    #[cycle(check_conv)]
    #[inline(never)]
    fn check_sym(&self, conv: &Conv, nodes: &Cursor) -> Result<(), Stop>
        requires { ConvThere (length (signatures self.now.env.now)) (length self.now.ctx.now) (conversion conv.now) }
        ensures { Judged result (conv_rules self.now.env.now self.now.ctx.now (sym_conv (conversion conv.now)) (first nodes.now)) }
    {
        self.check_conv(conv, &nodes.part(1))
    }

    /// The rules of each conversion, at its node.
    #[cycle(check_conv)]
    fn check_convs(&self, convs: &Convs, nodes: &Cursor) -> Result<(), Stop>
        requires { ConvsThere (length (signatures self.now.env.now)) (length self.now.ctx.now) convs.now }
        ensures { Judged result (convs_rules self.now.env.now self.now.ctx.now convs.now nodes.now) }
    {
        let mut left = nodes.after(0);
        for conv in convs.as_slice() {
            self.check_conv(conv, &left)?;
            left = left.rest();
        }
        Ok(())
    }

    /// The rules of a conversion under a term, at the first node.
    #[cycle(check_conv)]
    #[inline(never)]
    fn check_cong(&self, term: u32, convs: &Convs, nodes: &Cursor) -> Result<(), Stop>
        requires { ConvsThere (length (signatures self.now.env.now)) (length self.now.ctx.now) convs.now }
        ensures { Judged result (conv_rules self.now.env.now self.now.ctx.now (cong_conv term convs.now) (first nodes.now)) }
    {
        self.check_convs(convs, &nodes.parts_after(1))?;
        self.check_cong_sides(term, convs, nodes)
    }

    /// The rules of an unfolding, at the first node.
    #[cycle(check_conv)]
    #[inline(never)]
    fn check_unfold(
        &self,
        term: u32,
        es: &Exprs,
        vars: &Vars,
        conv: &Conv,
        nodes: &Cursor,
    ) -> Result<(), Stop>
        requires { ConvThere (length (signatures self.now.env.now)) (length self.now.ctx.now) (conversion conv.now) }
        ensures { Judged result (conv_rules self.now.env.now self.now.ctx.now (unfold_conv term es.now vars.now (conversion conv.now)) (first nodes.now)) }
    {
        self.check_part_exprs(es, 2, nodes)?;
        self.check_conv(conv, &nodes.part(4))?;
        self.check_unfolded(term, es, vars, conv, nodes)
    }

    /// The own rules of an unfolding, after those of its parts.
    #[inline(never)]
    fn check_unfolded(
        &self,
        term: u32,
        es: &Exprs,
        vars: &Vars,
        conv: &Conv,
        nodes: &Cursor,
    ) -> Result<(), Stop>
        requires sorted { AllHold (exprs_rules (signatures self.now.env.now) self.now.ctx.now es.now (parts (part (parts (first nodes.now)) 2))) }
        requires held { AllHold (conv_rules self.now.env.now self.now.ctx.now (conversion conv.now) (part (parts (first nodes.now)) 4)) }
        ensures { Judged result (conv_rules self.now.env.now self.now.ctx.now (unfold_conv term es.now vars.now (conversion conv.now)) (first nodes.now)) }
    {
        match self.env.term(term) {
            None => Err(Stop::Refused(nodes.fault(U::Conversion))),
            Some(term) => self.check_definition(term, es, vars, conv, nodes),
        }
    }

    /// The own rules of an unfolding of a term, after those of its parts.
    fn check_definition(
        &self,
        term: &TermDecl,
        es: &Exprs,
        vars: &Vars,
        conv: &Conv,
        nodes: &Cursor,
    ) -> Result<(), Stop>
        ensures { Judged result (unfold_rules (signatures self.now.env.now) self.now.ctx.now (term_view term.now) es.now vars.now (left (conversion conv.now)) (first nodes.now)) }
    {
        let Some(body) = term.form.body() else {
            return Err(Stop::Refused(nodes.fault(U::Conversion)));
        };
        let params = term.params.as_slice();
        let dummies = term.form.dummies();
        if es.len() != params.len() || vars.as_slice().len() != dummies.len() {
            return Err(Stop::Refused(nodes.fault(U::Arity)));
        }
        refuse(check_operands(self.env, self.ctx, es, &nodes.parts_of(2), params))?;
        refuse(check_variables(self.ctx, vars, &nodes.parts_of(3), dummies))?;
        let fresh = are_new(self.alloc, self.ctx, es, vars)?;
        if !fresh {
            return Err(Stop::Refused(nodes.fault(U::Disjoint)));
        }
        let goes = goes_from_body(self.alloc, body, es, vars, conv)?;
        if goes {
            Ok(())
        } else {
            Err(Stop::Refused(nodes.fault(U::Conversion)))
        }
    }
}
