// The formulas of a statement.
ghost use Rattle.std.specs.Prelude.{◌≡◌, ◌↔◌, ◌+◌, ◌<◌, ◌^◌, ◌++◌, ℕ, List, IfOk, IsTrue, OnOk, Contains, map};
ghost use Rattle.mz_base.specs.Checks.{retold};
ghost use Rattle.mz_spec_theory.specs.StatementCode.{group as group_lem, lexeme, source as source_lem};
ghost use Rattle.mz_logic_theory.specs.Declaration.{signatures};
ghost use Rattle.mz_logic_theory.specs.Sorts.{HasSort};
ghost use Rattle.mz_logic_theory.specs.Tree.{Tree, followed_by};
ghost use Rattle.mz_logic_theory.specs.Variables.{InFV};
ghost use Rattle.mz_logic_theory.specs.View.{tree};
ghost use Rattle.mz_math_theory.specs.Formula.{IsFormula, formula_checks};
ghost use Rattle.mz_lex.specs.MathTokens.{MathTokens};
ghost use Rattle.mz_math_theory.specs.declared.wanted.Wanted.TheVariants.{Provable as provable};
ghost use Rattle.mz_lex.specs.declared.tokens.MathToken.{MathToken};
ghost use Rattle.mz_spec_rules.specs.Answers.{JudgesOrMem};
ghost use Rattle.mz_spec_theory.specs.SpecCode.{EndsSmall, stated as stated_lem};
ghost use Rattle.mz_spec_rules.specs.Entries.{state as state_lem};
ghost use Rattle.mz_spec_theory.specs.Formulas.{AreHyps, AreTokens, copies, inner as inner_lem, place_of, strings_checks, told as told_lem};
ghost use Rattle.mz_spec_theory.specs.Dependencies.{Every};
ghost use Rattle.mz_spec_theory.specs.State.{scope_of};
ghost use Rattle.mz_spec_theory.specs.View.{Variable, group_stated, premise_stated, source_stated, stated_claim};

use mz_lex::S;
use mz_logic_free::free_vars_are_among;
use mz_logic_theory::{Context, Deps, Expr, Hyps};
use mz_math::{Scope, parse_formula};
use mz_math_theory::{Parsed, Wanted};
use mz_spec_rules::{State, inner};
use mz_spec_theory::{Fault, Group, Halt, Lexeme, Source, Stated};
use std::alloc::{AllocError, Global};

/// Adds a formula that makes so many hypotheses, where it is one.
fn push_stated<'a>(
    stated: &mut Vec<Stated<'a>>,
    source: &Source<'a>,
    times: usize,
) -> Result<(), AllocError>
    ensures { OnOk result (map stated_lem stated.new.items ≡ map stated_lem stated.old.items ++ source_stated times (source_lem source.now)) }
{
    if let Source::Formula(math) = source {
        let formula = Stated { math: *math, times };
        stated.push(formula)?;
    }
    Ok(())
}

/// Adds the formulas of groups, each of which is a hypothesis for each name.
pub fn push_group_stated<'a>(
    stated: &mut Vec<Stated<'a>>,
    groups: &[Group<'a>],
) -> Result<(), AllocError>
    ensures { OnOk result (map stated_lem stated.new.items ≡ map stated_lem stated.old.items ++ group_stated (map group_lem groups.now)) }
{
    for group in groups {
        push_stated(stated, &group.source, group.names.len())?;
    }
    Ok(())
}

/// Adds the formulas before a `>`.
pub fn push_premise_stated<'a>(
    stated: &mut Vec<Stated<'a>>,
    premises: &[Source<'a>],
) -> Result<(), AllocError>
    ensures { OnOk result (map stated_lem stated.new.items ≡ map stated_lem stated.old.items ++ premise_stated (map source_lem premises.now)) }
{
    for premise in premises {
        push_stated(stated, premise, 1)?;
    }
    Ok(())
}

/// An unknown token is reported where it stands, the other rules at the `$`.
fn place_in(math: Lexeme<'_>, at: u32, rule: S) -> u32
    requires { math.from + 1 + at < 2 ^ 32 }
    ensures { result ≡ place_of (lexeme math.entry) rule at }
{
    match rule {
        S::MathToken => math.from + 1 + at,
        _ => math.from,
    }
}

/// What a math string stands for.
pub fn formula<'a>(
    state: &State<'a>,
    alloc: Global,
    scope: &Scope,
    math: Lexeme<'a>,
    wanted: Wanted,
) -> Result<Expr, Halt>
    requires small { EndsSmall (lexeme math) }
    ensures judged { (ps : List MathToken) → MathTokens state.now.notations.delimiters (inner_lem (lexeme math.entry)) ps
        → JudgesOrMem result (retold (told_lem (lexeme math.entry)) (formula_checks (record { env = state.now.env; table = state.now.notations; scope = scope.now }) wanted (inner_lem (lexeme math.entry)) ps)) }
    ensures meant { IfOk result (λ e. IsFormula (record { env = state.now.env; table = state.now.notations; scope = scope.now }) wanted (inner_lem (lexeme math.entry)) (tree e)) }
{
    match parse_formula(
        alloc,
        &state.notations,
        &state.env,
        scope,
        inner(math),
        wanted,
    ) {
        Parsed::Tree(expr) => Ok(expr),
        Parsed::Refused { at, rule } => Err(Halt::Fault(Fault {
            at: place_in(math, at, rule),
            rule,
        })),
        Parsed::Mem => Err(Halt::Mem),
    }
}

/// Adds the hypotheses that a formula makes.
fn push_hyp<'a>(
    state: &State<'a>,
    alloc: Global,
    scope: &Scope,
    hyps: &mut Hyps,
    hyp: &Stated<'a>,
) -> Result<(), Halt>
    requires small { EndsSmall (stated_lem hyp.now).math }
    ensures judged { (ps : List MathToken) → MathTokens state.now.notations.delimiters (inner_lem (stated_lem hyp.now).math) ps
        → JudgesOrMem result (retold (told_lem (stated_lem hyp.now).math) (formula_checks (record { env = state.now.env; table = state.now.notations; scope = scope.now }) provable (inner_lem (stated_lem hyp.now).math) ps)) }
    ensures meant { OnOk result ((e : Tree) × IsFormula (record { env = state.now.env; table = state.now.notations; scope = scope.now }) provable (inner_lem (stated_lem hyp.now).math) e
        × (hyps.new ≡ followed_by hyps.old (copies (stated_lem hyp.now).times e))) }
{
    let expr = formula(state, alloc, scope, hyp.math, Wanted::Provable)?;
    hyps.push(expr, hyp.times)?;
    Ok(())
}

/// The hypotheses that formulas make.
pub fn hyps_of<'a>(
    state: &State<'a>,
    alloc: Global,
    scope: &Scope,
    stated: &[Stated<'a>],
) -> Result<Hyps, Halt>
    requires small { Every (λ h. EndsSmall h.math) (map stated_lem stated.now) }
    ensures judged { (vs : List Variable) → scope.now ≡ scope_of (state_lem state.now) vs
        → (tokens : List (List MathToken)) → AreTokens (state_lem state.now) (map stated_claim (map stated_lem stated.now)) tokens
        → JudgesOrMem result (strings_checks (state_lem state.now) vs (map stated_claim (map stated_lem stated.now)) tokens) }
    ensures meant { IfOk result (λ hyps. (vs : List Variable) → scope.now ≡ scope_of (state_lem state.now) vs → AreHyps (state_lem state.now) vs (map stated_lem stated.now) hyps) }
{
    let mut hyps = Hyps::new(alloc);
    for hyp in stated {
        push_hyp(state, alloc, scope, &mut hyps, hyp)?;
    }
    Ok(hyps)
}

/// Whether the result's dependencies admit the free variables of the body: it depends on each of them.
///
/// # Errors
///
/// Where there is no memory.
pub fn admits_free_variables<'a>(
    state: &State<'a>,
    alloc: Global,
    scope: &Scope,
    body: &Expr,
    deps: &Deps,
) -> Result<bool, AllocError>
    requires sorted { (s : ℕ) × HasSort (signatures state.now.env) scope.now.binders (tree body.now) s }
    ensures { IfOk result (λ has. IsTrue has ↔ ((x : ℕ) → InFV (signatures state.now.env) scope.now.binders x (tree body.now) → Contains deps.now x)) }
{
    free_vars_are_among(alloc, &state.env, &Context::of(scope.binders()), body, deps)
}
