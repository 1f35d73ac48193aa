//! What each command does: its premises in order, and what it leaves.
ghost use Rattle.std.specs.Prelude.{ℕ, ◌≡◌, ◌≤◌, ⊤, ◌+◌, ◌++◌, ◌∷◌, ◌⊎◌, [], List, Ok, Err, OnOk, IfOk, IfSome, IfNone, MatchResult, map, length};
ghost use Rattle.mz_cmd.specs.declared.rule.K.{K};
ghost use Rattle.mz_logic_theory.specs.Signature.{Signature};
ghost use Rattle.mz_pmachine_unify.specs.Numbering.{IsIn, AreIn, expr_of, IsOver};
ghost use Rattle.mz_pmachine_theory.specs.NodeIdentity.{Numbered, tree_of, portable};
ghost use Rattle.mz_machine_theory.specs.Streams.{UnifyCommand, u_term, u_term_save, u_ref, u_dummy, u_hyp, u_end};
ghost use Rattle.mz_machine_theory.specs.UnifyMachine.{UnifyMode as Mode, UnifyState, unify_step, is_fresh, next_hypothesis, nothing_left};
ghost use Rattle.mz_unify.specs.Stored.{mode_of, AreLeft};
ghost use Rattle.mz_unify.specs.Rows.{command_of, IsRow, StopsBy, TellsAny, with_targets};
ghost use Rattle.mz_pmachine_unify.specs.Stored.{exprs_at, stack_at, items_at, AreItemsIn};
ghost use Rattle.mz_pmachine_unify.specs.Rows.{state_at};

use crate::Nodes;
use mz_cmd::K;
use mz_store::{Id, Item};
use mz_unify::{Command, Stop, UnifyMode, heap_at, push, push_operands};

/// The word of the variables of all these, from which dummies are kept disjoint.
pub fn kept_disjoint(nodes: &Nodes, ids: &[Id]) -> u64
    requires ids { AreIn nodes.now ids.now }
    ensures { (sigs : List Signature) → IsOver sigs nodes.now → TellsAny nodes.now.context result (map tree_of (exprs_at nodes.now ids.now)) }
{
    let mut word = 0;
    for id in ids {
        word |= nodes.vars(*id);
    }
    word
}

/// Takes the top target.
fn take_top(nodes: &Nodes, targets: &mut Vec<Id>) -> Option<Id>
    requires { AreIn nodes.now targets.old.items }
    ensures ids { IfSome result (λ id. IsIn nodes.now id.0 × AreIn nodes.now targets.new.items) }
    ensures some { IfSome result (λ id. stack_at nodes.now targets.old.items ≡ expr_of nodes.now id.0 ∷ stack_at nodes.now targets.new.items) }
    // As ids too, for what is put there next.
    ensures items { IfSome result (λ id. targets.old.items ≡ targets.new.items ++ id ∷ []) }
    ensures none { IfNone result (stack_at nodes.now targets.old.items ≡ []) }
{
    targets.pop()
}

/// Takes an application of the term from the top, and puts its operands there.
fn open(nodes: &Nodes, term: u32, targets: &mut Vec<Id>) -> Result<Id, Stop>
    requires { AreIn nodes.now targets.old.items }
    ensures ids { IfOk result (λ id. IsIn nodes.now id.0 × AreIn nodes.now targets.new.items) }
    ensures plain { (sigs : List Signature) (mode : Mode) (st : UnifyState Numbered) → st.targets ≡ stack_at nodes.now targets.old.items → IsRow (unify_step portable sigs nodes.now.context mode (u_term term) st) result (λ _. with_targets st (stack_at nodes.now targets.new.items)) }
    ensures saved { (sigs : List Signature) (mode : Mode) (st : UnifyState Numbered) → st.targets ≡ stack_at nodes.now targets.old.items → IsRow (unify_step portable sigs nodes.now.context mode (u_term_save term) st) result (λ id. record (with_targets st (stack_at nodes.now targets.new.items)) { heap = st.heap ++ expr_of nodes.now id.0 ∷ []; apart = st.apart ++ expr_of nodes.now id.0 ∷ [] }) }
{
    let Some(top) = take_top(nodes, targets) else {
        return Err(Stop::Rule(K::UnifyRest));
    };
    if nodes.head(top) != Some(term) {
        return Err(Stop::Rule(K::UnifyTerm));
    }
    push_operands(targets, nodes.args(top))?;
    Ok(top)
}

/// Takes the top, which is what stands at a place of the heap.
fn refer(
    nodes: &Nodes,
    place: u32,
    operands: &[Id],
    saved: &[Id],
    targets: &mut Vec<Id>,
) -> Result<(), Stop>
    requires heap { AreIn nodes.now (operands.now ++ saved.now) }
    requires targets { AreIn nodes.now targets.old.items }
    ensures ids { OnOk result (AreIn nodes.now targets.new.items) }
    ensures row { (sigs : List Signature) (mode : Mode) (st : UnifyState Numbered) → st.heap ≡ exprs_at nodes.now (operands.now ++ saved.now) → st.targets ≡ stack_at nodes.now targets.old.items → IsRow (unify_step portable sigs nodes.now.context mode (u_ref place) st) result (λ _. with_targets st (stack_at nodes.now targets.new.items)) }
{
    let Some(top) = take_top(nodes, targets) else {
        return Err(Stop::Rule(K::UnifyRest));
    };
    let Some(met) = heap_at(operands, saved, place) else {
        return Err(Stop::Rule(K::UnifyReference));
    };
    if !nodes.same(met, top) {
        return Err(Stop::Rule(K::UnifyReference));
    }
    Ok(())
}

/// Whether the expression is a bound variable of the sort, in V of nothing whose variables the word names.
fn is_fresh(nodes: &Nodes, sort: u32, id: Id, apart: u64) -> bool
    requires { IsIn nodes.now id.0 }
    ensures { (sigs : List Signature) (es : List Numbered) → IsOver sigs nodes.now → TellsAny nodes.now.context apart (map tree_of es) → result ≡ is_fresh portable sigs nodes.now.context sort (expr_of nodes.now id.0) es }
{
    nodes.is_bound(id) && nodes.sort_of(id) == sort && nodes.vars(id) & apart == 0
}

/// Takes a fresh bound variable of the sort from the top.
fn dummy(nodes: &Nodes, sort: u32, targets: &mut Vec<Id>, apart: u64) -> Result<Id, Stop>
    requires { AreIn nodes.now targets.old.items }
    ensures ids { IfOk result (λ id. IsIn nodes.now id.0 × AreIn nodes.now targets.new.items) }
    ensures row { (sigs : List Signature) (mode : Mode) (st : UnifyState Numbered) → IsOver sigs nodes.now → TellsAny nodes.now.context apart (map tree_of st.apart) → st.targets ≡ stack_at nodes.now targets.old.items → IsRow (unify_step portable sigs nodes.now.context mode (u_dummy sort) st) result (λ id. record (with_targets st (stack_at nodes.now targets.new.items)) { heap = st.heap ++ expr_of nodes.now id.0 ∷ []; apart = st.apart ++ expr_of nodes.now id.0 ∷ [] }) }
{
    let Some(top) = take_top(nodes, targets) else {
        return Err(Stop::Rule(K::UnifyRest));
    };
    if !is_fresh(nodes, sort, top, apart) {
        return Err(Stop::Rule(K::UnifyDummy));
    }
    Ok(top)
}

/// The rule that asks for a hypothesis where none is left.
fn no_hypothesis(mode: UnifyMode) -> K
    ensures { next_hypothesis {T = Numbered} (mode_of mode) [] ≡ Err result }
{
    match mode {
        UnifyMode::Final => K::UnifyHypothesis,
        UnifyMode::Use | UnifyMode::Body => K::Underflow,
    }
}

/// Takes the next hypothesis, a proof.
fn take_hypothesis(nodes: &Nodes, mode: UnifyMode, hyps: &mut Vec<Item>) -> Result<Id, K>
    requires { AreItemsIn nodes.now hyps.old.items }
    ensures ids { IfOk result (λ id. IsIn nodes.now id.0 × AreItemsIn nodes.now hyps.new.items) }
    ensures left { OnOk result (AreLeft hyps.old.items hyps.new.items 1) }
    ensures next { MatchResult result (λ id. next_hypothesis (mode_of mode) (items_at nodes.now hyps.old.items) ≡ Ok (expr_of nodes.now id.0, items_at nodes.now hyps.new.items)) (λ rule. next_hypothesis (mode_of mode) (items_at nodes.now hyps.old.items) ≡ Err rule) }
{
    let Some(item) = hyps.pop() else {
        return Err(no_hypothesis(mode));
    };
    let Item::Proof(proved) = item else {
        return Err(K::Kind);
    };
    Ok(proved)
}

/// Makes the next hypothesis the target.
fn hypothesis(
    nodes: &Nodes,
    mode: UnifyMode,
    targets: &mut Vec<Id>,
    hyps: &mut Vec<Item>,
) -> Result<(), Stop>
    requires { AreItemsIn nodes.now hyps.old.items }
    ensures ids { OnOk result (AreIn nodes.now targets.new.items × AreItemsIn nodes.now hyps.new.items) }
    ensures left { OnOk result (AreLeft hyps.old.items hyps.new.items 1) }
    ensures row { (sigs : List Signature) (st : UnifyState Numbered) → st.targets ≡ stack_at nodes.now targets.old.items → st.items ≡ items_at nodes.now hyps.old.items → IsRow (unify_step portable sigs nodes.now.context (mode_of mode) u_hyp st) result (λ _. record (with_targets st (stack_at nodes.now targets.new.items)) { items = items_at nodes.now hyps.new.items }) }
{
    if !targets.is_empty() {
        return Err(Stop::Rule(K::UnifyRest));
    }
    match take_hypothesis(nodes, mode, hyps) {
        Ok(proved) => {
            push(targets, proved)?;
            Ok(())
        }
        Err(rule) => Err(Stop::Rule(rule)),
    }
}

/// Whether no hypothesis is left that must be taken.
fn nothing_left(nodes: &Nodes, mode: UnifyMode, hyps: &[Item]) -> bool
    ensures { result ≡ nothing_left (mode_of mode) (items_at nodes.now hyps.now) }
{
    match mode {
        UnifyMode::Final => hyps.is_empty(),
        UnifyMode::Use | UnifyMode::Body => true,
    }
}

/// Ends the stream: no targets are left, nor at an assertion's own end hypotheses.
fn end(nodes: &Nodes, mode: UnifyMode, targets: &[Id], hyps: &[Item]) -> Result<(), Stop>
    ensures { (sigs : List Signature) (st : UnifyState Numbered) → st.targets ≡ stack_at nodes.now targets.now → st.items ≡ items_at nodes.now hyps.now → IsRow (unify_step portable sigs nodes.now.context (mode_of mode) u_end st) result (λ _. st) }
{
    if !targets.is_empty() {
        return Err(Stop::Rule(K::UnifyRest));
    }
    if !nothing_left(nodes, mode, hyps) {
        return Err(Stop::Rule(K::UnifyRest));
    }
    Ok(())
}

/// Puts an expression at the end of the heap; dummies are then kept disjoint from it too, whether it was
/// saved or met for a dummy.
fn keep(nodes: &Nodes, id: Id, saved: &mut Vec<Id>, apart: &mut u64) -> Result<(), Stop>
    requires { IsIn nodes.now id.0 }
    ensures ok { OnOk result (saved.new.items ≡ saved.old.items ++ id ∷ []) }
    ensures told { (sigs : List Signature) (es : List Numbered) → IsOver sigs nodes.now → TellsAny nodes.now.context apart.old (map tree_of es) → OnOk result (TellsAny nodes.now.context apart.new (map tree_of (es ++ expr_of nodes.now id.0 ∷ []))) }
    ensures err { MatchResult result (λ _. ⊤) (λ stop. StopsBy stop (λ _. ⊥)) }
{
    push(saved, id)?;
    *apart |= nodes.vars(id);
    Ok(())
}

/// Executes a command.
pub(crate) fn step(
    nodes: &Nodes,
    mode: UnifyMode,
    command: Command,
    operands: &[Id],
    saved: &mut Vec<Id>,
    apart: &mut u64,
    targets: &mut Vec<Id>,
    hyps: &mut Vec<Item>,
) -> Result<(), Stop>
    requires heap { AreIn nodes.now (operands.now ++ saved.old.items) }
    requires targets { AreIn nodes.now targets.old.items }
    requires hyps { AreItemsIn nodes.now hyps.old.items }
    ensures ids { OnOk result (AreIn nodes.now (operands.now ++ saved.new.items) × AreIn nodes.now targets.new.items × AreItemsIn nodes.now hyps.new.items) }
    ensures left { OnOk result ((taken : ℕ) × (taken ≤ 1) × AreLeft hyps.old.items hyps.new.items taken) }
    ensures row { (sigs : List Signature) (es : List Numbered) → IsOver sigs nodes.now → TellsAny nodes.now.context apart.old (map tree_of es) → MatchResult result (λ _. (fs : List Numbered) × TellsAny nodes.now.context apart.new (map tree_of fs) × (unify_step portable sigs nodes.now.context (mode_of mode) (command_of command) (state_at nodes.now (operands.now ++ saved.old.items) es targets.old.items hyps.old.items) ≡ Ok (state_at nodes.now (operands.now ++ saved.new.items) fs targets.new.items hyps.new.items))) (λ stop. StopsBy stop (λ k. unify_step portable sigs nodes.now.context (mode_of mode) (command_of command) (state_at nodes.now (operands.now ++ saved.old.items) es targets.old.items hyps.old.items) ≡ Err k)) }
{
    match command {
        Command::Term(term) => {
            open(nodes, term, targets)?;
            Ok(())
        }
        Command::TermSave(term) => {
            let whole = open(nodes, term, targets)?;
            keep(nodes, whole, saved, apart)?;
            Ok(())
        }
        Command::Ref(place) => refer(nodes, place, operands, saved, targets),
        Command::Dummy(sort) => {
            let met = dummy(nodes, sort, targets, *apart)?;
            keep(nodes, met, saved, apart)
        }
        Command::Hyp => hypothesis(nodes, mode, targets, hyps),
        Command::End => end(nodes, mode, targets, hyps),
    }
}
