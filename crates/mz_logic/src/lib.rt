//! The logic of Metamath Zero, checked, and its laws: whether a declaration is legal, its sorts and variables.
//!
//! `check_decl` says whether a declaration is legal over an environment, or the first rule that fails. `sort_of`
//! gives an expression's sort. `are_disjoint` says whether arguments are disjoint where their parameters ask for it.
//! Each answer is exact.
//!
//! The definitions are those of `mz_logic_theory`, whose types are shown here too. Each law is a function with an
//! empty body: `src/laws.rt` has those of all declarations (sorts are unique, instances keep them, what is derived is
//! provable, legal lists are closed), `src/examples.rt` declarations that are legal, and near misses that aren't.
//!
//! The type rules of proof texts stand on this crate; binaries are checked over shared expressions instead. Start
//! with `src/check.rt`.
#![tactic(auto)]

mod apart;
mod check;
mod disjoint;
mod examples;
mod laws;
mod sorts;
mod vars;

pub use apart::are_disjoint;
pub use check::{
    are_bound_before, check_decl, may_be_bound_sort, may_be_dummy_sort, may_be_result_sort,
};
pub use disjoint::are_disjoint_by_pairs;
pub use examples::{
    citations_are_disjoint, conversions_are_sorted, definition_unfolds, dependencies_come_before,
    disjoint_in_any_order, dummies_are_not_free, four_statements_are_legal, gaps_prove_nothing,
    implication_is_derived, no_theorem_cites_itself, operands_are_disjoint,
    results_free_their_operands, unfoldings_are_fresh,
};
pub use laws::{
    conversions_keep_sorts, derived_is_provable, instances_have_what_is_put_in,
    instances_keep_sorts, instances_stay_disjoint, legal_declarations_are_sorted,
    legal_lists_are_closed, legal_lists_are_legal_envs, longer_ones_keep, sorts_are_unique,
    words_are_read_back, words_say_binders,
};
pub use mz_logic_theory::{
    Binder, Binders, Context, Decl, DeclFault, Deps, Env, Expr, ExprKind, ExprRef, Exprs, Hyps,
    Operands, ResultType, Shape, SortMods, TermDecl, TermForm, TermPath, Terms, ThmDecl, ThmForm,
    Word, is_bound_at, push_tightly,
};
pub use sorts::{
    borrowed_is_bound_var, borrowed_sort_of, is_bound_var, is_claim, sort_of, sort_of_term,
};
pub use vars::{in_all_vars, in_free_vars};
