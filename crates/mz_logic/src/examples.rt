//! Worked examples of the definitions. Each function does nothing; its contract is the example.
ghost use Rattle.mz_logic_theory.specs.NearMisses.{NotDisjointThoughLater, FreeByTheResult, BoundByTheTerm, CitesWhereItDepends, CitesNotDisjoint, UnfoldsWithFresh, UnfoldsWithOperand, UnfoldsWithOneForTwo, NoSortNoConversion, FreeDummy, CitesItself, GapConverts, GapIsIllegal, NothingFromNothing};
ghost use Rattle.mz_logic_theory.specs.Examples.{A1iDerives, A1iTurnedFails, FourAreLegal, LocalAxiomFails, NotDisjoint, DisjointWhereItDepends, NotDisjointThoughNotFree, MissingDependency, LaterDependency, NnUnfolds};

/// From `a` follows `b -> a`, by modus ponens and the first axiom; with the subproofs exchanged it
/// doesn't.
pub fn implication_is_derived()
    ensures holds { A1iDerives }
    ensures turned { A1iTurnedFails }
{}

/// A sort, a term, an axiom and a theorem are a legal list; with the axiom declared local they aren't.
pub fn four_statements_are_legal()
    ensures holds { FourAreLegal }
    ensures local { LocalAxiomFails }
{}

/// Operands are disjoint by all variables: one that depends on another asks that its parameter does
/// too, and a bound variable in it that isn't free counts.
pub fn operands_are_disjoint()
    ensures depends { DisjointWhereItDepends }
    ensures fails { NotDisjoint }
    ensures not_free { NotDisjointThoughNotFree }
{}

/// The first fault of a declaration: a dependency that is no variable is a missing name, and one
/// that is a later parameter is a wrong binder.
pub fn dependencies_come_before()
    ensures missing { MissingDependency }
    ensures later { LaterDependency }
{}

/// A definition unfolds to its body.
pub fn definition_unfolds()
    ensures { NnUnfolds }
{}

/// A bound operand counts also for a parameter that comes before its own.
pub fn disjoint_in_any_order()
    ensures { NotDisjointThoughLater }
{}

/// The operand of a bound parameter is free exactly where the result depends on it.
pub fn results_free_their_operands()
    ensures free { FreeByTheResult }
    ensures bound { BoundByTheTerm }
{}

/// A citation derives its instance where its operands are disjoint, and derives nothing where they
/// aren't.
pub fn citations_are_disjoint()
    ensures holds { CitesWhereItDepends }
    ensures fails { CitesNotDisjoint }
{}

/// The variables of an unfolding are fresh, and different from each other.
pub fn unfoldings_are_fresh()
    ensures holds { UnfoldsWithFresh }
    ensures operand { UnfoldsWithOperand }
    ensures twice { UnfoldsWithOneForTwo }
{}

/// Both sides of a conversion have a sort.
pub fn conversions_are_sorted()
    ensures { NoSortNoConversion }
{}

/// A dummy's sort isn't free.
pub fn dummies_are_not_free()
    ensures { FreeDummy }
{}

/// A theorem isn't proved by itself.
pub fn no_theorem_cites_itself()
    ensures { CitesItself }
{}

/// A gap leads from anything to anything, and no list is legal by one.
pub fn gaps_prove_nothing()
    ensures converts { GapConverts }
    ensures illegal { GapIsIllegal }
    ensures nothing { NothingFromNothing }
{}
