//! What follows from the definitions. Each function does nothing; its contract is the law.
ghost use Rattle.mz_store.specs.Laws.{OldIdsKeepTrees, OldListsKeepTrees, WordsMeet};

/// Where a store keeps its ids, as under `dummy` and `app`, old ids keep their trees.
pub fn old_ids_keep_their_trees()
    ensures ids { OldIdsKeepTrees }
    ensures lists { OldListsKeepTrees }
{}

/// A bound variable's word and an expression's share a bit exactly where the variable is among
/// those that the words name of the expression.
pub fn words_meet()
    ensures { WordsMeet }
{}
