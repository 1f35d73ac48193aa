// Laws of the rows of statements.
ghost use Rattle.mz_binary_theory.specs.Laws.{GoodStatementsHaveRows};

/// The row of a good statement is there, its words are right, and it says what the statement declares.
pub fn good_statements_have_rows()
    ensures { GoodStatementsHaveRows }
{}
