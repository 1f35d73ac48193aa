// A law on the definitions: the function's contract is the law, and its body is empty.
ghost use Rattle.mz_decompile_text.specs.Accepted.{NamedStatementsName};

/// Statements that declare what a list's do, under names one by one, have the naming of the list under these names.
pub fn named_statements_name()
    ensures { NamedStatementsName }
{}
