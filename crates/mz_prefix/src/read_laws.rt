// Laws on the definitions: the contract of each function is one, and its body is empty.
ghost use Rattle.mz_prefix.specs.ReadLaws.{PrintedSpecificationsDeclare};

/// Legal declarations with names, printed line by line, are a specification that declares them.
pub fn printed_specifications_declare()
    ensures { PrintedSpecificationsDeclare }
{}
