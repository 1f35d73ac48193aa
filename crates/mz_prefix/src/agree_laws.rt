// Laws on the definitions: the contract of each function is one, and its body is empty.
ghost use Rattle.mz_prefix.specs.AgreeLaws.{SpecificationsOfTextsDeclare};

/// The specification that is written of a text declares what agrees with the text's public statements.
pub fn specifications_of_texts_declare()
    ensures { SpecificationsOfTextsDeclare }
{}
