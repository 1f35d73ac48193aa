// Laws on the definitions: the contract of each function is one, and its body is empty.
ghost use Rattle.mz_emit_theory.specs.PortableLaws.{AssertionsRunByIdentity, DefinitionsRunByIdentity, SharedAtFirst, SharedBodiesRunByIdentity, SharedTextsShare, SharedWithTerm, WrittenDefinitionsShare};

/// A body that is shared runs by identity, over rows whose definitions' streams save no application before
/// its dummies are met: where it runs by the standard machine, and where its steps have made what its row
/// spells. Shared are bodies that build no application twice, with each Unfold's middle item, and without
/// ConvRef.
pub fn shared_runs_are_portable_runs()
    ensures { SharedBodiesRunByIdentity }
{}

/// So do the bodies of statements whose texts and bodies share, as those of a compiled file do; and the
/// table shares after each definition.
pub fn shared_statements_run_by_identity()
    ensures assertions { AssertionsRunByIdentity }
    ensures definitions { DefinitionsRunByIdentity }
{}

/// Rows whose streams share: what shares a definition's text is a stream of one, so what is written is, and
/// a table grows by such rows.
pub fn shared_rows_grow()
    ensures texts { SharedTextsShare }
    ensures written { WrittenDefinitionsShare }
    ensures at_first { SharedAtFirst }
    ensures terms { SharedWithTerm }
{}
