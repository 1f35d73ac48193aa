// Laws on the definitions: the contract of each function is one, and its body is empty.
ghost use Rattle.mz_emit_theory.specs.LawsByIdentity.{WrittenFilesAreAcceptedByIdentity, WrittenFilesAreGoodByIdentity};

/// A finished legal text that is written within the format's bounds is a good binary by identity.
pub fn written_files_are_good_by_identity()
    ensures { WrittenFilesAreGoodByIdentity }
{}

/// It is accepted by identity against each specification with which the text's public statements agree.
pub fn written_files_are_accepted_by_identity()
    ensures { WrittenFilesAreAcceptedByIdentity }
{}
