// Laws on the definitions: the contract of each function is one, and its body is empty.
ghost use Rattle.mz_trace.specs.Laws.{BodiesMakeOne, BodiesMakeProofs, MadeProofsProve};

/// A theorem's body that runs makes a proof, and no two.
pub fn bodies_make_proofs()
    ensures some { BodiesMakeProofs }
    ensures one { BodiesMakeOne }
{}

/// The proof proves what the theorem's row spells, without gaps.
pub fn made_proofs_prove()
    ensures { MadeProofsProve }
{}
