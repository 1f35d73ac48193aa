// Laws on the definitions: the contract of each function is one, and its body is empty.
ghost use Rattle.mz_prefix.specs.PublicLaws.{PublicPartsAreLegal};

/// The public part of a legal list is legal, if no claim mentions a local definition and each body that mentions one is
/// hidden.
pub fn public_parts_are_legal()
    ensures { PublicPartsAreLegal }
{}
