// A law on the definitions: the contract of the function is one, and its body is empty.
ghost use Rattle.mz_tool.specs.Laws.{SamplesAreAccepted};

/// Each sample's text can be compiled, and its specification declares what agrees with it.
pub fn samples_are_accepted()
    ensures { SamplesAreAccepted }
{}
