// Laws on the definitions: the contract of each function is one, and its body is empty.
ghost use Rattle.std.specs.Prelude.{◌≡◌, ◌⊎◌, ℕ, List};
ghost use Rattle.mz_match_theory.specs.declared.verdict.Counts.{Counts};
ghost use Rattle.mz_match_theory.specs.declared.verdict.Verdict.{Verdict};
ghost use Rattle.mz_match_theory.specs.Verdict.{AcceptsWith, IsSound};
ghost use Rattle.mz_portable.specs.Portable.{FirstPortableRefusal, PortablyAccepts};

/// Each specification and binary are accepted by identity, with one number of declarations of each kind, or
/// have exactly one first refusal, and never both.
pub fn each_pair_has_one_verdict_by_identity()
    ensures either { (spec bin : List ℕ) → ((counts : Counts) × PortablyAccepts spec bin counts) ⊎ ((verdict : Verdict) × FirstPortableRefusal spec bin verdict) }
    ensures not_both { (spec bin : List ℕ) (counts : Counts) (verdict : Verdict) → PortablyAccepts spec bin counts → FirstPortableRefusal spec bin verdict → ⊥ }
    ensures one_count { (spec bin : List ℕ) (counts other : Counts) → PortablyAccepts spec bin counts → PortablyAccepts spec bin other → counts ≡ other }
    ensures one_refusal { (spec bin : List ℕ) (verdict other : Verdict) → FirstPortableRefusal spec bin verdict → FirstPortableRefusal spec bin other → verdict ≡ other }
{}

/// What is accepted by identity is accepted by the standard machine, and so sound: each theorem of the
/// specification is proved by the binary's statements, which are a legal list.
pub fn portable_pairs_are_accepted()
    ensures accepted { (spec bin : List ℕ) (counts : Counts) → PortablyAccepts spec bin counts → AcceptsWith spec bin counts }
    ensures sound { (spec bin : List ℕ) (counts : Counts) → PortablyAccepts spec bin counts → IsSound spec bin }
{}
