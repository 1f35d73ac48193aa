// Laws of pairs of files.
ghost use Rattle.std.specs.Prelude.{◌≡◌, ◌⊎◌, ◌↔◌, ℕ, false, List, [], Some, slice_get, take};
ghost use Rattle.std.specs.List.{All};
ghost use Rattle.mz_logic_theory.specs.Tree.{none};
ghost use Rattle.mz_logic_theory.specs.Declaration.{Assertion, Declaration, assertion_decl};
ghost use Rattle.mz_logic_theory.specs.Closed.{IsClosed};
ghost use Rattle.mz_logic_theory.specs.LegalLists.{Statement, Legal};
ghost use Rattle.mz_spec_theory.specs.Spec.{SpecOf};
ghost use Rattle.mz_match_theory.specs.declared.verdict.Counts.{Counts};
ghost use Rattle.mz_match_theory.specs.declared.verdict.Verdict.{Verdict};
ghost use Rattle.mz_spec_proved_theory.specs.declared.kind.Kind.TheVariants as kinds;
ghost use Rattle.mz_spec_proved_theory.specs.ByItself.{BarsDummies, IsConcrete};
ghost use Rattle.mz_spec_proved_theory.specs.Headline.{Proves};
ghost use Rattle.mz_spec_proved_theory.specs.Match.{kind_of, publics, Agrees};
ghost use Rattle.mz_spec_proved_theory.specs.Proved.{Follows};
ghost use Rattle.mz_binary_theory.specs.Gapped.{NoneIsGapped};
ghost use Rattle.mz_binary_theory.specs.Standards.{draft_standard};
ghost use Rattle.mz_match_theory.specs.Verdict.{Accepts, AcceptsBy, AcceptsWith, AcceptsWithBy, FirstRefusal, FirstRefusalBy, IsSound, counts_of};

/// Each specification and binary are accepted, with one number of declarations of each kind, or have
/// exactly one first refusal, and never both.
pub fn each_pair_has_one_verdict()
    ensures either { (spec bin : List ℕ) → ((counts : Counts) × AcceptsWith spec bin counts) ⊎ ((verdict : Verdict) × FirstRefusal spec bin verdict) }
    ensures not_both { (spec bin : List ℕ) (counts : Counts) (verdict : Verdict) → AcceptsWith spec bin counts → FirstRefusal spec bin verdict → ⊥ }
    ensures one_count { (spec bin : List ℕ) (counts other : Counts) → AcceptsWith spec bin counts → AcceptsWith spec bin other → counts ≡ other }
    ensures one_refusal { (spec bin : List ℕ) (verdict other : Verdict) → FirstRefusal spec bin verdict → FirstRefusal spec bin other → verdict ≡ other }
{}

/// And so of drafts, whose proofs may have gaps.
pub fn each_pair_has_one_draft_verdict()
    ensures either { (spec bin : List ℕ) → ((counts : Counts) × AcceptsWithBy draft_standard spec bin counts) ⊎ ((verdict : Verdict) × FirstRefusalBy draft_standard spec bin verdict) }
    ensures not_both { (spec bin : List ℕ) (counts : Counts) (verdict : Verdict) → AcceptsWithBy draft_standard spec bin counts → FirstRefusalBy draft_standard spec bin verdict → ⊥ }
    ensures one_count { (spec bin : List ℕ) (counts other : Counts) → AcceptsWithBy draft_standard spec bin counts → AcceptsWithBy draft_standard spec bin other → counts ≡ other }
    ensures one_refusal { (spec bin : List ℕ) (verdict other : Verdict) → FirstRefusalBy draft_standard spec bin verdict → FirstRefusalBy draft_standard spec bin other → verdict ≡ other }
{}

/// A pair is accepted, with these counts, exactly where it is accepted with them as a draft none of
/// whose theorems is gapped, local ones among them.
pub fn finished_drafts_are_accepted()
    ensures { (spec bin : List ℕ) (counts : Counts) → AcceptsWith spec bin counts ↔ ((draft : AcceptsBy draft_standard spec bin) × (counts ≡ counts_of draft.declared) × NoneIsGapped bin draft.statements) }
{}

/// What the definitions accept is sound, whatever program decides it: each theorem of the
/// specification is proved by the binary's statements, which are a legal list.
pub fn accepted_pairs_are_sound()
    ensures { (spec bin : List ℕ) → Accepts spec bin → IsSound spec bin }
{}

/// Where a binary is accepted, the specification is proved, which says nothing of the binary. Each theorem of a specification that
/// is proved follows from the axioms declared before it. By the rules that are checked it is proved in just the same cases. A
/// theorem without hypotheses is, only where an axiom is declared before it. Where, before a
/// theorem, each sort is strict or free and each definition has its body in the specification, the theorem follows from the
/// specification's own declarations alone: no definition of a binary is needed.
pub fn accepted_pairs_prove()
    ensures accepted { (spec bin : List ℕ) → Accepts spec bin → Proves spec }
    ensures follows { (spec : List ℕ) (p : Proves spec) (i : ℕ) (a : Assertion) → slice_get p.declared i ≡ Some (assertion_decl a) → a.is_axiom ≡ false
        → Follows p.declared p.statements i a }
    ensures checked { (spec : List ℕ) (ds : List Declaration) → SpecOf spec ds → Proves spec ↔ ((ss : List Statement) × Legal ss × All (λ s. IsConcrete s.decl) ss × Agrees ds (publics ss)) }
    ensures grounded { (spec : List ℕ) (p : Proves spec) (i : ℕ) (a : Assertion) → slice_get p.declared i ≡ Some (assertion_decl a) → a.is_axiom ≡ false → a.hyps ≡ none
        → (k : ℕ) × (d : Declaration) × (slice_get (take i p.declared) k ≡ Some d) × (kind_of d ≡ kinds.Axiom) }
    ensures itself { (spec : List ℕ) (p : Proves spec) (i : ℕ) (a : Assertion) → slice_get p.declared i ≡ Some (assertion_decl a) → a.is_axiom ≡ false
        → All IsConcrete (take i p.declared) → BarsDummies (take i p.declared) → IsClosed (take i p.declared) a }
{}
