// Laws of drafts.
ghost use Rattle.std.specs.Prelude.{◌≡◌, ◌≢◌, ℕ, List};
ghost use Rattle.mz_match.specs.declared.draft.Draft.{Draft as TheDraft};
ghost use Rattle.mz_match.specs.declared.draft.Draft.TheVariants as drafts;
ghost use Rattle.mz_match.specs.Drafts.{DraftAccepts, IsDraft, IsDraftSoundBut};
ghost use Rattle.mz_match_theory.specs.declared.verdict.Counts.{Counts};

/// Each specification and binary have exactly one answer as a draft, the places of the gapped
/// theorems with it, out of memory aside.
pub fn each_pair_has_one_draft()
    ensures some { (spec bin : List ℕ) → (draft : TheDraft) × IsDraft spec bin draft × (draft ≢ drafts.Mem) }
    ensures one { (spec bin : List ℕ) (draft other : TheDraft) → IsDraft spec bin draft → draft ≢ drafts.Mem → IsDraft spec bin other → other ≢ drafts.Mem → draft ≡ other }
{}

/// A draft that is accepted is sound, but for the theorems at the places that are listed.
pub fn accepted_drafts_are_sound()
    ensures { (spec bin : List ℕ) (counts : Counts) (places : List ℕ) → DraftAccepts spec bin counts places → IsDraftSoundBut spec bin places }
{}
