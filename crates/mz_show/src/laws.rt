// Laws of listings.
ghost use Rattle.std.specs.Prelude.{◌≡◌, ℕ, List};
ghost use Rattle.mz_cmd.specs.declared.rule.Refusal.{Refusal};
ghost use Rattle.mz_show.specs.Listing.{IsListed, IsListedUpTo, IsListing};

/// Each file has either one listing or one first refusal, with one text.
pub fn each_file_has_one_listing()
    ensures some { (file : List ℕ) → (text : List ℕ) × IsListed file text }
    ensures one_text { (file text other : List ℕ) → IsListed file text → IsListed file other → text ≡ other }
    ensures one_refusal { (file text other : List ℕ) (refusal second : Refusal) → IsListedUpTo file text refusal → IsListedUpTo file other second → refusal ≡ second }
    ensures not_both { (file text other : List ℕ) (refusal : Refusal) → IsListing file text → IsListedUpTo file other refusal → ⊥ }
{}
