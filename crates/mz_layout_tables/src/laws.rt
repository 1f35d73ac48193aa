// Laws of the layout.
ghost use Rattle.std.specs.Prelude.{◌≡◌, ◌⊎◌, ℕ, List};
ghost use Rattle.mz_base.specs.Checks.{FailsFirst};
ghost use Rattle.mz_cmd.specs.declared.rule.K.{K};
ghost use Rattle.mz_layout_tables.specs.Layout.{Layout, layout_checks};
ghost use Rattle.mz_layout_tables.specs.Normal.{Parts, file_of};
ghost use Rattle.mz_layout_tables.specs.Standing.{Fit};
ghost use Rattle.mz_layout_tables.specs.NormalLaws.{PartsAreCounted, SortsAreRead, TermsAreRead, ThmsAreRead, TermStreamsStand, ThmStreamsStand, StatementsAreListed, StandingIsRead, LengthIsBounded};

/// Each file has a layout or exactly one first fault.
pub fn each_file_has_one_layout()
    ensures one { (file : List ℕ) → Layout file ⊎ ((fault : ℕ × K) × FailsFirst (layout_checks file) fault) }
    ensures not_both { (file : List ℕ) (fault : ℕ × K) → Layout file → FailsFirst (layout_checks file) fault → ⊥ }
    ensures only { (file : List ℕ) (fault other : ℕ × K) → FailsFirst (layout_checks file) fault → FailsFirst (layout_checks file) other → fault ≡ other }
{}

/// What is written in the normal layout has a layout, and each part is read as it was written.
pub fn normal_layout_is_read_back()
    ensures layout { (p : Parts) → Fit p → Layout (file_of p) }
    ensures counted { PartsAreCounted }
    ensures sorts { SortsAreRead }
    ensures terms { TermsAreRead }
    ensures thms { ThmsAreRead }
    ensures term_streams { TermStreamsStand }
    ensures thm_streams { ThmStreamsStand }
    ensures listed { StatementsAreListed }
    ensures standing { StandingIsRead }
{}

/// A file in the normal layout is at most as long as its parts cost.
pub fn normal_layout_is_short()
    ensures { LengthIsBounded }
{}
