//! The words of parameters, checked once where rows share them.
ghost use Rattle.std.specs.Prelude.{◌≡◌, ◌≤◌, ◌<◌, IsTrue};
ghost use Rattle.mz_base.specs.Checks.{Judges};
ghost use Rattle.mz_layout_tables.specs.Tables.{sort_count, thm_count, thm_row};
ghost use Rattle.mz_layout_tables.specs.RowWords.{first_sorts, param_checks};
ghost use Rattle.mz_binary.specs.Remembering.{AreRight};

use mz_layout_tables::{Fault, Mmb, check_thm_words};

/// Parameters whose words are right: so many, of which the first word stands at a place of the file, where
/// so many sorts are declared.
#[derive(Clone, Copy)]
pub struct RightWords {
    sorts: u32,
    at: u32,
    params: u32,
}

impl RightWords {
    fn are(self, sorts: u32, at: u32, params: u32) -> bool
        ensures { IsTrue result → (self.sorts ≡ sorts) × (self.at ≡ at) × (self.params ≡ params) }
    {
        self.at == at && self.params == params && self.sorts == sorts
    }
}

/// The words of the row of an axiom or a theorem, as `check_thm_words` checks them, unless they are those
/// that were right last.
pub fn check_words_once(
    mmb: &Mmb,
    sorts: u32,
    thm: u32,
    last: &mut Option<RightWords>,
) -> Result<(), Fault>
    requires sorts { sorts ≤ sort_count mmb.now }
    requires row { thm < thm_count mmb.now }
    requires right { AreRight mmb.now last.old }
    ensures judged { Judges result (param_checks (first_sorts mmb.now sorts) (thm_row mmb.now thm).words_at (thm_row mmb.now thm).params) }
    ensures right { AreRight mmb.now last.new }
{
    let at = mmb.thm_words_at(thm);
    let params = mmb.thm_arity(thm);
    if let Some(right) = *last {
        if right.are(sorts, at, params) {
            return Ok(());
        }
    }
    check_thm_words(mmb, sorts, thm)?;
    *last = Some(RightWords { sorts, at, params });
    Ok(())
}
