// The words of a row in order.
ghost use Rattle.std.specs.Prelude.{◌≡◌, ◌≤◌, ◌<◌, IfOk};
ghost use Rattle.mz_base.specs.Checks.{Judges};
ghost use Rattle.mz_layout_tables.specs.Rows.{IsRow, params_of, words_at_of};
ghost use Rattle.mz_layout_tables.specs.Tables.{sort_count, term_count, term_row, thm_count, thm_row};
ghost use Rattle.mz_layout_tables.specs.RowWords.{bound_count, first_sorts, param_checks, word_checks};

use crate::checks::Fault;
use crate::mmb::Mmb;
use crate::row::Row;
use crate::word::{is_param, is_result};
use mz_cmd::K;
use mz_logic_theory::Terms;

/// The words of a term's row in order, where the first `sorts` sorts are declared. Fails with the place of the first
/// word that isn't right, and K8 of a parameter's or K9 of the result's.
pub fn check_term_words(mmb: &Mmb, sorts: u32, term: u32) -> Result<(), Fault>
    requires sorts { sorts ≤ sort_count mmb.now }
    requires row { term < term_count mmb.now }
    ensures { Judges result (word_checks (first_sorts mmb.now sorts) (term_row mmb.now term)) }
{
    let bound = check_params(mmb, sorts, Row::Term(term))?;
    if is_result(mmb, sorts, term, bound) {
        Ok(())
    } else {
        Err((mmb.term_word_at(term, mmb.arity(term)), K::Result))
    }
}

/// The words of the row of an axiom or a theorem, where the first `sorts` sorts are declared. Fails with the place of
/// the first parameter's word that isn't right, and K8.
pub fn check_thm_words(mmb: &Mmb, sorts: u32, thm: u32) -> Result<(), Fault>
    requires sorts { sorts ≤ sort_count mmb.now }
    requires row { thm < thm_count mmb.now }
    ensures { Judges result (param_checks (first_sorts mmb.now sorts) (thm_row mmb.now thm).words_at (thm_row mmb.now thm).params) }
{
    check_params(mmb, sorts, Row::Thm(thm))?;
    Ok(())
}

/// The words of the parameters in order, and how many of them are bound.
fn check_params(mmb: &Mmb, sorts: u32, row: Row) -> Result<u32, Fault>
    requires sorts { sorts ≤ sort_count mmb.now }
    requires row { IsRow mmb.now row }
    ensures judged { Judges result (param_checks (first_sorts mmb.now sorts) (words_at_of mmb.now row) (params_of mmb.now row)) }
    ensures bound { IfOk result (λ bound. (bound ≡ bound_count (params_of mmb.now row)) × (bound ≤ 55)) }
{
    let mut bound = 0;
    for i in 0..row.arity(mmb) {
        let word = row.param(mmb, i);
        if !is_param(mmb, sorts, bound, word) {
            return Err((row.param_at(mmb, i), K::Binder));
        }
        if word.bound() {
            bound += 1;
        }
    }
    Ok(bound)
}
