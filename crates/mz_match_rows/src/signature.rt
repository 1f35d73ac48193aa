// The words of a row beside a declaration's parameters and result.
ghost use Rattle.std.specs.Prelude.{◌≡◌, ◌<◌, ◌≤◌, ◌↔◌, ◌++◌, ◌∷◌, [], IsTrue, if◌then◌else◌, length, true};
ghost use Rattle.mz_base.specs.Checks.{Judges};
ghost use Rattle.mz_logic_theory.specs.Words.{binder_of, binders_of, bound_places, places_set, result_of, signature_of, word_bound};
ghost use Rattle.mz_layout_tables.specs.Rows.{IsRow, params_of};
ghost use Rattle.mz_layout_tables.specs.Tables.{term_count, term_row};
ghost use Rattle.mz_layout_tables.specs.RowWords.{bound_count};
ghost use Rattle.mz_spec_proved_theory.specs.Match.{signature_checks};

use arrayvec::ArrayVec;
use mz_layout_tables::{Mmb, Row};
use mz_logic_theory::{Binder, ResultType, Terms, Word};
use mz_spec_proved_theory::M;

/// The places of bound parameters, of which a row has at most 55.
type Places = ArrayVec<u32, 55>;

/// Compares parameters and a result with those that a term's row says, word by word.
///
/// # Errors
///
/// The first rule that fails.
pub fn match_signature(params: &[Binder], ty: &ResultType, mmb: &Mmb, row: u32) -> Result<(), M>
    requires row { row < term_count mmb.now }
    requires few { bound_count (term_row mmb.now row).words.params ≤ 55 }
    ensures { Judges result (signature_checks (record { params = params.now; result = ty.now }) (signature_of (term_row mmb.now row).words)) }
{
    let mut places = Places::new();
    if !has_params(params, mmb, Row::Term(row), &mut places) {
        return Err(M::Binders);
    }
    if !has_result(ty, mmb, row, places.as_slice()) {
        return Err(M::Result);
    }
    Ok(())
}

/// Whether the row says these parameters.
pub fn match_params(params: &[Binder], mmb: &Mmb, row: Row) -> bool
    requires row { IsRow mmb.now row }
    requires few { bound_count (params_of mmb.now row) ≤ 55 }
    ensures { IsTrue result ↔ (params.now ≡ binders_of (params_of mmb.now row)) }
{
    let mut places = Places::new();
    has_params(params, mmb, row, &mut places)
}

/// Whether the row says these parameters. Then it leaves the places of the bound ones.
fn has_params(params: &[Binder], mmb: &Mmb, row: Row, places: &mut Places) -> bool
    requires row { IsRow mmb.now row }
    requires few { bound_count (params_of mmb.now row) ≤ 55 }
    requires empty { places.old.items ≡ [] }
    ensures same { IsTrue result ↔ (params.now ≡ binders_of (params_of mmb.now row)) }
    ensures places { IsTrue result → places.new.items ≡ bound_places 0 (params_of mmb.now row) }
{
    let arity = row.arity(mmb);
    if params.len() != arity as usize {
        return false;
    }
    for i in 0..arity {
        let word = row.param(mmb, i);
        if !is_binder(&params[i as usize], word, places.as_slice()) {
            return false;
        }
        push_bound(places, word, i);
    }
    true
}

/// One place more, where the word says a bound variable.
fn push_bound(places: &mut Places, word: Word, place: u32)
    requires { word_bound word ≡ true → length places.old.items < 55 }
    ensures { places.new.items ≡ (if word_bound word then places.old.items ++ place ∷ [] else places.old.items) }
{
    if word.bound() {
        places.push(place);
    }
}

/// Whether the word says the binder, where the bound parameters before it have these places.
fn is_binder(binder: &Binder, word: Word, places: &[u32]) -> bool
    ensures { IsTrue result ↔ (binder.now ≡ binder_of places.now word) }
{
    let deps = binder.deps.as_slice();
    if binder.sort != word.sort() || binder.bound != word.bound() {
        return false;
    }
    if word.bound() {
        deps.is_empty()
    } else {
        are_deps(deps, word.deps(), places)
    }
}

/// Whether the row says this result, where the bound parameters have these places.
fn has_result(ty: &ResultType, mmb: &Mmb, row: u32, places: &[u32]) -> bool
    requires row { row < term_count mmb.now }
    requires places { places.now ≡ bound_places 0 (term_row mmb.now row).words.params }
    ensures { IsTrue result ↔ (ty.now ≡ result_of (term_row mmb.now row).words) }
{
    let word = mmb.result(row);
    ty.sort == word.sort() && are_deps(ty.deps.as_slice(), word.deps(), places)
}

/// Whether these are the places whose bit is set.
fn are_deps(deps: &[u32], bits: u64, places: &[u32]) -> bool
    ensures { IsTrue result ↔ (deps.now ≡ places_set bits places.now) }
{
    let mut found = 0;
    let mut bits = bits;
    for place in places {
        if bits % 2 == 1 {
            if found == deps.len() || deps[found] != *place {
                return false;
            }
            found += 1;
        }
        bits /= 2;
    }
    found == deps.len()
}
