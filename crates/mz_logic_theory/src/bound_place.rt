ghost use Rattle.std.specs.Prelude.{◌↔◌, IsTrue, false};
ghost use Rattle.mz_logic_theory.specs.Variables.{IsBoundAt};

use crate::binder::Binder;

/// Whether a bound parameter stands at the place.
pub fn is_bound_at(params: &[Binder], place: usize) -> bool
    ensures { IsTrue result ↔ IsBoundAt params.now place }
{
    match params.get(place) {
        None => false,
        Some(param) => param.bound,
    }
}
