//! Ids of expressions, and what is made of them.
ghost use Rattle.std.specs.Prelude.{◌≡◌, ◌<◌, ◌^◌, IfOk, IsOk};

use std::alloc::AllocError;

/// The number of an expression of a store. There is no place for 2^32 of them, as there may be no
/// memory for fewer.
#[derive(Clone, Copy, PartialEq, Eq, Hash, Debug)]
pub struct Id(pub u32);

impl Id {
    /// The id of the expression at this place.
    ///
    /// # Errors
    ///
    /// Where there is no such id: there is no memory for so many expressions.
    #[inline(always)]
    pub fn at(place: usize) -> Result<Id, AllocError>
        ensures number { IfOk result (λ id. id.0 ≡ place) }
        ensures few { place < 2 ^ 32 → IsOk result }
    {
        Ok(Id(number(place)?))
    }
}

/// The place as a number of four bytes.
///
/// # Errors
///
/// Where it has none.
#[inline(always)]
pub(crate) fn number(place: usize) -> Result<u32, AllocError>
    ensures number { IfOk result (λ n. n ≡ place) }
    ensures few { place < 2 ^ 32 → IsOk result }
{
    let Ok(n) = u32::try_from(place) else {
        return Err(AllocError);
    };
    Ok(n)
}

/// What stands on the stack or in the heap of the proof machine.
#[derive(Clone, Copy, PartialEq, Eq, Debug)]
pub enum Item {
    /// An expression.
    Expr(Id),
    /// A proof of an expression.
    Proof(Id),
    /// Two expressions that are still to be shown convertible.
    Obligation(Id, Id),
    /// Two expressions that are convertible.
    Conversion(Id, Id),
}

/// Which variables a store's words name.
#[derive(Clone, Copy, PartialEq, Eq, Debug)]
pub enum DepsMode {
    /// All variables of the expression.
    All,
    /// The free ones.
    Free,
}
