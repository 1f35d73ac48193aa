//! What is kept of an expression.
ghost use Rattle.std.specs.Prelude.{◌≡◌, ◌<◌, ◌^◌, IfOk, IsOk};

use std::alloc::AllocError;

/// An expression of a body: the word of all its variables, the word of those that are reported, its sort,
/// and what it is made of. Fields lie in this order: the words first leave no gap.
#[derive(Clone, Copy)]
pub struct Node {
    pub vars: u64,
    pub deps: u64,
    pub sort: u32,
    pub form: Form,
}

const _: () = prove!(size_of::<Node>() == 40);

/// A variable, bound or regular; or what a command made.
#[derive(Clone, Copy)]
pub enum Form {
    Variable(bool),
    Application(Application),
}

/// What the command with this number made: a term over earlier expressions, so many ids of the list of
/// operands from one place on.
#[derive(Clone, Copy)]
pub struct Application {
    pub number: u32,
    pub head: u32,
    pub from: u32,
    pub many: u32,
}

/// A place or a count in four bytes.
///
/// # Errors
///
/// Where it is too large: there is no memory for so many operands.
pub fn four_bytes(n: usize) -> Result<u32, AllocError>
    ensures number { IfOk result (λ k. k ≡ n) }
    ensures few { n < 2 ^ 32 → IsOk result }
{
    let Ok(k) = u32::try_from(n) else {
        return Err(AllocError);
    };
    Ok(k)
}
