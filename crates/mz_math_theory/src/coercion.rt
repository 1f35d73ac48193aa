// One coercion.

/// A term of one parameter that turns expressions of a sort into those of another by itself.
#[derive(Clone, Copy)]
pub struct Coercion {
    pub term: u32,
    pub from: u32,
    pub to: u32,
}
