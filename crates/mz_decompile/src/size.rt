/// A statement that is reported: the number of its phrase, and its weight, or the largest number where it weighs more.
#[derive(Clone, Copy)]
pub struct Sized {
    pub phrase: usize,
    pub weight: u128,
}
