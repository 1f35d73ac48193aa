/// A phrase that is kept: what it is made of, the length of its text and the number of its tokens, both at most the
/// largest number, and its depth.
#[derive(Drop)]
pub struct Node {
    pub form: Form,
    pub text_len: u128,
    pub words: u128,
    pub depth: usize,
}

/// A token, or a list: from where and to where its bytes or the numbers of its parts stand among those of all phrases.
#[derive(Drop)]
pub enum Form {
    Word(usize, usize),
    Parts(usize, usize),
}
