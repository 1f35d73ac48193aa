use crate::item::Id;

/// An expression of a store: its word of variables, its sort, and what it is made of. Fields lie in this
/// order: the word first leaves no gap.
#[derive(Clone, Copy)]
pub struct Node {
    pub deps: u64,
    pub sort: u32,
    pub form: Form,
}

const _: () = prove!(size_of::<Node>() == 32);

/// A variable, bound or regular; or a term over earlier expressions of the store.
#[derive(Clone, Copy)]
pub enum Form {
    Variable(bool),
    Application(Application),
}

/// A term over the ids that stand in the store's list of operands from one place to another.
#[derive(Clone, Copy)]
pub struct Application {
    pub head: u32,
    pub from: u32,
    pub to: u32,
    /// The last one before it in the same bucket; itself where there is none.
    pub earlier: Id,
}
