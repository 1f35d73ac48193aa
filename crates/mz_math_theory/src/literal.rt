ghost use Rattle.std.specs.Prelude.{◌<◌};

/// A literal of a `notation` statement, by its span in a text: a constant, without its `$`, with its
/// precedence (none for max), or the name of a parameter.
#[derive(Clone, Copy)]
pub enum Literal {
    Constant {
        from: u32,
        to: u32,
        level: Option<u32>,
    },
    Name {
        from: u32,
        to: u32,
    },
}

/// The end of a `notation` statement that begins with a parameter: its precedence (none for max),
/// and whether it groups to the right.
#[derive(Clone, Copy)]
pub struct Tail {
    pub level: Option<u32>,
    pub right: bool,
}
