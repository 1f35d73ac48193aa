// Statements as they are read.
use crate::kind::{AssertKind, Fixity};
use crate::lexeme::Lexeme;

/// The modifiers that may stand before `sort`.
#[derive(Clone, Copy, Debug, PartialEq, Eq)]
pub struct Modifiers {
    pub is_pure: bool,
    pub is_strict: bool,
    pub is_provable: bool,
    pub is_free: bool,
}

impl Modifiers {
    /// None of them.
    pub const NONE: Modifiers = Modifiers {
        is_pure: false,
        is_strict: false,
        is_provable: false,
        is_free: false,
    };
}

/// A sort, and the names on which something depends.
#[derive(Drop)]
pub struct TypeText<'a> {
    pub sort: Lexeme<'a>,
    pub deps: Vec<Lexeme<'a>>,
}

/// What stands behind the colon of a group or before a `>`.
#[derive(Drop)]
pub enum Source<'a> {
    Type(TypeText<'a>),
    /// A hypothesis, as a math string.
    Formula(Lexeme<'a>),
}

/// A name of a group, or `_`; a dot before it makes a dummy.
#[derive(Clone, Copy)]
pub struct NameText<'a> {
    pub is_dummy: bool,
    pub name: Lexeme<'a>,
}

/// Names in braces or round brackets, and their type or formula; braces bind variables.
#[derive(Drop)]
pub struct Group<'a> {
    pub is_bound: bool,
    pub names: Vec<NameText<'a>>,
    pub source: Source<'a>,
}

/// The name of a statement, and the groups behind it.
#[derive(Drop)]
pub struct Head<'a> {
    pub name: Lexeme<'a>,
    pub groups: Vec<Group<'a>>,
}

/// How tightly a constant binds.
#[derive(Clone, Copy)]
pub enum Level<'a> {
    Number(Lexeme<'a>),
    Max,
}

/// A part of a notation.
#[derive(Clone, Copy)]
pub enum LiteralText<'a> {
    /// A constant, as a math string, with its precedence.
    Constant(Lexeme<'a>, Level<'a>),
    /// The name of a parameter.
    Name(Lexeme<'a>),
}

/// The precedence of a notation that begins with a parameter, and whether it groups to the right.
#[derive(Clone, Copy)]
pub struct TailText<'a> {
    pub level: Level<'a>,
    pub is_right: bool,
}

/// A term: its head, the types before each `>`, and that of its result.
#[derive(Drop)]
pub struct TermText<'a> {
    pub head: Head<'a>,
    pub arguments: Vec<TypeText<'a>>,
    pub result: TypeText<'a>,
}

/// An axiom or a theorem: its head, what stands before each `>`, and its conclusion.
#[derive(Drop)]
pub struct AssertText<'a> {
    pub kind: AssertKind,
    pub head: Head<'a>,
    pub premises: Vec<Source<'a>>,
    pub conclusion: Lexeme<'a>,
}

/// A definition: its head, the type of its result, and its body, where that is given.
#[derive(Drop)]
pub struct DefinitionText<'a> {
    pub head: Head<'a>,
    pub result: TypeText<'a>,
    pub body: Option<Lexeme<'a>>,
}

/// An infix or prefix notation: the name of its term, its constant and precedence.
#[derive(Clone, Copy)]
pub struct OperatorText<'a> {
    pub fixity: Fixity,
    pub name: Lexeme<'a>,
    pub constant: Lexeme<'a>,
    pub level: Level<'a>,
}

/// A coercion: the name of its term, and from which sort to which it leads.
#[derive(Clone, Copy)]
pub struct CoercionText<'a> {
    pub name: Lexeme<'a>,
    pub from: Lexeme<'a>,
    pub to: Lexeme<'a>,
}

/// Delimiters: those of both sides, or the left ones and the right ones.
#[derive(Clone, Copy)]
pub struct DelimiterText<'a> {
    pub left: Lexeme<'a>,
    pub right: Option<Lexeme<'a>>,
}

/// A general notation: its term with groups and result, its literals, the last one apart, and its
/// tail, which one that begins with a parameter has.
#[derive(Drop)]
pub struct NotationText<'a> {
    pub head: Head<'a>,
    pub result: TypeText<'a>,
    pub literals: Vec<LiteralText<'a>>,
    pub last: LiteralText<'a>,
    pub tail: Option<TailText<'a>>,
}

/// A statement, whose names and strings are lexemes of the text.
#[derive(Drop)]
pub enum SyntaxStatement<'a> {
    Sort {
        modifiers: Modifiers,
        name: Lexeme<'a>,
    },
    Term(TermText<'a>),
    Assert(AssertText<'a>),
    Definition(DefinitionText<'a>),
    Operator(OperatorText<'a>),
    Coercion(CoercionText<'a>),
    Delimiter(DelimiterText<'a>),
    Notation(NotationText<'a>),
}
