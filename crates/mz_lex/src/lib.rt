//! The words of a specification: its lexemes, the tokens of its math strings, and what is found by their bytes.
//!
//! `next_token` gives the next lexeme from a byte on, the end of the text, or the rule that fails there: S1, a byte
//! that may not stand in a text, or S2, no lexeme begins (mm0.md, lexical structure). Each answer is exact, and it
//! takes no memory. `specs/Lexemes.antt` says what a text's lexemes are; a law, that each text has one list of them.
//!
//! `Delimiters::tokens` gives the tokens between two `$`, exactly as `specs/MathTokens.antt` has them. A `ByteSet`
//! finds a delimiter in one step, however many were declared.
//!
//! `Places` gives strings an index each, hashed from the seed of the run, so no text can choose strings that are slow
//! to find. `VariableNames` does so for a statement's variables. Up to eight names are searched one by one. What
//! fails for memory changes nothing. Start with `specs/Lexemes.antt`, then `src/lexer.rt`.
#![tactic(auto)]

mod byte_string;
mod bytes;
mod laws;
mod lexer;
mod places;
mod rule;
mod set;
mod token;
mod tokens;
mod variables;

pub use byte_string::Bytes;
pub use bytes::is_space;
pub use laws::{
    first_lexemes, lexemes_are_one, math_strings_have_an_inside, next_is_one, spans_are_in_order,
};
pub use lexer::next_token;
pub use places::Places;
pub use rule::S;
pub use set::ByteSet;
pub use token::{LexFault, Token, TokenKind};
pub use tokens::{Delimiters, MathToken, Tokens, is_parenthesis};
pub use variables::VariableNames;
