// Texts, their lexemes and how these end, worked out by hand.
use mz_lex::TokenKind::{Math, Name, Number, Symbol};
use mz_lex::{LexFault, Token, TokenKind, next_token};
use std::process::Abort;

type Span = (TokenKind, u32, u32);

/// A text, its lexemes, and the fault at their end, if there is one.
type Case = (&'static [u8], &'static [Span], Option<LexFault>);

fn expect_next(rt: &impl Abort, text: &[u8], pos: usize, wanted: Result<Option<Token>, LexFault>) {
    assert!(rt; text.len() < 1000);
    assert!(rt; pos <= text.len());
    assert_eq!(rt; next_token(text, pos), wanted, "in {text:?} at {pos}");
}

fn reads(rt: &impl Abort, text: &[u8], tokens: &[Span], ending: Option<LexFault>) {
    let mut pos = 0;
    for (kind, from, to) in tokens {
        let token = Token {
            kind: *kind,
            from: *from,
            to: *to,
        };
        expect_next(rt, text, pos, Ok(Some(token)));
        pos = *to as usize;
    }
    expect_next(rt, text, pos, ending.map_or(Ok(None), Err));
}

fn read_all(rt: &impl Abort, cases: &[Case]) {
    for (text, tokens, ending) in cases {
        reads(rt, text, tokens, *ending);
    }
}

const LEXEMES: &[Case] = &[
    (b"", &[], None),
    (b" \n \n", &[], None),
    (
        b"sort wff;",
        &[(Name, 0, 4), (Name, 5, 8), (Symbol, 8, 9)],
        None,
    ),
    (
        b"_ __ _a _: a_1B",
        &[
            (Symbol, 0, 1),
            (Name, 2, 4),
            (Name, 5, 7),
            (Symbol, 8, 9),
            (Symbol, 9, 10),
            (Name, 11, 15),
        ],
        None,
    ),
    (
        b"0 01 107a",
        &[
            (Number, 0, 1),
            (Number, 2, 3),
            (Number, 3, 4),
            (Number, 5, 8),
            (Name, 8, 9),
        ],
        None,
    ),
    (
        b"*.:;()",
        &[
            (Symbol, 0, 1),
            (Symbol, 1, 2),
            (Symbol, 2, 3),
            (Symbol, 3, 4),
            (Symbol, 4, 5),
            (Symbol, 5, 6),
        ],
        None,
    ),
    (
        b">{}=",
        &[
            (Symbol, 0, 1),
            (Symbol, 1, 2),
            (Symbol, 2, 3),
            (Symbol, 3, 4),
        ],
        None,
    ),
    (
        b"$$ $ a\n--b $c",
        &[(Math, 0, 2), (Math, 3, 12), (Name, 12, 13)],
        None,
    ),
];

#[test]
fn lexemes(rt: HostRuntime) {
    read_all(&rt, LEXEMES);
}

const COMMENTS: &[Case] = &[
    (b"--", &[], None),
    (b"a--b", &[(Name, 0, 1)], None),
    (
        b"--- a $\nb -- c\n\n-- d\n;",
        &[(Name, 8, 9), (Symbol, 21, 22)],
        None,
    ),
];

#[test]
fn comments(rt: HostRuntime) {
    read_all(&rt, COMMENTS);
}

const BYTES_THAT_MAY_NOT_STAND: &[Case] = &[
    (b"a\t", &[(Name, 0, 1)], Some(LexFault::Char(1))),
    (b"\r\n", &[], Some(LexFault::Char(0))),
    (b"; -- a\x7F\n", &[(Symbol, 0, 1)], Some(LexFault::Char(6))),
    (b"--\xC3\xA9", &[], Some(LexFault::Char(2))),
    (b"$ a\tb $", &[], Some(LexFault::Char(3))),
    (b"$ a \x00 b", &[], Some(LexFault::Char(4))),
];

#[test]
fn bytes_that_may_not_stand(rt: HostRuntime) {
    read_all(&rt, BYTES_THAT_MAY_NOT_STAND);
}

const BYTES_THAT_BEGIN_NO_LEXEME: &[Case] = &[
    (b"-", &[], Some(LexFault::Token(0))),
    (b"a - --", &[(Name, 0, 1)], Some(LexFault::Token(2))),
    (b"-\t", &[], Some(LexFault::Token(0))),
    (b"ab~", &[(Name, 0, 2)], Some(LexFault::Token(2))),
    (b"$ a $ $ b;\n", &[(Math, 0, 5)], Some(LexFault::Token(6))),
    (b" $", &[], Some(LexFault::Token(1))),
];

#[test]
fn bytes_that_begin_no_lexeme(rt: HostRuntime) {
    read_all(&rt, BYTES_THAT_BEGIN_NO_LEXEME);
}
