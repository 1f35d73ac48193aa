ghost use Rattle.std.specs.Prelude.{◌≡◌, ◌↔◌, ◌<◌, ◌^◌, ◌-◌, ◌+◌, IsTrue, length, drop, get_or};
ghost use Rattle.mz_sexpr.specs.Grammar.{IsAllowed};
ghost use Rattle.mz_sexpr.specs.Scan.{class_after, none_seen, seen_with, at_byte, checks_at};
ghost use Rattle.mz_base.specs.Checks.{Answers};

use crate::rule::{TextRefusal, U};

/// The most lists that may stand in one another.
const DEPTH_LIMIT: u32 = 4096;

/// What a byte is: white space, a part of a comment, a parenthesis, a part of an atom.
#[derive(Clone, Copy)]
pub enum Class {
    Space,
    Note,
    Opening,
    Closing,
    Letter,
}

/// What stands before a place: how many parentheses are unclosed, how many top forms are whole
/// (a top atom counts from its first byte on), and the class of the last byte.
#[derive(Clone, Copy)]
pub struct Seen {
    pub depth: u32,
    pub tops: u32,
    pub last: Class,
}

/// The class of a byte outside comments that begins none.
fn plain_class(byte: u8) -> Class
    ensures { result ≡ Rattle.mz_sexpr.specs.Scan.plain_class byte }
{
    match byte {
        b'(' => Class::Opening,
        b')' => Class::Closing,
        b' ' | b'\n' => Class::Space,
        _ => Class::Letter,
    }
}

/// The class of a byte, after a byte of the class `last` and before `rest`.
fn class_of(last: Class, byte: u8, rest: &[u8]) -> Class
    ensures { result ≡ class_after last byte rest.now }
{
    match last {
        Class::Note => {
            if byte == b'\n' {
                Class::Space
            } else {
                Class::Note
            }
        }
        Class::Letter => plain_class(byte),
        _ => {
            if byte == b'-' && begins_with_dash(rest) {
                Class::Note
            } else {
                plain_class(byte)
            }
        }
    }
}

/// The class of the byte at a place, after a byte of the class `last`.
pub fn class_at(last: Class, text: &[u8], at: usize) -> Class
    requires { at < length text.now }
    ensures { result ≡ class_after last (get_or text.now at 0) (drop (at + 1) text.now) }
{
    class_of(last, text[at], &text[at + 1..])
}

fn begins_with_dash(rest: &[u8]) -> bool
    ensures { result ≡ Rattle.mz_sexpr.specs.Grammar.begins_with 45 rest.now }
{
    match rest {
        [] => false,
        [byte, ..] => *byte == b'-',
    }
}

/// Whether the byte may stand in a text.
pub fn is_allowed(byte: u8) -> bool
    ensures { IsTrue result ↔ IsAllowed byte }
{
    (32 <= byte && byte <= 126) || byte == 10
}

impl Seen {
    /// Nothing.
    pub fn nothing() -> Seen
        ensures { result ≡ none_seen }
    {
        Seen {
            depth: 0,
            tops: 0,
            last: Class::Space,
        }
    }

    /// One byte more, of this class.
    pub fn with(self, class: Class) -> Seen
        requires depth { self.depth < 2 ^ 32 - 1 }
        requires tops { self.tops < 2 ^ 32 - 1 }
        ensures { result ≡ seen_with self class }
    {
        match class {
            Class::Opening => Seen {
                depth: self.depth + 1,
                tops: self.tops,
                last: class,
            },
            Class::Closing => self.with_closing(),
            Class::Letter => Seen {
                depth: self.depth,
                tops: if begins_top(self.last, self.depth) {
                    self.tops + 1
                } else {
                    self.tops
                },
                last: class,
            },
            _ => Seen {
                depth: self.depth,
                tops: self.tops,
                last: class,
            },
        }
    }

    fn with_closing(self) -> Seen
        requires { self.tops < 2 ^ 32 - 1 }
        ensures { result ≡ Rattle.mz_sexpr.specs.Scan.seen_with self Class.Closing }
    {
        Seen {
            depth: self.depth.saturating_sub(1),
            tops: if self.depth == 1 {
                self.tops + 1
            } else {
                self.tops
            },
            last: Class::Closing,
        }
    }

    /// The refusal at this byte.
    pub fn refusal(self, at: usize, rule: U) -> TextRefusal
        requires at { at < 2 ^ 32 }
        requires tops { self.tops < 2 ^ 32 - 1 }
        ensures { result ≡ at_byte self at rule }
    {
        TextRefusal {
            statement: self.tops + 1,
            at: at as u32,
            rule,
        }
    }
}

/// Whether a letter after a byte of this class, at this depth, begins a top form.
fn begins_top(last: Class, depth: u32) -> bool
    ensures { result ≡ Rattle.mz_sexpr.specs.Scan.begins_top last depth }
{
    match last {
        Class::Letter => false,
        _ => depth == 0,
    }
}

/// What the rules say against a byte of this class.
pub fn fault_at(seen: Seen, at: usize, byte: u8, class: Class) -> Option<TextRefusal>
    requires at { at < 2 ^ 32 }
    requires tops { seen.tops < 2 ^ 32 - 1 }
    ensures { Answers result (checks_at at seen byte class) }
{
    if !is_allowed(byte) {
        return Some(seen.refusal(at, U::Character));
    }
    match class {
        Class::Opening => {
            if seen.depth < DEPTH_LIMIT {
                None
            } else {
                Some(seen.refusal(at, U::Depth))
            }
        }
        Class::Closing => {
            if 0 < seen.depth {
                None
            } else {
                Some(seen.refusal(at, U::Parenthesis))
            }
        }
        _ => None,
    }
}
