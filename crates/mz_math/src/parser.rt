// Expressions of the notation grammar.
ghost use Rattle.std.specs.Prelude.{◌≡◌, ◌≢◌, ◌↔◌, ◌≤◌, ◌<◌, ◌+◌, ◌*◌, ◌-◌, ◌^◌, ◌∷◌, ⊤, [], ℕ, List, IsTrue, MatchOption, length, drop, codes, option_map};
ghost use Rattle.mz_logic_theory.specs.View.{tree};
ghost use Rattle.mz_math_theory.specs.Readable.{IsReadable};
ghost use Rattle.mz_math_theory.specs.FormulaAnswers.{IfParsed, IfNotParsed};
ghost use Rattle.mz_math_theory.specs.Reading.{IsRead};
ghost use Rattle.mz_math_theory.specs.Grammar.{Words};
ghost use Rattle.mz_math.specs.Steps.{IsAhead, IsBegunAs, IsPending, JoinsNext, Waits, Says, outer_level, asked, turns};
ghost use Rattle.mz_math_theory.specs.Notation.{max_level};

use crate::form::{Form, Part, can_lead};
use crate::vocabulary::Vocabulary;
use mz_lex::Tokens;
use mz_logic_theory::{Expr, Exprs};
use mz_math_theory::{MAX, Notation, Syntax};
use std::alloc::Global;

/// An expression at the front of the tokens.
#[derive(Drop)]
pub struct Found {
    tree: Expr,
    /// The precedence of its form, or max.
    level: u32,
    /// Whether it's of an infix form that groups to the left.
    is_left: bool,
    /// How many tokens stand before what comes behind it.
    next: usize,
}

/// A form whose parts are being read.
#[derive(Drop)]
pub struct Pending<'w> {
    /// The form, which says its parts in order.
    form: Form<'w>,
    /// The part that is next.
    part: usize,
    /// What was read for its operands so far, in the order of its parts.
    operands: Exprs,
    /// The precedence of the expression in which it stands, at least.
    level: u32,
}

/// What an expression is read for.
#[derive(Drop)]
pub enum Outer<'w> {
    /// Parentheses, in an expression of this precedence.
    Parens(u32),
    /// An operand of a form; the part that is next stands behind it.
    Operand(Pending<'w>),
}

/// How far the innermost expression has been read. Places are numbers of tokens.
#[derive(Drop)]
pub enum Step<'w> {
    /// Up to an expression of this precedence within it, which begins here.
    Inner(Outer<'w>, u32, usize),
    /// Up to a part of a form, which begins here.
    Parts(Pending<'w>, usize),
    /// An expression, of this precedence, which infix forms may join.
    Begun(Found, u32),
    /// The whole: nothing can be joined.
    Whole(Found),
    /// Not further: the tokens are no expression.
    No,
    /// Not further: no memory was left.
    Mem,
}

/// The infix notation that the token at a place joins, where there is a token and it joins one.
#[derive(Clone, Copy)]
pub struct Ahead<'w> {
    at: usize,
    joining: Option<&'w Notation>,
}

fn token_at<'a>(tokens: &Tokens<'a>, at: usize) -> Option<&'a [u8]>
    ensures token { MatchOption result (drop at tokens.now ≡ []) (λ w. drop at tokens.now ≡ w.now ∷ drop (at + 1) tokens.now) }
    ensures within { MatchOption result (length tokens.now ≤ at) (λ w. at < length tokens.now) }
    ensures fits { MatchOption result ⊤ (λ w. at + 1 < 2 ^ 64) }
{
    tokens.get(at)
}

fn is_open(token: &[u8]) -> bool
    ensures { IsTrue result ↔ (token.now ≡ codes "(") }
{
    token == b"(".as_slice()
}

fn is_close(token: &[u8]) -> bool
    ensures { IsTrue result ↔ (token.now ≡ codes ")") }
{
    token == b")".as_slice()
}

/// The tree of the tokens.
///
/// Expressions may stand deep in one another. What they are read for is kept in a list, and not on
/// the stack.
pub fn parse(alloc: Global, words: &Vocabulary<'_>, tokens: &Tokens<'_>) -> Syntax
    requires readable { IsReadable words.now }
    ensures tree { IfParsed words.now tokens.now result }
    ensures no { IfNotParsed words.now tokens.now result }
{
    let mut outers: Vec<Outer> = Vec::new(alloc);
    let mut step = begin(alloc, words, tokens, 0, 0);
    let mut ahead = Ahead {
        at: tokens.len(),
        joining: None,
    };
    'reading: loop {
        match step {
            Step::Inner(outer, level, at) => {
                let Ok(()) = outers.push(outer) else {
                    return Syntax::Mem;
                };
                step = begin(alloc, words, tokens, at, level);
            }
            Step::Parts(pending, at) => step = next_part(alloc, tokens, pending, at),
            Step::Begun(found, level) => {
                ahead = ahead_at(words, tokens, ahead, found.next, level);
                step = joined(alloc, tokens, ahead.joining, found, level);
            }
            Step::Whole(found) => match outers.pop() {
                None => return all_read(tokens, found),
                Some(outer) => step = back(tokens, outer, found),
            },
            Step::No => return Syntax::No,
            Step::Mem => return Syntax::Mem,
        }
    }
}

/// The tree, where it's of all tokens.
fn all_read(tokens: &Tokens<'_>, found: Found) -> Syntax
    ensures tree { (ws : Words) → IsReadable ws → IsRead ws 0 tokens.now (drop found.next tokens.now) (tree found.tree) → IfParsed ws tokens.now result }
    ensures no { (ws : Words) → IsReadable ws → IsRead ws 0 tokens.now (drop found.next tokens.now) (tree found.tree) → IfNotParsed ws tokens.now result }
{
    match token_at(tokens, found.next) {
        None => Syntax::Tree(found.tree),
        Some(_) => Syntax::No,
    }
}

/// What stands first in an expression of a precedence: a variable, a form that begins with a
/// constant, a term's name or parentheses.
fn begin<'w>(
    alloc: Global,
    words: &Vocabulary<'w>,
    tokens: &Tokens<'_>,
    at: usize,
    level: u32,
) -> Step<'w>
    requires readable { IsReadable words.now }
    ensures says { Says words.now tokens.now (drop at tokens.now) level result }
    ensures less { turns (length tokens.now) result < 8 * (length tokens.now - at) + 1 }
{
    let token = match token_at(tokens, at) {
        None => return Step::No,
        Some(token) => token,
    };
    if let Some(place) = words.variable(token) {
        let found = Found {
            tree: Expr::var(place),
            level: MAX,
            is_left: false,
            next: at + 1,
        };
        return Step::Begun(found, level);
    }
    if let Some(notation) = words.leading(token) {
        let pending = Pending {
            form: Form::Leading(notation),
            part: 1,
            operands: Exprs::new(alloc),
            level,
        };
        return Step::Parts(pending, at + 1);
    }
    if let Some((term, many)) = words.term(token) {
        // Room for few: whether so many operands follow isn't known.
        let Ok(operands) = Exprs::with_capacity(alloc, many.min(4)) else {
            return Step::Mem;
        };
        let pending = Pending {
            form: Form::Term(term, many),
            part: 0,
            operands,
            level,
        };
        return Step::Parts(pending, at + 1);
    }
    if is_open(token) {
        return Step::Inner(Outer::Parens(level), 0, at + 1);
    }
    Step::No
}

/// The next part of a form.
fn next_part<'w>(alloc: Global, tokens: &Tokens<'_>, pending: Pending<'w>, at: usize) -> Step<'w>
    ensures says { (ws : Words) (from : List (List ℕ)) → IsReadable ws → IsPending ws from (drop at tokens.now) pending.entry → Says ws tokens.now from pending.entry.level result }
    ensures less { turns (length tokens.now) result < 8 * (length tokens.now - at) + 5 }
{
    match pending.form.part(pending.part) {
        Part::End => finished(alloc, pending, at),
        Part::Operand(level) => {
            let pending = Pending {
                part: pending.part + 1,
                ..pending
            };
            Step::Inner(Outer::Operand(pending), level, at)
        }
        Part::Constant(constant) => match token_at(tokens, at) {
            None => Step::No,
            Some(token) => {
                if !constant.is(token) {
                    return Step::No;
                }
                let pending = Pending {
                    part: pending.part + 1,
                    ..pending
                };
                Step::Parts(pending, at + 1)
            }
        },
    }
}

/// The expression of a form whose parts have all been read.
fn finished(alloc: Global, pending: Pending<'_>, at: usize) -> Step<'_>
    ensures says { (ws : Words) (tokens from : List (List ℕ)) → IsReadable ws → asked pending.entry.form pending.entry.part ≡ []
        → IsPending ws from (drop at tokens) pending.entry → Says ws tokens from pending.entry.level result }
    ensures less { (many : ℕ) → turns many result < 8 * (many - at) + 5 }
{
    let form = pending.form;
    let level = form.level();
    if level < pending.level {
        return Step::No;
    }
    match form.made(alloc, pending.operands) {
        None => Step::Mem,
        Some(tree) => {
            let found = Found {
                tree,
                level,
                is_left: form.is_left(),
                next: at,
            };
            Step::Begun(found, pending.level)
        }
    }
}

/// What the token at a place joins, before which an expression of this precedence ends; it is looked up
/// once, however many expressions end there. Nothing joins the highest precedence.
fn ahead_at<'w>(
    words: &Vocabulary<'w>,
    tokens: &Tokens<'_>,
    ahead: Ahead<'w>,
    at: usize,
    level: u32,
) -> Ahead<'w>
    requires { IsAhead words.now tokens.now ahead }
    ensures known { IsAhead words.now tokens.now result }
    ensures next { level ≢ max_level → JoinsNext words.now (drop at tokens.now) (option_map (λ k. k.now) result.joining) }
{
    if level == MAX {
        return ahead;
    }
    if ahead.at == at {
        return ahead;
    }
    match token_at(tokens, at) {
        None => Ahead { at, joining: None },
        Some(token) => Ahead {
            at,
            joining: words.infix(token),
        },
    }
}

/// The infix form around what stands before, if there is one; this is the notation that the next token joins.
fn joined<'w>(
    alloc: Global,
    tokens: &Tokens<'_>,
    joining: Option<&'w Notation>,
    before: Found,
    level: u32,
) -> Step<'w>
    ensures says { (ws : Words) (from : List (List ℕ)) → IsReadable ws → (level ≢ max_level → JoinsNext ws (drop before.next tokens.now) (option_map (λ k. k.now) joining.entry))
        → IsBegunAs ws level from (drop before.next tokens.now) before → Says ws tokens.now from level result }
    ensures less { turns (length tokens.now) result < 8 * (length tokens.now - before.next) + 4 }
{
    // No infix constant has the highest precedence.
    if level == MAX {
        return Step::Whole(before);
    }
    // Called for its clauses: where no token follows, nothing is joined, and else its place can be counted.
    let _token = match token_at(tokens, before.next) {
        None => return Step::Whole(before),
        Some(token) => token,
    };
    match joining {
        None => Step::Whole(before),
        Some(notation) => {
            if notation.level < level {
                return Step::Whole(before);
            }
            if !can_lead(notation, before.level, before.is_left) {
                return Step::No;
            }
            let next = before.next;
            let Ok(mut operands) = Exprs::with_capacity(alloc, 2) else {
                return Step::Mem;
            };
            match operands.push(before.tree) {
                Err(_) => Step::Mem,
                Ok(()) => {
                    let pending = Pending {
                        form: Form::Infix(notation),
                        part: 2,
                        operands,
                        level,
                    };
                    Step::Parts(pending, next + 1)
                }
            }
        }
    }
}

/// What an expression was read for, with it.
fn back<'w>(tokens: &Tokens<'_>, outer: Outer<'w>, found: Found) -> Step<'w>
    ensures says { (ws : Words) (from here : List (List ℕ)) (level : ℕ) → IsReadable ws → Waits ws from here level outer.entry
        → IsRead ws level here (drop found.next tokens.now) (tree found.tree) → Says ws tokens.now from (outer_level outer.entry) result }
    ensures less { turns (length tokens.now) result < 8 * (length tokens.now - found.next) + 6 }
{
    match outer {
        Outer::Parens(level) => closed(tokens, found, level),
        Outer::Operand(mut pending) => match pending.operands.push(found.tree) {
            Err(_) => Step::Mem,
            Ok(()) => Step::Parts(pending, found.next),
        },
    }
}

/// An expression in parentheses, of which the second is next.
fn closed<'w>(tokens: &Tokens<'_>, inner: Found, level: u32) -> Step<'w>
    ensures says { (ws : Words) (from here : List (List ℕ)) → IsReadable ws → from ≡ codes "(" ∷ here
        → IsRead ws 0 here (drop inner.next tokens.now) (tree inner.tree) → Says ws tokens.now from level result }
    ensures less { turns (length tokens.now) result < 8 * (length tokens.now - inner.next) + 6 }
{
    match token_at(tokens, inner.next) {
        None => Step::No,
        Some(token) => {
            if !is_close(token) {
                return Step::No;
            }
            let found = Found {
                tree: inner.tree,
                level: MAX,
                is_left: false,
                next: inner.next + 1,
            };
            Step::Begun(found, level)
        }
    }
}
