// What a math string stands for.
ghost use Rattle.std.specs.Prelude.{◌≡◌, ◌≢◌, ◌↔◌, ◌≤◌, ◌<◌, ◌⊎◌, ◌^◌, ℕ, List, All, IsTrue, IfErr, IfOk, MatchOption, Some, length};
ghost use Rattle.mz_logic_theory.specs.Declaration.{signatures, sorts};
ghost use Rattle.mz_logic_theory.specs.Modifiers.{MayBeClaimSort};
ghost use Rattle.mz_logic_theory.specs.View.{tree};
ghost use Rattle.mz_math_theory.specs.FormulaAnswers.{IsClaimRead, IsFirstUnknown, IsJudged, IsTreeOfFew, settled};
ghost use Rattle.mz_math_theory.specs.Coercions.{IsPath, OnePath, Reaches};
ghost use Rattle.mz_math_theory.specs.Formula.{IsParsed, Reader, most, words as words_lem};
ghost use Rattle.mz_math_theory.specs.Meaning.{IsGoal};
ghost use Rattle.mz_math_theory.specs.declared.wanted.Wanted.{Wanted};
ghost use Rattle.mz_math_theory.specs.Readable.{IsReadable};
ghost use Rattle.mz_math_theory.specs.Kept.{AreVariables};
ghost use Rattle.mz_math.specs.Claims.{IsJudgedOver, IsOnlyClaim, IsRootOf};
ghost use Rattle.mz_math_coercions.specs.Found.{AreFound};
ghost use Rattle.mz_lex.specs.MathTokens.{MathTokens, token_texts};

use crate::elaborate::{coerced, sort_of};
use crate::parser::parse;
use crate::vocabulary::Vocabulary;
use mz_lex::{MathToken, S, Tokens};
use mz_logic_theory::{Context, Env, Expr, ExprRef};
use mz_math_coercions::{Coercions, Paths, Reached, distance, reached_from, wrap};
use mz_math_notation::{Notations, Scope};
use mz_math_theory::{Built, Parsed, Syntax, Wanted};
use std::alloc::{AllocError, Global};

/// At most so many tokens, and at most so high a tree.
const MOST: usize = 4096;

fn refused(rule: S) -> Parsed
    ensures { result ≡ Parsed.Refused 0 rule }
{
    Parsed::Refused { at: 0, rule }
}

/// What a math string, without its `$`, stands for over the table, the declarations and the
/// statement's variables. The string has at most 4,294,967,295 bytes.
///
/// It is refused by the first rule that it breaks, in this order: a token is unknown (at the token;
/// the others are reported at 0), it has more than 4,096 tokens, they have no tree, an operand or the
/// whole can't be wrapped to its sort, the tree is higher than 4,096, it reaches no provable sort or
/// several.
pub fn parse_formula(
    alloc: Global,
    notations: &Notations,
    env: &Env,
    scope: &Scope,
    text: &[u8],
    wanted: Wanted,
) -> Parsed
    requires { length text.now < 2 ^ 32 }
    ensures { IsParsed (record { env = env.now; table = notations.now; scope = scope.now }) wanted text.now result }
{
    let Ok(pieces) = notations.delimiters().tokens(alloc, text) else {
        return Parsed::Mem;
    };
    let words = Vocabulary::new(notations, env, scope);
    let ctx = Context::of(scope.binders());
    let tokens = Tokens::new(text, &pieces);
    match parse_few(alloc, &words, &tokens) {
        Syntax::Mem => Parsed::Mem,
        Syntax::No => unread(&words, text, &pieces),
        Syntax::Tree(tree) => meaning_of(alloc, notations, env, scope, &ctx, tree, wanted),
    }
}

/// The tree of the tokens, where they aren't too many; else no memory is taken.
fn parse_few(alloc: Global, words: &Vocabulary<'_>, tokens: &Tokens<'_>) -> Syntax
    requires { IsReadable words.now }
    ensures tree { IsTreeOfFew words.now tokens.now result }
    ensures many { most < length tokens.now → result ≡ Syntax.No }
{
    if tokens.len() > MOST {
        return Syntax::No;
    }
    parse(alloc, words, tokens)
}

/// Why a string is refused whose tokens are too many or have no tree. Tokens that have one are known,
/// so only here they are looked up once more.
fn unread(words: &Vocabulary<'_>, text: &[u8], pieces: &[MathToken]) -> Parsed
    requires within { All (λ p. (p.from ≤ p.to) × (p.to ≤ length text.now)) pieces.now }
    requires small { length text.now < 2 ^ 32 }
    requires no_tree { IsTreeOfFew words.now (token_texts text.now pieces.now) Syntax.No }
    ensures { (r : Reader) (wanted : Wanted) → words_lem r ≡ words.now → MathTokens r.table.delimiters text.now pieces.now → IsParsed r wanted text.now result }
{
    if let Some(at) = first_unknown(words, text, pieces) {
        return Parsed::Refused {
            at,
            rule: S::MathToken,
        };
    }
    if pieces.len() > MOST {
        return refused(S::Depth);
    }
    refused(S::MathSyntax)
}

/// The first byte of the first token that is unknown.
fn first_unknown(words: &Vocabulary<'_>, text: &[u8], pieces: &[MathToken]) -> Option<u32>
    requires within { All (λ p. (p.from ≤ p.to) × (p.to ≤ length text.now)) pieces.now }
    requires small { length text.now < 2 ^ 32 }
    ensures { IsFirstUnknown words.now text.now pieces.now result }
{
    for i in 0..pieces.len() {
        let piece = pieces[i];
        if !words.is_known(&text[piece.from..piece.to]) {
            return Some(piece.from as u32);
        }
    }
    None
}

/// What is known of a tree before its operands are wrapped.
#[derive(Clone, Copy)]
pub struct Root {
    /// Its sort.
    sort: u32,
    /// The sort to which the whole is wrapped before its own rule.
    goal: u32,
    /// How high it may be before that.
    most: usize,
}

/// What a tree stands for.
fn meaning_of(
    alloc: Global,
    notations: &Notations,
    env: &Env,
    scope: &Scope,
    ctx: &Context<'_>,
    syntax: Expr,
    wanted: Wanted,
) -> Parsed
    requires ctx { ctx.now ≡ scope.now.binders }
    requires names { AreVariables scope.now.names }
    ensures { IsJudged (record { env = env.now; table = notations.now; scope = scope.now }) wanted (tree syntax) result }
{
    let mut paths = Paths::new(alloc);
    let made = meaning_along(
        alloc,
        env,
        notations.coercions(),
        &mut paths,
        ctx,
        syntax,
        wanted,
    );
    drop(paths);
    made
}

/// The same, with the paths found so far.
fn meaning_along(
    alloc: Global,
    env: &Env,
    coercions: &Coercions,
    paths: &mut Paths,
    ctx: &Context<'_>,
    syntax: Expr,
    wanted: Wanted,
) -> Parsed
    requires one { OnePath coercions.now }
    requires found { AreFound coercions.now paths.old }
    ensures { IsJudgedOver env.now coercions.now ctx.now wanted (tree syntax) result }
{
    match root_of(
        alloc,
        env,
        coercions,
        paths,
        ctx,
        &syntax.borrowed(),
        wanted,
    ) {
        Err(answer) => answer,
        Ok(root) => made_of(alloc, env, coercions, paths, ctx, syntax, root, wanted),
    }
}

/// What is known of a tree before its operands are wrapped.
///
/// # Errors
///
/// What there is to say of a tree that can't be wrapped.
fn root_of(
    alloc: Global,
    env: &Env,
    coercions: &Coercions,
    paths: &mut Paths,
    ctx: &Context<'_>,
    syntax: &ExprRef<'_>,
    wanted: Wanted,
) -> Result<Root, Parsed>
    requires one { OnePath coercions.now }
    requires found { AreFound coercions.now paths.old }
    ensures found { AreFound coercions.now paths.new }
    ensures ok { IfOk result (λ root. IsRootOf (signatures env.now) coercions.now ctx.now wanted syntax.now root) }
    ensures err { IfErr result (λ answer. IsJudgedOver env.now coercions.now ctx.now wanted syntax.now answer) }
{
    let Ok(found) = sort_of(alloc, env, coercions, paths, ctx, syntax) else {
        return Err(Parsed::Mem);
    };
    let Some(sort) = found else {
        return Err(refused(S::NoCoercion));
    };
    let goal = settled_sort(wanted, sort);
    let Ok(path) = distance(alloc, coercions, paths, sort, goal) else {
        return Err(Parsed::Mem);
    };
    let Some(many) = path else {
        return Err(refused(S::NoCoercion));
    };
    if many > MOST {
        return Err(refused(S::Depth));
    }
    Ok(Root {
        sort,
        goal,
        most: MOST - many,
    })
}

/// What a tree stands for of which so much is known.
fn made_of(
    alloc: Global,
    env: &Env,
    coercions: &Coercions,
    paths: &mut Paths,
    ctx: &Context<'_>,
    syntax: Expr,
    root: Root,
    wanted: Wanted,
) -> Parsed
    requires one { OnePath coercions.now }
    requires found { AreFound coercions.now paths.old }
    requires root { IsRootOf (signatures env.now) coercions.now ctx.now wanted (tree syntax) root }
    ensures { IsJudgedOver env.now coercions.now ctx.now wanted (tree syntax) result }
{
    match coerced(alloc, env, coercions, paths, ctx, syntax, root.most) {
        Built::Mem => Parsed::Mem,
        Built::High => refused(S::Depth),
        Built::Tree(expr) => match wrap(alloc, coercions, paths, root.sort, root.goal, expr) {
            Err(_) => Parsed::Mem,
            Ok(expr) => claimed(alloc, env, coercions, paths, root.sort, expr, wanted),
        },
    }
}

/// The sort to which the whole is wrapped before its own rule.
fn settled_sort(wanted: Wanted, sort: u32) -> u32
    ensures { result ≡ settled wanted sort }
{
    match wanted {
        Wanted::Provable => sort,
        Wanted::Sort(goal) => goal,
    }
}

/// The expression wrapped to a provable sort, where that is wanted.
fn claimed(
    alloc: Global,
    env: &Env,
    coercions: &Coercions,
    paths: &mut Paths,
    sort: u32,
    expr: Expr,
    wanted: Wanted,
) -> Parsed
    requires one { OnePath coercions.now }
    requires found { AreFound coercions.now paths.old }
    ensures { IsClaimRead env.now coercions.now wanted (tree expr) sort result }
{
    match wanted {
        Wanted::Sort(_) => Parsed::Tree(expr),
        Wanted::Provable => match goal_of(alloc, env, coercions, sort) {
            Err(_) => Parsed::Mem,
            Ok(found) => match found {
                None => refused(S::NotProvable),
                Some(goal) => match wrap(alloc, coercions, paths, sort, goal, expr) {
                    Err(_) => Parsed::Mem,
                    Ok(expr) => Parsed::Tree(expr),
                },
            },
        },
    }
}

fn is_provable(env: &Env, sort: u32) -> bool
    ensures { IsTrue result ↔ MayBeClaimSort (sorts env.now) sort }
{
    match env.mods(sort) {
        None => false,
        Some(mods) => mods.is_provable(),
    }
}

/// The provable sort for which an expression of a sort stands, if there is one.
///
/// # Errors
///
/// Where there is no memory.
fn goal_of(
    alloc: Global,
    env: &Env,
    coercions: &Coercions,
    sort: u32,
) -> Result<Option<u32>, AllocError>
    requires { OnePath coercions.now }
    ensures { IfOk result (λ found. MatchOption found ((goal : ℕ) (path : List ℕ) → IsGoal env.now coercions.now sort goal → IsPath coercions.now sort path goal → ⊥)
        (λ goal. IsGoal env.now coercions.now sort goal × Reaches coercions.now (length coercions.now) sort goal)) }
{
    if is_provable(env, sort) {
        return Ok(Some(sort));
    }
    let reached = reached_from(alloc, coercions, sort)?;
    Ok(only_provable(env, &reached))
}

/// The provable sort among those that are reached, where there is just one.
fn only_provable(env: &Env, reached: &Reached) -> Option<u32>
    ensures { MatchOption result ((goal : ℕ) → IsOnlyClaim env.now reached.now goal → ⊥) (λ goal. IsOnlyClaim env.now reached.now goal) }
{
    let mut found = None;
    'sorts: for i in 0..reached.len() {
        let Some(to) = reached.sort_at(i) else {
            unreachable!()
        };
        if is_second(env, found, to) {
            return None;
        }
        found = found_with(env, found, to);
    }
    found
}

/// Whether a sort is provable where another has been found.
fn is_second(env: &Env, found: Option<u32>, sort: u32) -> bool
    ensures { IsTrue result ↔ (MayBeClaimSort (sorts env.now) sort × (other : ℕ) × (found ≡ Some other) × (other ≢ sort)) }
{
    if is_provable(env, sort) {
        return is_other(found, sort);
    }
    false
}

/// What is found with one more sort: the sort, where it is provable.
fn found_with(env: &Env, found: Option<u32>, sort: u32) -> Option<u32>
    ensures { (MayBeClaimSort (sorts env.now) sort × (result ≡ Some sort)) ⊎ ((MayBeClaimSort (sorts env.now) sort → ⊥) × (result ≡ found)) }
{
    if is_provable(env, sort) {
        return Some(sort);
    }
    found
}

/// Whether another sort has been found.
fn is_other(found: Option<u32>, sort: u32) -> bool
    ensures { IsTrue result ↔ ((other : ℕ) × (found ≡ Some other) × (other ≢ sort)) }
{
    match found {
        None => false,
        Some(other) => other != sort,
    }
}
