// What well-typed texts weigh, by which a limit is reckoned; worked out by hand.
use crate::expect::expect_bytes;
use mz_base::{Hashing, Mode};
use mz_mmu::{Text, TextRead, read_text};
use mz_type::{TypedRead, check_text, weight};
use std::alloc::{AllocError, Global};
use std::process::Abort;

/// How many statements a well-typed text has, and what it weighs.
fn typed_answer(alloc: Global, text: Text) -> Result<Vec<u8>, AllocError> {
    match check_text(alloc, text) {
        TypedRead::Typed(typed) => {
            let line = format!(in alloc; "{} statements weigh {}", typed.len(), weight(&typed));
            line.map(String::into_bytes)
        }
        TypedRead::Refused(_) | TypedRead::Mem => Err(AllocError),
    }
}

/// The same of the bytes of a text.
fn answer(alloc: Global, text: &[u8], mode: Mode) -> Result<Vec<u8>, AllocError> {
    if text.len() >= 100_000 {
        return Err(AllocError);
    }
    match read_text(alloc, Hashing::fixed(), text, mode) {
        TextRead::Text(text) => typed_answer(alloc, text),
        TextRead::Refused(_) | TextRead::Mem => Err(AllocError),
    }
}

/// Fifteen statements: sorts of each modifier, terms, definitions and axioms. They weigh 52.
const BEFORE: &str = "(sort s)(sort w provable)(sort p pure)(sort t strict)(sort f free)\
    (term c () (s ()))(term is ((a s ())) (w ()))(term eq ((a s ()) (b s ())) (w ()))\
    (term all ((x s) (q w (x))) (w ()))(term lam ((x s) (a s (x))) (s ()))\
    (def k ((a s ())) (s ()) ((y s)) (lam y a))(def m () (s ()) ((y s) (u s)) (lam y (lam u c)))\
    (axiom A ((a s ())) () (is a))(axiom B ((x s) (q w ())) (q) (all x q))\
    (axiom C ((a s ()) (b s ())) ((is a) (is b)) (eq a b))";

/// What is added to those statements in a draft, and the answer.
const GAPS: &[(&str, &str)] = &[
    (
        "(theorem h () () (is c) () (:sorry (is c)))",
        "16 statements weigh 58",
    ),
    (
        "(theorem h () () (is c) () (:conv (is c) (:sorry (is c) (eq c c)) (:sorry (eq c c))))",
        "16 statements weigh 68",
    ),
];

#[test]
fn gaps(rt: HostRuntime) {
    for (more, wanted) in GAPS {
        let text = format!(in rt.alloc(); "{BEFORE}{more}").expect(&rt, "memory");
        let found = answer(rt.alloc(), text.as_bytes(), Mode::Draft).expect(&rt, "memory");
        expect_bytes(&rt, &found, wanted.as_bytes(), more);
    }
}

const IMPLICATION: &str = "(sort wff provable)
(term im ((a wff ()) (b wff ())) (wff ()))
(axiom ax_1 ((a wff ()) (b wff ())) () (im a (im b a)))
(axiom ax_mp ((a wff ()) (b wff ())) ((im a b) a) b)
(theorem a1i ((a wff ()) (b wff ())) ((h a)) (im b a) ()
  (ax_mp (a (im b a)) (ax_1 (a b)) h))
";

const TWICE: &str = "(theorem twice ((a wff ())) ((h a)) (im a (im a a)) () (:let k (ax_1 (a a))
  (ax_mp ((im a a) (im a (im a a)))
    (ax_mp ((im a (im a a)) (im (im a a) (im a (im a a))))
      (ax_1 ((im a (im a a)) (im a a))) k)
    (ax_mp (a (im a a)) k h))))
";

const NEGATION: &str = "(sort wff provable)
(term not ((a wff ())) (wff ()))
(def nn ((a wff ())) (wff ()) () (not (not a)))
";

/// Texts in two parts, and their answers.
const TEXTS: &[(&str, &str, &str)] = &[
    ("", "", "0 statements weigh 0"),
    ("(sort wff provable)", "", "1 statements weigh 1"),
    (IMPLICATION, "", "5 statements weigh 44"),
    // a let that is used twice weighs once
    (IMPLICATION, TWICE, "6 statements weigh 134"),
    // a definition folded
    (
        NEGATION,
        "(theorem fold ((a wff ())) ((h (not (not a)))) (nn a) () (:conv (nn a) (:unfold nn (a) () (not (not a))) h))",
        "4 statements weigh 27",
    ),
    (
        "(sort wff provable)
(sort nat)
(term all ((x nat) (p wff (x))) (wff ()))
(axiom ax_v ((x nat) (p wff (x))) (p) (all x p))
",
        "(theorem t ((y nat) (q wff (y))) ((h (all y q))) (all y (all y q)) () (ax_v (y (all y q)) h))",
        "5 statements weigh 34",
    ),
    // a let that isn't used weighs too
    (
        "(sort w provable)(axiom A ((a w ())) () a)",
        "(local theorem t ((b w ())) () b () (:let j (A (b)) (A (b))))",
        "3 statements weigh 14",
    ),
    // an unfolding turned, with a dummy
    (
        "(sort w provable)(term l ((x w) (a w (x))) (w ()))(def k ((a w ())) (w ()) ((y w)) (l y a))(axiom A ((a w ())) () a)",
        "(theorem t ((a w ())) () (k a) ((y w)) (:conv (k a) (:unfold k (a) (y) (:sym (:unfold k (a) (y) (l y a)))) (A ((k a)))))",
        "5 statements weigh 40",
    ),
];

#[test]
fn whole_texts(rt: HostRuntime) {
    for (first, second, wanted) in TEXTS {
        let text = format!(in rt.alloc(); "{first}{second}").expect(&rt, "memory");
        let found = answer(rt.alloc(), text.as_bytes(), Mode::Strict).expect(&rt, "memory");
        expect_bytes(&rt, &found, wanted.as_bytes(), &text);
    }
}

/// A part of a text that stands in itself: `open` so many times, `core`, and `close` as many times.
struct Nest {
    before: &'static str,
    open: &'static str,
    count: u32,
    core: &'static str,
    close: &'static str,
    after: &'static str,
    answer: &'static str,
}

const THEOREM: &str = "(theorem t () () c () ";

/// As deep as lists may stand in one another.
const NESTS: &[Nest] = &[
    Nest {
        before: "(axiom B () () ",
        open: "(f ",
        count: 4095,
        core: "c",
        close: ")",
        after: ")",
        answer: "6 statements weigh 4108",
    },
    Nest {
        before: THEOREM,
        open: "(M (c) ",
        count: 4093,
        core: "(A (c))",
        close: ")",
        after: ")",
        answer: "6 statements weigh 12295",
    },
    Nest {
        before: THEOREM,
        open: "(:conv c c ",
        count: 4093,
        core: "(A (c))",
        close: ")",
        after: ")",
        answer: "6 statements weigh 12295",
    },
    Nest {
        before: THEOREM,
        open: "(:let k ",
        count: 4093,
        core: "(A (c))",
        close: " k)",
        after: ")",
        answer: "6 statements weigh 8202",
    },
    Nest {
        before: "(theorem t () () c () (:conv c ",
        open: "(:sym ",
        count: 4094,
        core: "c",
        close: ")",
        after: " (A (c))))",
        answer: "6 statements weigh 4113",
    },
];

const GROUND: &str = "(sort w provable)(term c () (w ()))(term f ((a w ())) (w ()))\
    (axiom A ((a w ())) () a)(axiom M ((a w ())) (a) a)";

/// The piece so many times.
fn repeated(alloc: Global, piece: &str, count: u32) -> Result<String, AllocError> {
    let mut text = String::new(alloc);
    for _ in 0..count {
        text.push_str(piece)?;
    }
    Ok(text)
}

/// The answer to a text with the nest.
fn nest_answer(rt: &(impl Abort + AllocGlobal), nest: &Nest) -> Vec<u8> {
    let alloc = rt.alloc();
    let (before, core, after) = (nest.before, nest.core, nest.after);
    let open = repeated(alloc, nest.open, nest.count).expect(rt, "memory");
    let close = repeated(alloc, nest.close, nest.count).expect(rt, "memory");
    let text = format!(in alloc; "{GROUND}{before}{open}{core}{close}{after}").expect(rt, "memory");
    answer(alloc, text.as_bytes(), Mode::Strict).expect(rt, "memory")
}

#[test]
fn deep_texts(rt: HostRuntime) {
    for nest in NESTS {
        let found = nest_answer(&rt, nest);
        expect_bytes(&rt, &found, nest.answer.as_bytes(), nest.open);
    }
}
