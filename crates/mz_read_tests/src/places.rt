// Where the statements of a specification and their names stand, and which definitions leave their body to a binary.
ghost use Rattle.std.specs.Prelude.{◌<◌, length};

use mz_base::Hashing;
use mz_logic_theory::{Decl, TermForm};
use mz_spec::{SpecRead, read_spec};
use mz_spec_theory::Spec;
use std::process::Abort;

/// The place of a statement, that of its name, the name, and whether it is a definition without a body.
type Named = (u32, u32, &'static str, bool);

/// Specifications with what they declare, worked out by hand.
const TEXTS: &[(&str, &[Named])] = &[
    (
        "sort s; def d: s;",
        &[(0, 5, "s", false), (8, 12, "d", true)],
    ),
    (
        "strict free sort s; pure sort p; provable sort w; term c: w; axiom sort (s: s) (p: p) {x: p}: w > $ c $;",
        &[
            (0, 17, "s", false),
            (20, 30, "p", false),
            (33, 47, "w", false),
            (50, 55, "c", false),
            (61, 67, "sort", false),
        ],
    ),
    (
        "provable sort wff;\nterm not (a: wff): wff;\ndef nn (a: wff): wff = $ not ( not a ) $;\ntheorem fold (a: wff): $ not ( not a ) $ > $ nn a $;\n",
        &[
            (0, 14, "wff", false),
            (19, 24, "not", false),
            (43, 47, "nn", false),
            (85, 93, "fold", false),
        ],
    ),
];

fn is_abstract(decl: &Decl) -> bool {
    match decl {
        Decl::Term(term) => matches!(term.form, TermForm::Abstract),
        _ => false,
    }
}

/// Fails unless the declaration is the one that is wanted.
fn expect_declared(rt: &impl Abort, text: &str, spec: &Spec, i: u32, wanted: &[Named])
    requires { i < length spec.now }
{
    let (from, to) = spec.name(i);
    let name = text.get(from as usize..to as usize);
    let found = (
        spec.place(i),
        from,
        name.unwrap_or_default(),
        is_abstract(spec.decl(i)),
    );
    assert!(rt; wanted.get(i as usize) == Some(&found), "{i} of {text}");
}

fn expect_all(rt: &impl Abort, text: &str, spec: &Spec, wanted: &[Named]) {
    assert!(rt; spec.len() as usize == wanted.len(), "{text}");
    for i in 0..spec.len() {
        expect_declared(rt, text, spec, i, wanted);
    }
}

#[test]
fn statements_and_names(rt: HostRuntime) {
    for (text, wanted) in TEXTS {
        assert!(rt; text.len() < 1000);
        match read_spec(rt.alloc(), Hashing::fixed(), text.as_bytes()) {
            SpecRead::Spec(spec) => expect_all(&rt, text, &spec, wanted),
            SpecRead::Refused(_) | SpecRead::Mem => panic!(rt; "{text}"),
        }
    }
}
