// Each command with ample memory, over files that have a statement of each kind.
use crate::expect::expect_of;
use crate::runs::{ended, folder_of};
use mz_io::{MemFolder, MemSink};
use mz_tool::Status;
use std::process::Abort;

/// Delimiters, a notation of each form and a coercion, and what the text declares.
const SPEC: &str = "delimiter $ ( $ $ ) $;
provable sort wff;
sort nat;
term eq (a b: nat): wff;
infixl eq: $=$ prec 50;
term all {x: nat} (p: wff x): wff;
notation all {x: nat} (p: wff x): wff = ($A$: 30) x p;
term not (a: wff): wff;
prefix not: $~$ prec 41;
term true (a: nat): wff;
coercion true: nat > wff;
axiom refl (a: nat): $ a = a $;
axiom gen {x: nat} (p: wff x): $ p $ > $ A x p $;
axiom holds (a: nat): $ a $;
def same {.x: nat}: wff = $ A x x = x $;
theorem t: $ same $;
theorem u {x: nat}: $ ~ same $ > $ ~ (A x x = x) $;
";

const TEXT: &str = "(sort wff provable)
(sort nat)
(term eq ((a nat ()) (b nat ())) (wff ()))
(term all ((x nat) (p wff (x))) (wff ()))
(term not ((a wff ())) (wff ()))
(term true ((a nat ())) (wff ()))
(axiom refl ((a nat ())) () (eq a a))
(axiom gen ((x nat) (p wff (x))) (p) (all x p))
(axiom holds ((a nat ())) () (true a))
(def same () (wff ()) ((x nat)) (all x (eq x x)))
(local theorem l ((x nat)) () (all x (eq x x)) () (:let k (refl (x)) (gen (x (eq x x)) k)))
(theorem t () () same ((x nat)) (:conv same (:unfold same () (x) (all x (eq x x))) (l (x))))
(theorem u ((x nat)) ((h (not same))) (not (all x (eq x x))) ()
  (:conv (not (all x (eq x x))) (not (:sym (:unfold same () (x) (:refl (all x (eq x x)))))) h))
";

/// The files that the commands put.
const MADE: &[&str] = &["bin", "draft", "made", "back", "again"];

const COMMANDS: &[&str] = &[
    "compile text bin",
    "compile_draft text draft",
    "spec text made",
    "verify spec bin",
    "verify made bin",
    "portable spec bin",
    "axioms spec bin",
    "draft spec bin",
    "decompile spec bin back",
    "sample 2",
];

/// Runs a command to its end, and returns what it writes.
fn done(rt: &(impl Abort + AllocGlobal), folder: &mut MemFolder, line: &str) -> MemSink {
    let (status, out) = ended(rt, line, folder, 16_384);
    expect_of(rt, status == Status::Done, "the status", line);
    out
}

#[test]
fn each_command_finds_memory(rt: HostRuntime) {
    let files = [("spec", SPEC.as_bytes()), ("text", TEXT.as_bytes())];
    let mut folder = folder_of(&rt, &files);
    for name in MADE {
        folder.room(name, 16_384).expect(&rt, "memory");
    }
    for line in COMMANDS {
        done(&rt, &mut folder, line);
    }
    let listing = done(&rt, &mut folder, "show bin");
    folder.add("list", listing.bytes()).expect(&rt, "memory");
    done(&rt, &mut folder, "assemble list again");
    let is_same = folder.file("again") == folder.file("bin");
    expect_of(&rt, is_same, "the bytes", "assemble");
}
