// Headers and tables, by the bytes that the format says.

use crate::expect::expect;
use mz_layout_tables::Mmb;
use mz_logic_theory::Terms;

/// Two sorts, the term `all {x: nat} (p: wff x): wff`, an axiom of the same parameters and a
/// theorem of the same.
const GEN: &[u8] = &[
    0x4D, 0x4D, 0x30, 0x42, 1, 2, 0, 0, 1, 0, 0, 0, 2, 0, 0, 0, 0x30, 0, 0, 0, 0x38, 0, 0, 0, 0x90,
    0, 0, 0, 0, 0, 0, 0, 0, 0, 0, 0, 0, 0, 0, 0, 4, 0, 0, 0, 0, 0, 0, 0, 2, 0, 0, 0, 0x48, 0, 0, 0,
    2, 0, 0, 0, 0x60, 0, 0, 0, 2, 0, 0, 0, 0x78, 0, 0, 0, 1, 0, 0, 0, 0, 0, 0, 0x81, 1, 0, 0, 0, 0,
    0, 0, 0, 0, 0, 0, 0, 0, 0, 0, 0, 1, 0, 0, 0, 0, 0, 0, 0x81, 0, 0, 0, 0, 0, 0, 0, 0, 0x30, 0x32,
    0x72, 1, 0x36, 0x72, 1, 0, 1, 0, 0, 0, 0, 0, 0, 0x81, 1, 0, 0, 0, 0, 0, 0, 0, 0x30, 0x32, 0x72,
    1, 0x36, 0x72, 1, 0, 0x44, 2, 0x44, 2, 0x45, 2, 0x42, 0x0A, 0x52, 1, 0x16, 0x12, 0x52, 1, 0x10,
    0, 0x46, 0x10, 0x52, 1, 0x16, 0x52, 2, 0x12, 0x52, 1, 0x12, 0x52, 1, 0x10, 0x14, 0, 0,
];

#[test]
fn tables_of_a_file(rt: HostRuntime) {
    assert!(rt; GEN.len() < 200);
    let Ok(mmb) = Mmb::read(GEN) else {
        panic!(rt; "the file has a layout");
    };
    assert!(rt; mmb.terms() == 1 && mmb.thms() == 2);
    expect(&rt, mmb.sorts() == 2, "sorts");
    expect(&rt, mmb.arity(0) == 2, "the term's arity");
    expect(&rt, mmb.thm_arity(1) == 2, "the theorem's arity");
    expect(&rt, mmb.term_sort(0) == 0, "the term's sort");
    expect(&rt, mmb.term_word_at(0, 0) == 0x48, "the term's first word");
    expect(&rt, mmb.unify_of_term(0).0 == 0x60, "the term's stream");
    expect(&rt, mmb.unify_of_thm(1).0 == 0x88, "the theorem's stream");
    expect(&rt, mmb.proof_at() == 0x90, "the list");
}
