// The files of these tests, by the bytes that the format says.

/// One sort, which is provable.
pub const ONE: &[u8] = &[
    0x4d, 0x4d, 0x30, 0x42, 1, 1, 0, 0, 0, 0, 0, 0, 0, 0, 0, 0, 0x30, 0, 0, 0, 0x30, 0, 0, 0, 0x30,
    0, 0, 0, 0, 0, 0, 0, 0, 0, 0, 0, 0, 0, 0, 0, 4, 0, 0, 0, 0, 0, 0, 0, 0x44, 2, 0,
];

/// Implication: its term, the axioms `a -> b -> a` and `a -> b`, `a` give `b`, and the theorem that `b -> a`
/// follows from `a`.
pub const IMP: &[u8] = &[
    0x4d, 0x4d, 0x30, 0x42, 1, 1, 0, 0, 1, 0, 0, 0, 3, 0, 0, 0, 0x30, 0, 0, 0, 0x38, 0, 0, 0, 0xb8,
    0, 0, 0, 0, 0, 0, 0, 0, 0, 0, 0, 0, 0, 0, 0, 4, 0, 0, 0, 0, 0, 0, 0, 2, 0, 0, 0, 0x50, 0, 0, 0,
    2, 0, 0, 0, 0x68, 0, 0, 0, 2, 0, 0, 0, 0x80, 0, 0, 0, 2, 0, 0, 0, 0xa0, 0, 0, 0, 0, 0, 0, 0, 0,
    0, 0, 0, 0, 0, 0, 0, 0, 0, 0, 0, 0, 0, 0, 0, 0, 0, 0, 0, 0, 0, 0, 0, 0, 0, 0, 0, 0, 0, 0, 0, 0,
    0, 0, 0, 0x30, 0x32, 0x30, 0x72, 1, 0x32, 0, 0, 0, 0, 0, 0, 0, 0, 0, 0, 0, 0, 0, 0, 0, 0, 0, 0,
    0x72, 1, 0x36, 0x32, 0x36, 0x30, 0x32, 0x72, 1, 0, 0, 0, 0, 0, 0, 0, 0, 0, 0, 0, 0, 0, 0, 0, 0,
    0, 0, 0, 0, 0, 0, 0, 0x30, 0x72, 1, 0x32, 0x36, 0x32, 0, 0, 0x44, 2, 0x45, 2, 0x42, 9, 0x12,
    0x52, 1, 0x12, 0x10, 0x10, 0, 0x42, 0x0c, 0x12, 0x52, 1, 0x10, 0x16, 0x12, 0x16, 0x52, 1, 0,
    0x46, 0x1c, 0x12, 0x16, 0x12, 0x52, 1, 0x12, 0x52, 1, 0x12, 0x10, 0x10, 0x14, 0x52, 2, 0x12,
    0x52, 1, 0x12, 0x10, 0x52, 1, 0x12, 0x10, 0x54, 1, 0, 0,
];

/// An equation, and a definition of an equation of a dummy with itself.
pub const DUMMY: &[u8] = &[
    0x4d, 0x4d, 0x30, 0x42, 1, 2, 0, 0, 2, 0, 0, 0, 0, 0, 0, 0, 0x30, 0, 0, 0, 0x40, 0, 0, 0, 0x68,
    0, 0, 0, 0, 0, 0, 0, 0, 0, 0, 0, 0, 0, 0, 0, 4, 0, 0, 0, 0, 0, 0, 0, 2, 0, 0, 0, 0x40, 0, 0, 0,
    0, 0, 0x80, 0, 0x58, 0, 0, 0, 0, 0, 0, 0, 0, 0, 0, 1, 0, 0, 0, 0, 0, 0, 0, 1, 0, 0, 0, 0, 0, 0,
    0, 0, 0, 0, 0, 0, 0, 0, 0, 0, 0x30, 0x73, 1, 0x32, 0, 0, 0, 0, 0x44, 2, 0x44, 2, 0x45, 2, 0x45,
    7, 0x53, 1, 0x12, 0x10, 0, 0,
];

/// The sort.
pub const ONE_SPEC: &str = "provable sort wff;";

/// Implication, its formulas in infix form.
pub const IMP_SPEC: &str = "delimiter $ ( $ $ ) $;
provable sort wff;
term im (a b: wff): wff;
infixr im: $->$ prec 25;
axiom ax_1 (a b: wff): $ a -> b -> a $;
axiom ax_mp (a b: wff): $ a -> b $ > $ a $ > $ b $;
theorem a1i (a b: wff): $ a $ > $ b -> a $;
";

/// One provable sort.
pub const SORT: &str = "(sort wff provable)
";

/// The listing of the smallest binary.
pub const ONE_LISTING: &str = "sort 0 4\nend\n";

/// That of the binary with a dummy.
pub const DUMMY_LISTING: &str = "sort 0 4
sort 1 0
term 0 2
 param 0100000000000000
 param 0100000000000000
 result 0000000000000000
def 1 0
 result 0000000000000000
 u term 0
 u dummy 1
 u ref 0
 u end
 p dummy 1
 p ref 0
 p term 0
 p end
end
";
