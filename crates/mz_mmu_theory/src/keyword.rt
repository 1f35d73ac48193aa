//! The keywords with which conversions and proofs begin.
ghost use Rattle.std.specs.Prelude.{◌≡◌, bytes_eq};
ghost use Rattle.mz_mmu_theory.specs.Proofs.{conv_keyword_of, proof_keyword_of};

/// Whether the atom is this one.
pub fn is(word: &[u8], other: &[u8]) -> bool
    ensures { result ≡ bytes_eq word.now other.now }
{
    word == other
}

/// The keywords with which a conversion or a proof may begin.
#[derive(Clone, Copy)]
pub enum Keyword {
    /// `:conv`
    Conv,
    /// `:let`
    Let,
    /// `:refl`
    Refl,
    /// `:sym`
    Sym,
    /// `:unfold`
    Unfold,
    /// `:sorry`
    Sorry,
    /// Any other atom, which is to be a name.
    Other,
}

impl Keyword {
    /// The keyword with which a conversion begins.
    pub fn of_conv(word: &[u8]) -> Keyword
        ensures { result ≡ conv_keyword_of word.now }
    {
        if is(word, b":refl") {
            Keyword::Refl
        } else if is(word, b":sym") {
            Keyword::Sym
        } else if is(word, b":unfold") {
            Keyword::Unfold
        } else if is(word, b":sorry") {
            Keyword::Sorry
        } else {
            Keyword::Other
        }
    }

    /// The keyword with which a proof begins.
    pub fn of_proof(word: &[u8]) -> Keyword
        ensures { result ≡ proof_keyword_of word.now }
    {
        if is(word, b":conv") {
            Keyword::Conv
        } else if is(word, b":let") {
            Keyword::Let
        } else if is(word, b":sorry") {
            Keyword::Sorry
        } else {
            Keyword::Other
        }
    }
}
