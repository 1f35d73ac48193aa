// Laws on the definitions: the contract of each function is one. A body only calls the laws of lower crates.
ghost use Rattle.mz_decompile.specs.Laws.{AcceptedAreRestated, PlainTextsAreTexts, RestatedAlike};

use mz_decompile_text::stated_texts_are_read;
use mz_trace::{bodies_make_proofs, made_proofs_prove};

/// The statements of each pair that is accepted can be restated, in one way.
pub fn accepted_are_restated()
    ensures some { AcceptedAreRestated }
    ensures alike { RestatedAlike }
{
    bodies_make_proofs();
}

/// The text of a pair that is accepted, of which the binary is bytes, is well typed and within the compiler's limits,
/// and says the binary's statements.
pub fn plain_texts_are_texts()
    ensures { PlainTextsAreTexts }
{
    made_proofs_prove();
    stated_texts_are_read();
}
