// What holds of all texts. These functions do nothing: a caller learns their clauses.
ghost use Rattle.std.specs.Prelude.{◌≡◌, ℕ, List};
ghost use Rattle.mz_asm.specs.Laws.{BinariesAreListed, CompiledFilesAreNormal, HasOneAnswer, ListingsAreAssembled, NormalFilesAreBinaries, NormalFilesAreListed};
ghost use Rattle.mz_asm.specs.Lines.{IsLine};
ghost use Rattle.mz_asm.specs.declared.line.Line.{Line};

/// Bytes are one line of a listing at the most.
pub fn lines_are_one()
    ensures { (text : List ℕ) (l m : Line) → IsLine text l → IsLine text m → l ≡ m }
{}

/// A text is the listing of one binary, or is one that would be too long, or breaks one first rule,
/// and never two of these.
pub fn assembly_is_one()
    ensures { (text : List ℕ) → HasOneAnswer text }
{}

/// A binary that a text is assembled to is in the normal layout, and the text is its listing. And each
/// binary in the normal layout of at most 4,294,967,295 bytes has a listing, which is assembled to it.
pub fn listings_are_assembled()
    ensures listed { BinariesAreListed }
    ensures normal { NormalFilesAreListed }
    ensures assembled { ListingsAreAssembled }
{}

/// A file of at most 4,294,967,295 bytes is in the normal layout, by its bytes, exactly where some text
/// is assembled to it.
pub fn normal_files_are_binaries()
    ensures { NormalFilesAreBinaries }
{}

/// What a proof text compiles to is in the normal layout.
pub fn compiled_files_are_normal()
    ensures { CompiledFilesAreNormal }
{}
