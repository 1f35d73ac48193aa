ghost use Rattle.std.specs.Prelude.{ℕ, List};
ghost use Rattle.mz_sexpr.specs.Laws.{HasOneReading, IsReadOrRefused};

/// A text has at most one list of nodes.
pub fn one_reading()
    ensures { (text : List ℕ) → HasOneReading text }
{}

/// A text has either a list of nodes or exactly one refusal.
pub fn reading_or_refusal()
    ensures { (text : List ℕ) → IsReadOrRefused text }
{}
