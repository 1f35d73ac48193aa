//! A sink for what the program writes.
ghost use Rattle.std.specs.Prelude.{◌≡◌, ◌≤◌, ◌<◌, ◌+◌, ◌++◌, ◌∷◌, List, [], ℕ, length, IfOk};
ghost use Rattle.mz_io.specs.Calls.{Call, taken, written as write_of};
ghost use Rattle.mz_io.specs.Outside.{HasCause, Appends};

use crate::Failed;

/// A sink of bytes, as the program sees it: standard output, or one in memory.
///
/// Each sink tells the calls that were made on it, with their answers.
pub trait Sink {
    /// The calls so far, with their answers: a log that each call makes longer by itself.
    ghost calls: { Self → List Call };

    /// That the sink tells what was written.
    ghost told: { Type 0 };

    /// The bytes written so far.
    ghost written: { Self → List ℕ };

    /// How often `write` has failed: a count that never falls.
    ghost faults: { Self → ℕ };

    /// That no coming call is listed to fail. A sink that can't tell never says so.
    ghost is_clear: { Self → Type 0 };

    /// How many bytes it still takes.
    ghost room: { Self → ℕ };

    /// Writes a prefix of the piece, and says how much of it: something, unless the piece is empty.
    fn write(&mut self, piece: &[u8]) -> Result<usize, Failed>
        ensures logged { calls self.new ≡ calls self.old ++ write_of result piece.now ∷ [] }
        ensures bound { IfOk result (λ n. n ≤ length piece.now) }
        ensures some { IfOk result (λ n. 0 < length piece.now → 0 < n) }
        ensures bytes { told → Appends (written self.old) (written self.new) result piece.now }

        // A failure was counted.
        ensures cause { HasCause (faults self.old) (faults self.new) result }

        // While no coming call is listed to fail, only a full sink fails.
        ensures stays_clear { is_clear self.old → is_clear self.new }
        ensures only_full { is_clear self.old → (0 < length piece.now → 0 < room self.old) → faults self.new ≡ faults self.old }
        ensures lessens { is_clear self.old → IfOk result (λ n. room self.new + n ≡ room self.old) };

    /// What a sink tells as written is what its calls took.
    ghost tells: { told → (sink : Self) → written sink ≡ taken (calls sink) };
}
