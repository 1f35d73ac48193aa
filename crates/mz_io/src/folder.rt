//! A folder of files, as the program sees it.
ghost use Rattle.std.specs.Prelude.{◌≡◌, ◌≤◌, ◌++◌, ◌∷◌, List, [], ℕ, length, Option, Some, IsSome, OnOk, OnErr, IfOk, is_ok, if◌then◌else◌};
ghost use Rattle.mz_io.specs.Calls.{Call, starts, puts, pulled};
ghost use Rattle.mz_io.specs.Outside.{HasCause, SameFiles, SameOthers, Pulls, Rooms, HasRoom, serves, without_first};

use thiserror::Error;

/// A call on the outside that failed. It was counted there.
#[derive(Clone, Copy, Debug, PartialEq, Eq, Error)]
#[error("a call on a file or on the output failed")]
pub struct Failed;

/// A folder of files, read from the front one at a time and written whole.
///
/// Each folder tells the calls that were made on it, with their answers. What its files hold is told by a folder in memory, and isn't by one of the system. So is whether
/// a coming call is listed to fail, and what rooms are made: then the causes of a failure are known.
pub trait Folder {
    /// The calls so far, with their answers: a log that each call makes longer by itself.
    ghost calls: { Self → List Call };

    /// That the folder tells what its files hold.
    ghost told: { Type 0 };

    /// The file of a name, where there is one.
    ghost file: { Self → List ℕ → Option (List ℕ) };

    /// What is left of the file that was started, and nothing where none is.
    ghost left: { Self → List ℕ };

    /// How often `start` and `pull` have failed: a count that never falls.
    ghost faults: { Self → ℕ };

    /// How often `put` has failed: a count that never falls.
    ghost put_faults: { Self → ℕ };

    /// That no coming call is listed to fail. A folder that can't tell never says so.
    ghost is_clear: { Self → Type 0 };

    /// The rooms made for files to come.
    ghost rooms: { Self → Rooms };

    /// Starts to read a file from its front. A name that isn't there is a failure.
    fn start(&mut self, name: &str) -> Result<(), Failed>
        ensures logged { calls self.new ≡ calls self.old ++ starts name.now (is_ok result) ∷ [] }
        ensures started { told → OnOk result (file self.old name.now ≡ Some (left self.new)) }
        ensures stopped { told → OnErr result (left self.new ≡ []) }
        ensures files { told → SameFiles (file self.old) (file self.new) }

        // A failure was counted.
        ensures cause { HasCause (faults self.old) (faults self.new) result }
        ensures put_faults { put_faults self.new ≡ put_faults self.old }

        // While no coming call is listed to fail, only a missing name fails.
        ensures stays_clear { is_clear self.old → is_clear self.new }
        ensures only_missing { is_clear self.old → IsSome (file self.old name.now) → faults self.new ≡ faults self.old }
        ensures rooms { is_clear self.old → rooms self.new ≡ rooms self.old };

    /// Reads the next bytes of the started file into the front of `buf`, and says how many: none
    /// only at the end, where nothing is started, or into an empty buffer. After a failure nothing
    /// is started.
    fn pull(&mut self, buf: &mut [u8]) -> Result<usize, Failed>
        ensures logged { calls self.new ≡ calls self.old ++ pulled result buf.new ∷ [] }
        ensures bound { IfOk result (λ n. n ≤ length buf.new) }
        ensures bytes { told → Pulls (left self.old) (left self.new) result buf.new }
        ensures files { told → SameFiles (file self.old) (file self.new) }

        // A failure was counted.
        ensures cause { HasCause (faults self.old) (faults self.new) result }
        ensures put_faults { put_faults self.new ≡ put_faults self.old }

        // While no coming call is listed to fail, none fails.
        ensures stays_clear { is_clear self.old → is_clear self.new }
        ensures never { is_clear self.old → faults self.new ≡ faults self.old }
        ensures rooms { is_clear self.old → rooms self.new ≡ rooms self.old };

    /// Writes a whole file, in place of one that is there. Nothing is started then. After a failure
    /// nothing is told of the file of this name.
    fn put(&mut self, name: &str, bytes: &[u8]) -> Result<(), Failed>
        ensures logged { calls self.new ≡ calls self.old ++ puts name.now bytes.now (is_ok result) ∷ [] }
        ensures put { told → OnOk result (file self.new name.now ≡ Some bytes.now) }
        ensures others { told → SameOthers name.now (file self.old) (file self.new) }
        ensures stopped { told → left self.new ≡ [] }

        // A failure was counted.
        ensures cause { HasCause (put_faults self.old) (put_faults self.new) result }
        ensures faults { faults self.new ≡ faults self.old }

        // While no coming call is listed to fail, only a want of room fails, and a room serves once.
        ensures stays_clear { is_clear self.old → is_clear self.new }
        ensures only_room { is_clear self.old → HasRoom (rooms self.old) name.now (length bytes.now) → put_faults self.new ≡ put_faults self.old }
        ensures rooms { is_clear self.old → rooms self.new
            ≡ (if is_ok result then without_first (serves name.now (length bytes.now)) (rooms self.old) else rooms self.old) };

    /// A folder of which no coming call is listed to fail tells what its files hold.
    ghost clear_tells: { (folder : Self) → is_clear folder → told };
}
