// A command, as the engine asks it.
ghost use Rattle.std.specs.Prelude.{◌≡◌, ◌≤◌, ℕ, List, Option, length};
ghost use Rattle.mz_io.specs.Calls.{Grows};
ghost use Rattle.mz_io.specs.Outside.{HasCause};
ghost use Rattle.mz_tool_engine.specs.Said.{Said};
ghost use Rattle.mz_tool_engine.specs.Inputs.{names_of, name_of, contents_of, AreWithin};
ghost use Rattle.mz_tool_engine.specs.Run.{IsAnswer, longest};
ghost use Rattle.mz_tool_engine.specs.Answering.{IsAnswering, IfLeft};

use crate::inputs::{Contents, Inputs};
use crate::outcome::Outcome;
use crate::output::Output;
use mz_io::{Failed, Sink};
use std::alloc::Global;

/// A command, with the names of its files.
pub trait Command {
    /// All that is said of it.
    ghost says: { Self → Said };

    /// The files that it reads, in order.
    fn inputs(&self) -> Inputs<'_>
        ensures { names_of result ≡ (says self.now).reads };

    /// The file that it puts, where it puts one.
    fn output(&self) -> Output<'_>
        ensures { name_of result ≡ (says self.now).puts };

    /// What it answers over the contents of its files. What it writes before, as it goes, is a prefix of the answer's text;
    /// an error is a write that failed.
    fn answer<O: Sink>(
        &self,
        alloc: Global,
        contents: &Contents,
        out: &mut O,
    ) -> Result<Outcome, Failed>
        requires files { length (contents_of contents.now) ≡ length (says self.now).reads }
        requires short { AreWithin longest (contents_of contents.now) }
        ensures log { Grows (O.calls out.old) (O.calls out.new) (IsAnswering (says self.now) (contents_of contents.now) result) }

        // A failure of the sink was counted.
        ensures cause { HasCause (O.faults out.old) (O.faults out.new) result }

        // While no coming call is listed to fail and there is room for the answer's text, nothing fails, and there is room for
        // what is left of it.
        ensures only_full { O.is_clear out.old → ((put : Option (List ℕ)) (text : List ℕ) → IsAnswer (says self.now) (contents_of contents.now) put text → length text ≤ O.room out.old)
            → O.faults out.new ≡ O.faults out.old }
        ensures left { O.is_clear out.old → ((put : Option (List ℕ)) (text : List ℕ) → IsAnswer (says self.now) (contents_of contents.now) put text → length text ≤ O.room out.old)
            → O.is_clear out.new × IfLeft result (λ text. length text ≤ O.room out.new) };
}
