//! The engine of a program: it reads the files that a command names, asks it, puts its file and writes its text.
//!
//! `answer` and `run` make exactly the calls that `specs/Run.antt` says: in which order, and how each status ends
//! them. `specs/Consequences.antt` says what follows for whoever knows what the files hold: a status of yes means that
//! the answer is yes, its text was written and its file put. A failure is told only where a call failed.
//! `specs/Ran.antt` has all that a run promises, over any folder and any sink; `run_on_system` is one over the
//! system's.
//!
//! All that is said of a command is one record, `Said` (`specs/Said.antt`): its arguments, the files it reads and
//! puts, its yes, its no, and what a yes promises. A [`Command`] is code for such a record, a [`Program`] arguments to
//! commands. The engine knows neither, so that all clauses are proved once for all commands. Start with
//! `specs/Said.antt`.
#![tactic(auto)]

mod command;
mod engine;
mod inputs;
mod outcome;
mod output;
mod program;
mod status;
mod system;

pub use command::Command;
pub use engine::answer;
pub use inputs::{Contents, Inputs};
pub use outcome::Outcome;
pub use output::{Output, Put};
pub use program::{Program, run};
pub use status::{LONGEST, Status};
pub use system::{exit_code_of, run_on_system};
