//! The verifier as commands: `verify` and `show` over any folder and any sink, and nothing else.
//!
//! The engine (`mz_tool_engine`) runs the program [`Verifier`] of these two: `specs/Verify.antt` and `specs/Show.antt`
//! have all that is said of them. `specs/Requests.antt` says which arguments ask for which.
//!
//! `mz_verifier` and `mz_tool` both stand on it, so that who needs only a verifier can have a program without compiler
//! and proof texts. Start with `specs/Verify.antt`, then `src/judge.rt`.
#![tactic(auto)]

mod command;
mod judge;
mod list;
mod program;
mod seed;
mod verdict;

pub use command::VerifierCommand;
pub use judge::{VerifyCommand, verify};
pub use list::ShowCommand;
pub use mz_store::Seed;
pub use mz_tool_engine::Status;
pub use program::Verifier;
pub use seed::seed_of;
pub use verdict::answered_by;
