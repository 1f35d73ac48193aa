//! Tests of the outside: calls on it that fail one by one, and each command with ample memory and with none.
//!
//! Contracts let a call answer out of memory. That one with ample memory doesn't is no clause, so it is tested here.
//! So are files and streams that fail. It has no code of its own.
#![tactic(auto)]

#[cfg(test)]
mod ample;
#[cfg(test)]
mod expect;
#[cfg(test)]
mod failing;
#[cfg(test)]
mod failing_system;
#[cfg(test)]
mod faults;
#[cfg(test)]
mod files;
#[cfg(test)]
mod io;
#[cfg(test)]
mod room;
#[cfg(test)]
mod runs;
#[cfg(test)]
mod show;
#[cfg(test)]
mod slow;
