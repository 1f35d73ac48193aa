//! Tests of what no run of the program shows: lexemes, nodes, stores, streams, bodies and the writer, each by itself.
//!
//! Most tests are rows under `tests/`, which the built program answers. What it can't be asked stands here, with
//! expected values that were written by hand, and that calls succeed where memory is ample. It has no code of its
//! own.
#![tactic(auto)]

#[cfg(test)]
mod binary;
#[cfg(test)]
mod cmd;
#[cfg(test)]
mod expect;
#[cfg(test)]
mod layout;
#[cfg(test)]
mod lex;
#[cfg(test)]
mod logic;
#[cfg(test)]
mod machine;
#[cfg(test)]
mod places;
#[cfg(test)]
mod sexpr;
#[cfg(test)]
mod store;
#[cfg(test)]
mod trace;
#[cfg(test)]
mod unify;
#[cfg(test)]
mod weights;
#[cfg(test)]
mod writer;
