//! Commands of a binary: their codes, their spellings in bytes, the list of statements, and what a refusal names.
//!
//! Statements, proofs and unify streams are spelled in one way: a byte with the code and the size of the argument,
//! then the argument, lowest byte first. `cmd_at` gives the command at a place exactly where one is spelled there,
//! and `stmt_at` the head of a statement, the list's end, or the first that fails. `put_cmd` appends the shortest
//! spelling. Laws say that what is spelled is read again, and that no spelling begins another.
//!
//! [`Steps`] counts executed commands as ghost state: it takes no bytes, and contracts see a number. [`K`] are the
//! rules by which a binary is refused, with their messages. Start with `specs/Codes.antt`, then
//! `specs/Spelling.antt`.
#![tactic(auto)]

mod code;
mod command;
mod rule;
mod statement;
mod steps;

pub use code::{
    END, ProofCode, StatementCode, UnifyCode, UnknownCode, codes_are_read_back, is_known_code,
};
pub use command::{
    Cmd, CmdFault, Mem, cmd_at, one_spelling_at_the_front, put_cmd, shortest_is_least,
    spelling_is_read_again,
};
pub use rule::{K, Refusal};
pub use statement::{StmtAt, StmtFault, stmt_at};
pub use steps::Steps;
