//! The program `mz`: its arguments, and the folder and the output of the system.
//!
//! It hands `run_on_system` of `mz_tool_engine` its arguments and the program `Mz` of `mz_tool`, with a seed that the
//! system draws by chance. The clauses there say which calls a run makes of the system, and what follows of them.
#![tactic(auto)]

use mz_tool::{Mz, seed_of};
use mz_tool_engine::{Status, exit_code_of, run_on_system};
use std::process::ExitCode;
use std::rt::Env;
use std::{env, io};

/// The arguments after the program's name, in order.
fn words_of(rt: &(impl Env + AllocGlobal)) -> io::Result<Vec<String>> {
    Ok(env::args(rt)?.skip(1).collect(rt.alloc())?)
}

fn main(rt: HostRuntime) -> ExitCode {
    let status = match words_of(&rt) {
        Ok(words) => {
            let program = Mz { seed: seed_of(&rt) };
            let (status, _folder, _out) = run_on_system(
                &rt,
                rt.alloc(),
                &program,
                &words,
                io::writer(&rt),
            );
            status
        }
        Err(error) if error.kind() == io::ErrorKind::OutOfMemory => Status::Memory,
        Err(_) => Status::Usage,
    };
    if let Some(name) = status.name() {
        let _ = eprintln!(rt; "{name}");
    }
    exit_code_of(status)
}
