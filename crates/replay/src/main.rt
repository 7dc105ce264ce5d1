// replay [FILE]: runs the script in FILE, or on standard input, and prints what the server answers (docs/SCRIPTS.md).
// A line that is no command is refused by its number, and the run goes on; the status is then 1.
#![tactic(auto)]

mod bad_line;
mod command;
mod failure;
mod parser;
mod printer;
mod replay;
mod runner;
mod session;

use failure::Failure;
use replay::replay;
use std::process::ExitCode;
use std::{env, fs};

fn main(rt: HostRuntime) -> ExitCode {
    match run(&rt) {
        Ok(0) => ExitCode::SUCCESS,
        Ok(_) => ExitCode::FAILURE,
        Err(failure) => {
            let _ = eprintln!(rt; "replay: {failure}");
            ExitCode::FAILURE
        }
    }
}

// Answers how many lines were refused.
fn run(rt: &HostRuntime) -> Result<u64, Failure> {
    let mut words = env::args(rt)?;
    let _program = words.next();
    let file = words.next();
    if words.next().is_some() {
        return Err(Failure::Usage);
    }
    match file {
        Some(file) => replay(rt, fs::open(rt, file.as_str())?),
        None => replay(rt, rt.stdin()),
    }
}
