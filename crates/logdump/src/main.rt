// logdump PAGES KIND LAYOUT [FILE]: prints the log image in FILE, or on standard input, in words.
// Each slot has its line, then comes a summary; what does not fit is said and passed over.
#![tactic(auto)]

mod arguments;
mod dump;
mod failure;

use arguments::{Arguments, ChangeKind};
use changes::{Addition, Patch};
use dump::dump;
use failure::Failure;
use std::fs;
use std::io::{BufReader, Read};
use std::process::ExitCode;

// A failure is one sentence on standard error and status 1.
fn main(rt: HostRuntime) -> ExitCode {
    match run(&rt) {
        Ok(()) => ExitCode::SUCCESS,
        Err(failure) => {
            let _ = eprintln!(rt; "logdump: {failure}");
            ExitCode::FAILURE
        }
    }
}

fn run(rt: &HostRuntime) -> Result<(), Failure> {
    let arguments = Arguments::parse(rt)?;
    match &arguments.file {
        Some(file) => {
            let reader = BufReader::new(rt.alloc(), fs::open(rt, file.as_str())?)?;
            of_kind(rt, reader, &arguments)
        }
        None => of_kind(rt, BufReader::new(rt.alloc(), rt.stdin())?, &arguments),
    }
}

// The kind of change is an argument of the program, and a type of the library: each kind has a printing of its own.
fn of_kind<R: Read + Drop>(
    rt: &HostRuntime,
    reader: R,
    arguments: &Arguments,
) -> Result<(), Failure> {
    match arguments.kind {
        ChangeKind::Patch => dump::<Patch, R>(rt, reader, arguments.pages, arguments.layout),
        ChangeKind::Addition => dump::<Addition, R>(rt, reader, arguments.pages, arguments.layout),
    }
}
