// drill [OPTIONS]: makes the calls of a script with power lost at every operation of the devices, in every way, and looks at every page after the restart.
// It prints a line for each place at which power was lost, and a summary. `drill --help` has the options.
#![tactic(auto)]

mod arguments;
mod battery_memory;
mod drills;
mod failure;
mod kind;
mod ledger;
mod outcome;
mod place;
mod report;
mod run;
mod scripted_memory;
mod step;
mod table;
mod tally;

use arguments::{Arguments, ChangeKind, HELP, Request};
use changes::{Addition, Patch};
use drills::drill;
use failure::Failure;
use std::process::ExitCode;
use tally::Tally;

// A failure is one sentence on standard error.
fn main(rt: HostRuntime) -> ExitCode {
    match try_main(&rt) {
        Ok(code) => code,
        Err(failure) => {
            let _ = eprintln!(rt; "drill: {failure}");
            failure.exit_code()
        }
    }
}

fn try_main(rt: &HostRuntime) -> Result<ExitCode, Failure> {
    match Request::parse(rt)? {
        Request::Help => {
            rt.println(HELP)?;
            Ok(ExitCode::SUCCESS)
        }
        Request::Drill(arguments) => Ok(of_kind(rt, &arguments)?.exit_code()),
    }
}

// The kind of change is an argument of the program, and a type of the library.
fn of_kind(rt: &HostRuntime, arguments: &Arguments) -> Result<Tally, Failure> {
    match arguments.kind {
        ChangeKind::Patch => drill::<Patch>(rt, arguments),
        ChangeKind::Addition => drill::<Addition>(rt, arguments),
    }
}
