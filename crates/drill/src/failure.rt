// Why the program gives up, each in a sentence.
use crate::step::Stopped;
use device::LogFault;
use std::alloc::AllocError;
use std::io;
use std::process::ExitCode;
use thiserror::Error;

#[derive(Debug, Drop, Error)]
pub enum Failure {
    #[error(transparent)]
    Misuse(#[from] Misuse),
    #[error("without a loss of power the script ends early: {0}")]
    Refused(Stopped),
    #[error("power was not lost in operation {0}, though there is one")]
    NotLost(u32),
    #[error("battery memory lost power elsewhere than scripted memory")]
    LostElsewhere,
    #[error("there is not enough memory for the drill")]
    OutOfMemory(#[from(alloc)] AllocError),
    #[error("after analysis {0}")]
    Log(#[from] LogFault),
    #[error(transparent)]
    Io(#[from] io::Error),
}

// What is wrong with the arguments, each in a sentence that says what was expected.
#[derive(Clone, Copy, Debug, Error)]
pub enum Misuse {
    #[error("expected an option such as --pages 2; drill --help names them")]
    Option,
    #[error("expected a value behind the last option")]
    NoValue,
    #[error("expected a number of pages from 1 to 64")]
    Pages,
    #[error("expected a number of slots from 8 to 4096")]
    Slots,
    #[error("expected a number of jobs from 1 to 1000")]
    Jobs,
    #[error("expected a number of changes from 1 to 1000")]
    Changes,
    #[error("expected the kind of change, patch or addition")]
    Kind,
    #[error("expected the memory, scripted, forcing, battery or all")]
    Memory,
    #[error("the log has too few slots for this script; --slots gives it more")]
    TooFewSlots,
}

impl Failure {
    // 2 where the arguments are to blame.
    pub(crate) fn exit_code(&self) -> ExitCode {
        match self {
            Failure::Misuse(_) => ExitCode::from(2),
            _ => ExitCode::FAILURE,
        }
    }
}
