// Why the program gives up, each in a sentence that says what was expected.
use device::LogFault;
use recovery_log::NoteError;
use std::alloc::AllocError;
use std::io;
use thiserror::Error;

#[derive(Debug, Drop, Error)]
pub enum Failure {
    #[error("expected PAGES KIND LAYOUT [FILE], as in: logdump 64 patch slots log.img")]
    Usage,
    #[error("expected the number of pages first, from 1 to 65536")]
    Pages,
    #[error("expected the kind of change second, patch or addition")]
    Kind,
    #[error("expected the layout of the image third, slots or pages")]
    Layout,
    #[error("there is not enough memory for the summary")]
    OutOfMemory(#[from(alloc)] AllocError),
    #[error("the image has more slots than four bytes can number")]
    TooManySlots,
    #[error(transparent)]
    Note(#[from] NoteError),
    #[error(transparent)]
    Log(#[from] LogFault),
    #[error(transparent)]
    Io(#[from] io::Error),
}
