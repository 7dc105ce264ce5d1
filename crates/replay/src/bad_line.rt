// Why a line is refused, in words that say what was expected.
use server::Refusal;
use std::alloc::AllocError;
use std::fmt;
use thiserror::Error;

#[derive(Clone, Copy, Debug, PartialEq, Eq, Error)]
pub enum BadLine {
    #[error("expected text")]
    NotText,
    #[error("expected {0}")]
    Expected(Argument),
    #[error("there are too many words")]
    TooManyWords,
    #[error("only a call has outcomes")]
    NotACall,
    #[error("an outcome is given twice")]
    OutcomeTwice,
    #[error("no store line stands before this one")]
    NoStore,
    #[error("the store has no such page")]
    NoSuchPage,
    #[error("the log has no such slot")]
    NoSuchSlot,
    #[error("the log is full")]
    LogFull,
    #[error("there is not enough memory")]
    OutOfMemory,
    // A receipt out of turn is one of a scratch server, whose passes are accepted.
    #[error("a scratch server gave no receipt: {0}")]
    NoReceipt(Refusal),
}

// What a word of a line should be.
#[derive(Clone, Copy, Debug, PartialEq, Eq)]
pub enum Argument {
    Command,
    Pages,
    Slots,
    Kind,
    Job,
    Page,
    Slot,
    Lrc,
    Length,
    Bytes,
    PageBytes,
    SlotBytes,
    Device,
    Outcome,
    Operation,
    Choice,
    Raise,
}

impl fmt::Display for Argument {
    fn fmt<W: fmt::Write>(&self, f: &mut fmt::Formatter<W>) -> fmt::Result {
        f.write_str(match self {
            Argument::Command => "store, a call, pokepage, pokeslot, pokeappend, dark or dump",
            Argument::Pages => "pages= and a number, at most 65536",
            Argument::Slots => "slots= and a number, at most 4294967294",
            Argument::Kind => "kind=patch or kind=addition",
            Argument::Job => "a job's number",
            Argument::Page => "a page's number",
            Argument::Slot => "a slot's number",
            Argument::Lrc => "an LRC",
            Argument::Length => "a buffer's length, at most 65536",
            Argument::Bytes => "bytes, each as two lowercase hex digits",
            Argument::PageBytes => "256 bytes, each as two lowercase hex digits",
            Argument::SlotBytes => "60 bytes, each as two lowercase hex digits",
            Argument::Device => "pages or log",
            Argument::Outcome => "an outcome, dark or raise",
            Argument::Operation => "an operation's number, from 1",
            Argument::Choice => "old, new, before, after or a number",
            Argument::Raise => "a number of slots",
        })
    }
}

impl From<AllocError> for BadLine {
    fn from(_error: AllocError) -> BadLine {
        BadLine::OutOfMemory
    }
}
