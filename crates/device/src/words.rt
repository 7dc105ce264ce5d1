// Faults of the stores in words, for people.
use crate::log_store::LogFault;
use crate::page_store::PageFault;
use std::error::Error;
use std::fmt;

impl Error for PageFault {}

impl fmt::Display for PageFault {
    fn fmt<W: fmt::Write>(&self, f: &mut fmt::Formatter<W>) -> fmt::Result {
        match self {
            PageFault::PowerLost(page) => write!(f, "the page store has no power at page {page}"),
            PageFault::Outside => f.write_str("the page store has no such page"),
        }
    }
}

impl Error for LogFault {}

impl fmt::Display for LogFault {
    fn fmt<W: fmt::Write>(&self, f: &mut fmt::Formatter<W>) -> fmt::Result {
        match self {
            LogFault::PowerLost(0) => f.write_str("the log has no power"),
            LogFault::PowerLost(slot) => write!(f, "the log has no power at slot {slot}"),
            LogFault::Outside => f.write_str("the log has no such slot"),
            LogFault::Full => f.write_str("the log is full"),
        }
    }
}
