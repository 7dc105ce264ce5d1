// A refusal in words.
use crate::refusal::{Device, Refusal};
use std::error::Error;
use std::fmt;

impl Error for Refusal {}

impl fmt::Display for Refusal {
    fn fmt<W: fmt::Write>(&self, f: &mut fmt::Formatter<W>) -> fmt::Result {
        match self {
            Refusal::SizesOutOfRange => f.write_str("the sizes are out of range"),
            Refusal::NotTheNextPass => write!(f, "this pass is not the next"),
            Refusal::NotInService => write!(f, "the server is not in service"),
            Refusal::NoJobPlace => write!(f, "no job place is free"),
            Refusal::JobNotOpen => write!(f, "the job is not open"),
            Refusal::PageOutside => write!(f, "the store has no such page"),
            Refusal::BufferSize => write!(f, "the buffer has not 256 bytes"),
            Refusal::NotHeld => write!(f, "the job does not hold the page"),
            Refusal::HeldAlready => write!(f, "another job holds the page"),
            Refusal::NotAChange => write!(f, "these bytes form no change"),
            Refusal::LrcOutOfOrder => write!(f, "the LRC is out of order"),
            Refusal::ImageDiffers => write!(f, "the records do not give the image"),
            Refusal::CopyIncomplete => write!(f, "a held page's copy lacks a record"),
            Refusal::LogFull => write!(f, "too little of the log is free"),
            Refusal::LogUnreadable => write!(f, "a slot of the log makes no sense"),
            Refusal::StoreAhead => write!(f, "a stored page is ahead of the log"),
            Refusal::PowerLost(Device::Pages, page) => write!(f, "power was lost at page {page}"),
            Refusal::PowerLost(Device::Log, slot) => write!(f, "power was lost at slot {slot}"),
        }
    }
}
