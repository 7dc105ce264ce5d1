// Why a call is refused: the first question that is answered no.
ghost use Rattle.std.specs.Prelude.{◌≡◌};
ghost use Rattle.rules.specs.Numbers.{number_of};
ghost use Rattle.rules.specs.Plans.{refusal_of_page, refusal_of_log};

use device::{LogFault, PageFault};

#[derive(Clone, Copy, Debug, PartialEq, Eq)]
pub enum Refusal {
    // 1: has the store 1 to 64 pages and the log 8 to 4,096 slots?
    SizesOutOfRange,
    // 2: is this pass the next?
    NotTheNextPass,
    // 3: is the server in service?
    NotInService,
    // 4: is one of eight job places free?
    NoJobPlace,
    // 5: is the job open?
    JobNotOpen,
    // 6: is the page in the store?
    PageOutside,
    // 7: has the buffer 256 bytes?
    BufferSize,
    // 8: does the job hold the page?
    NotHeld,
    // 9: does no other job hold the page? To look: does none?
    HeldAlready,
    // 10: are there 40 bytes that form a change?
    NotAChange,
    // 11: is the LRC the one that comes next, or within the page's records?
    LrcOutOfOrder,
    // 12: do the records give the image?
    ImageDiffers,
    // 13: are the copies of the held pages complete?
    CopyIncomplete,
    // 14: is enough of the log free?
    LogFull,
    // 15: do the slots that a pass reads fit, and follow from those before?
    LogUnreadable,
    // 16: is no stored page ahead of the log?
    StoreAhead,
    // 17: did the devices keep their power? They lost it at this page of the store or slot of the log.
    PowerLost(Device, u32),
}

#[derive(Clone, Copy, Debug, PartialEq, Eq)]
pub enum Device {
    Pages,
    Log,
}

impl Refusal {
    // The number of the question that was answered no.
    pub fn number(&self) -> u32
        ensures { result ≡ number_of self.now }
    {
        match self {
            Refusal::SizesOutOfRange => 1,
            Refusal::NotTheNextPass => 2,
            Refusal::NotInService => 3,
            Refusal::NoJobPlace => 4,
            Refusal::JobNotOpen => 5,
            Refusal::PageOutside => 6,
            Refusal::BufferSize => 7,
            Refusal::NotHeld => 8,
            Refusal::HeldAlready => 9,
            Refusal::NotAChange => 10,
            Refusal::LrcOutOfOrder => 11,
            Refusal::ImageDiffers => 12,
            Refusal::CopyIncomplete => 13,
            Refusal::LogFull => 14,
            Refusal::LogUnreadable => 15,
            Refusal::StoreAhead => 16,
            Refusal::PowerLost(_, _) => 17,
        }
    }
}

// A plan asks for no page that is not there.
impl From<PageFault> for Refusal {
    ghost from_gives = { λ fault why. why ≡ refusal_of_page fault };

    fn from(fault: PageFault) -> Refusal {
        match fault {
            PageFault::PowerLost(page) => Refusal::PowerLost(Device::Pages, page),
            PageFault::Outside => Refusal::PageOutside,
        }
    }
}

// Nor for a slot that is not there.
impl From<LogFault> for Refusal {
    ghost from_gives = { λ fault why. why ≡ refusal_of_log fault };

    fn from(fault: LogFault) -> Refusal {
        match fault {
            LogFault::PowerLost(slot) => Refusal::PowerLost(Device::Log, slot),
            LogFault::Outside => Refusal::LogUnreadable,
            LogFault::Full => Refusal::LogFull,
        }
    }
}
