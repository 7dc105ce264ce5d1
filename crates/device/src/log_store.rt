// A log store: slots of 60 bytes, appended at the end and numbered from 1, of which those forced outlast a loss of power.
ghost use Rattle.std.specs.Prelude.{◌≡◌};
ghost use Rattle.device.specs.LogStores.{LogModel, SoundLog, LengthRead, SlotRead, SlotAppended, LogForced, powered_on};

// The largest capacity: the number after the last slot fits four bytes.
pub const MOST_SLOTS: u32 = 4_294_967_294;

// Not one type with the faults of pages: nobody has to deal with a fault that cannot come.
// Without power every call answers `PowerLost`, but for the capacity, whether there is power, and to power on.
#[derive(Clone, Copy, Debug, PartialEq, Eq)]
pub enum LogFault {
    // There was no power at this slot, or it was lost there: at an append the slot to come, at a force the last, at the length 0, which no slot has.
    PowerLost(u32),
    // The log has no such slot.
    Outside,
    // The log has reached its capacity.
    Full,
}

pub trait LogStore {
    ghost model: { Self → LogModel };

    ghost sound: { (s : Self) → SoundLog (model s) };

    // How many slots there may be; that never changes.
    fn capacity(&self) -> u32
        ensures { result ≡ (model self.now).capacity };

    fn is_powered(&self) -> bool
        ensures { result ≡ (model self.now).powered };

    fn len(&self) -> Result<u32, LogFault>
        ensures { LengthRead (model self.now) result };

    fn read(&self, slot: u32) -> Result<[u8; 60], LogFault>
        ensures { SlotRead (model self.now) slot result };

    fn append(&mut self, bytes: &[u8; 60]) -> Result<(), LogFault>
        ensures { SlotAppended (model self.old) bytes.now result (model self.new) };

    fn force(&mut self) -> Result<(), LogFault>
        ensures { LogForced (model self.old) result (model self.new) };

    fn power_on(&mut self)
        ensures { model self.new ≡ powered_on (model self.old) };
}
