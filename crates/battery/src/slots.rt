// Battery memory as a log store.
ghost use Rattle.std.specs.Prelude.{◌≡◌, min, true, [], length};
ghost use Rattle.device.specs.LogStores.{SlotAppended, LogForced, powered_on};
ghost use Rattle.battery.specs.Batteries.{held, made, LostOnce, cut_back};
ghost use Rattle.battery.specs.BatteryStores.{log_model, most_slots, BatteryAppended, BatteryForced};
ghost use Rattle.battery.specs.BatterySound.{sound_log};

use crate::{Battery, PowerCut};
use device::{LogFault, LogStore, check_power};

const MOST: usize = device::MOST_SLOTS as usize;

pub type BatteryLog<'a> = Battery<'a, [u8; 60], MOST>;

// The log starts empty, whatever the memory holds.
pub fn battery_log<'a>(memory: &'a mut [[u8; 60]], cut: Option<PowerCut>) -> BatteryLog<'a>
    ensures log { log_model (held result) ≡ record { capacity = min (length memory.old) most_slots; slots = []; forced = 0; powered = true } }
    ensures rule { held result ≡ made memory.entry.ghost_name memory.old 0 cut }
    ensures once { LostOnce cut }
{
    Battery::new(memory, 0, cut)
}

impl LogStore for BatteryLog<'_> {
    ghost model = { λ s. log_model (held s) };

    ghost sound = { λ s. sound_log (held s) s.in_room s.in_used };

    fn capacity(&self) -> u32 {
        self.room() as u32
    }

    fn is_powered(&self) -> bool {
        self.powered
    }

    fn len(&self) -> Result<u32, LogFault> {
        check_power(self.powered, LogFault::PowerLost(0))?;
        Ok(self.used as u32)
    }

    fn read(&self, slot: u32) -> Result<[u8; 60], LogFault> {
        check_power(self.powered, LogFault::PowerLost(slot))?;
        let place = slot.checked_sub(1).ok_or(LogFault::Outside)?;
        self.get(place as usize).ok_or(LogFault::Outside).copied()
    }

    fn append(&mut self, bytes: &[u8; 60]) -> Result<(), LogFault>
        ensures outcome { SlotAppended (log_model (held self.old)) bytes.now result (log_model (held self.new)) }
        ensures rule { BatteryAppended (held self.old) bytes.now result (held self.new) }
    {
        let lost = LogFault::PowerLost(self.used as u32 + 1);
        check_power(self.powered, lost)?;
        if self.used >= self.room() {
            return Err(LogFault::Full);
        }
        self.append_one(bytes);
        Ok(())
    }

    fn force(&mut self) -> Result<(), LogFault>
        ensures outcome { LogForced (log_model (held self.old)) result (log_model (held self.new)) }
        ensures rule { BatteryForced (held self.old) result (held self.new) }
    {
        let lost = LogFault::PowerLost(self.used as u32);
        check_power(self.powered, lost)?;
        self.force_used();
        check_power(self.powered, lost)
    }

    fn power_on(&mut self)
        ensures outcome { log_model (held self.new) ≡ powered_on (log_model (held self.old)) }
        ensures rule { held self.new ≡ cut_back (held self.old) }
    {
        self.cut_back();
    }
}
