// Battery memory as a page store.
ghost use Rattle.std.specs.Prelude.{◌≡◌, min, true, map, length, take};
ghost use Rattle.device.specs.Memory.{as_bytes};
ghost use Rattle.device.specs.PageStores.{PageWritten, powered_on};
ghost use Rattle.battery.specs.Batteries.{held, made, LostOnce, on_again};
ghost use Rattle.battery.specs.BatteryStores.{pages_model, most_pages, BatteryWrote};
ghost use Rattle.battery.specs.BatterySound.{sound_pages};

use crate::{Battery, PowerCut};
use device::{PageFault, PageStore, check_power};

const MOST: usize = device::MOST_PAGES as usize;

pub type BatteryPages<'a> = Battery<'a, [u8; 256], MOST>;

// The pages are as found in the memory, of which there may be 65,536.
pub fn battery_pages<'a>(memory: &'a mut [[u8; 256]], cut: Option<PowerCut>) -> BatteryPages<'a>
    ensures pages { pages_model (held result) ≡ record { pages = map (as_bytes 256) (take most_pages memory.old); powered = true } }
    ensures rule { held result ≡ made memory.entry.ghost_name memory.old (min (length memory.old) most_pages) cut }
    ensures once { LostOnce cut }
{
    let used = memory.len().min(MOST);
    Battery::new(memory, used, cut)
}

impl PageStore for BatteryPages<'_> {
    ghost model = { λ s. pages_model (held s) };

    ghost sound = { λ s. sound_pages (held s) s.in_room };

    fn size(&self) -> u32 {
        self.used as u32
    }

    fn is_powered(&self) -> bool {
        self.powered
    }

    fn read(&self, page: u32) -> Result<[u8; 256], PageFault> {
        check_power(self.powered, PageFault::PowerLost(page))?;
        self.get(page as usize).ok_or(PageFault::Outside).copied()
    }

    fn write(&mut self, page: u32, bytes: &[u8; 256]) -> Result<(), PageFault>
        ensures outcome { PageWritten (pages_model (held self.old)) page bytes.now result (pages_model (held self.new)) }
        ensures rule { BatteryWrote (held self.old) page bytes.now result (held self.new) }
    {
        let lost = PageFault::PowerLost(page);
        check_power(self.powered, lost)?;
        let place = page as usize;
        if place >= self.used {
            return Err(PageFault::Outside);
        }
        self.write_one(place, bytes);
        check_power(self.powered, lost)
    }

    fn power_on(&mut self)
        ensures outcome { pages_model (held self.new) ≡ powered_on (pages_model (held self.old)) }
        ensures rule { held self.new ≡ on_again (held self.old) }
    {
        self.turn_on();
    }
}
