// The owner of the memory has it back when the store ends, with what was written.
ghost use Rattle.std.specs.Prelude.{◌≡◌, min, length, if◌then◌else◌, Ok, Err, MatchResult, nat_lt, slice_set};
ghost use Rattle.device.specs.declared.page_store.PageFault.TheVariants.{Outside};
ghost use Rattle.battery.specs.BatteryStores.{most_pages};

use crate::battery_pages;
use device::{PageFault, PageStore};

// Writes one page through a store over the memory.
pub fn write_in_memory(
    memory: &mut [[u8; 256]],
    page: u32,
    bytes: &[u8; 256],
) -> Result<(), PageFault>
    ensures value { result ≡ (if (nat_lt page (min (length memory.old) most_pages)) then Ok tt else Err Outside) }
    ensures memory { MatchResult result (λ _. memory.new ≡ slice_set memory.old page bytes.now) (λ _. memory.new ≡ memory.old) }
{
    let mut store = battery_pages(memory, None);
    store.write(page, bytes)
}
