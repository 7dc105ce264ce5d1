// Making scripted pages, and what tools do with them beside the interface, whether or not there is power.
ghost use Rattle.std.specs.Prelude.{◌≡◌, min, true, length, replicate, Ok, Err, is_ok, IfOk, if◌then◌else◌, nat_lt, slice_get};
ghost use Rattle.std.specs.Option.{option_copied};
ghost use Rattle.device.specs.PageStores.{with_page, without_power};
ghost use Rattle.scripted_pages.specs.ScriptedPages.{model};

use crate::ScriptedPages;
use device::{MOST_PAGES, PageFault};
use script::Script;
use std::alloc::{AllocError, Global};

impl ScriptedPages {
    // Blank pages with power, at most 65,536.
    pub fn new(heap: Global, size: u32, script: Script) -> Result<ScriptedPages, AllocError>
        ensures { IfOk result (λ s. model s ≡ record { pages = replicate (min size 65536) (replicate 256 0); powered = true }) }
    {
        // By `vec!` each page would be known as a clone alone, and so its first 256 bytes and not its length.
        let mut pages = Vec::new(heap);
        pages.resize(size.min(MOST_PAGES) as usize, [0; 256])?;
        Ok(ScriptedPages {
            pages,
            powered: true,
            script,
        })
    }

    pub fn page(&self, page: u32) -> Option<&[u8; 256]>
        ensures { option_copied result ≡ slice_get (model self.now).pages page }
    {
        self.pages.get(page as usize)
    }

    // Where there is no such page nothing changes.
    pub fn set_page(&mut self, page: u32, bytes: &[u8; 256]) -> Result<(), PageFault>
        ensures value { result ≡ (if nat_lt page (length (model self.old).pages) then Ok tt else Err PageFault.Outside) }
        ensures after { model self.new ≡ (if is_ok result then with_page (model self.old) page bytes.now else model self.old) }
    {
        let place = self.pages.get_mut(page as usize).ok_or(PageFault::Outside)?;
        *place = *bytes;
        Ok(())
    }

    pub fn cut_power(&mut self)
        ensures { model self.new ≡ without_power (model self.old) }
    {
        self.powered = false;
    }
}
