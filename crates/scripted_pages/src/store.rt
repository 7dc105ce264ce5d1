// Scripted pages as a page store.
ghost use Rattle.std.specs.Prelude.{◌≡◌, ◌<◌, vec_len};
ghost use Rattle.script.specs.ScriptedPlans.{answered, left_by_write};
ghost use Rattle.scripted_pages.specs.ScriptedPages.{model};

use crate::ScriptedPages;
use device::{PageFault, PageStore, check_power};
use script::{Choice, answer};

impl PageStore for ScriptedPages {
    ghost model = { model };

    ghost sound = { λ s. s.sound };

    fn size(&self) -> u32 {
        self.pages.len() as u32
    }

    fn is_powered(&self) -> bool {
        self.powered
    }

    fn read(&self, page: u32) -> Result<[u8; 256], PageFault> {
        check_power(self.powered, PageFault::PowerLost(page))?;
        self.pages
            .get(page as usize)
            .copied()
            .ok_or(PageFault::Outside)
    }

    fn write(&mut self, page: u32, bytes: &[u8; 256]) -> Result<(), PageFault> {
        check_power(self.powered, PageFault::PowerLost(page))?;
        if page >= self.size() {
            return Err(PageFault::Outside);
        }
        let loss = self.script.operation();
        self.write_or_lose(page, bytes, loss)
    }

    fn power_on(&mut self) {
        self.powered = true;
    }
}

impl ScriptedPages {
    // A write of a page that is there; with a loss, what that leaves is chosen.
    fn write_or_lose(
        &mut self,
        page: u32,
        bytes: &[u8; 256],
        loss: Option<Choice>,
    ) -> Result<(), PageFault>
        requires { page < vec_len self.old.pages }
        ensures value { result ≡ answered loss (PageFault.PowerLost page) }
        ensures after { model self.new ≡ left_by_write loss (model self.old) page bytes.now }
    {
        if loss != Some(Choice::Old) {
            self.pages[page as usize] = *bytes;
        }
        answer(loss, &mut self.powered, PageFault::PowerLost(page))
    }
}
