// Ship: an image of a page that the job holds becomes the page's copy. It must be what the records in the log make of the copy, up to the image's LRC,
// so that no copy has a change that is not in the log.
ghost use Rattle.std.specs.Prelude.{◌≡◌, true, IfOk};
ghost use Rattle.std.specs.Str.{bytes_eq};
ghost use Rattle.format.specs.Pages.{page_bytes, page_of};
ghost use Rattle.rules.specs.Plans.{Does};
ghost use Rattle.rules.specs.Playing.{last_lrc, played, up_to_lrc};
ghost use Rattle.rules.specs.Runs.{service_plan, ships};
ghost use Rattle.rules.specs.Service.{ship_in, copy_of, log_read};
ghost use Rattle.rules.specs.State.{is_serving, working};
ghost use Rattle.promises.specs.AnyDevices.{InOrder};
ghost use Rattle.calls.specs.Outcomes.{Ready, asked, answer};
ghost use Rattle.calls.specs.Parts.{image_in};

use crate::asking::check;
use crate::copies::{copy_of, play, set_copy};
use crate::reading::Reader;
use crate::state::{Stage, State};
use device::{LogStore, PageStore};
use format::{Change, Page, Slot};
use rules::Refusal;

impl<P: PageStore, L: LogStore> State<P, L> {
    pub fn ship<K: Change + Drop>(
        &mut self,
        job: u32,
        page: u32,
        image: &[u8],
    ) -> Result<(), Refusal>
        requires { InOrder K.Change.meaning self.old.devices self.old.memory }
        ensures { Does K.Change.meaning (service_plan K.Change.meaning (ships job page image.now) self.old) self.old result self.new }
    {
        self.ask_stage(Stage::Serving, Refusal::NotInService)?;
        let copy = self.ask_ship::<K>(job, page, image)?;
        set_copy(&mut self.copies, page, copy);
        Ok(())
    }

    // Asks its questions, and gives the image as a page.
    fn ask_ship<K: Change + Drop>(&self, job: u32, page: u32, image: &[u8]) -> Result<Page, Refusal>
        requires { Ready K.Change.meaning self.now }
        ensures asks { answer result ≡ asked (ship_in K.Change.meaning job page image.now self.now.devices (working self.now.memory)) }
        ensures value { IfOk result (λ p. p ≡ page_of image.now) }
    {
        check(self.jobs.is_job(job), Refusal::JobNotOpen)?;
        check(page < self.devices.size(), Refusal::PageOutside)?;
        let image = image.as_array::<256>().ok_or(Refusal::BufferSize)?;
        check(self.jobs.held_by(job, page), Refusal::NotHeld)?;
        self.ask_image::<K>(page, image)
    }

    // 11 and 12: the image's LRC is from the copy's to the page's last, and the image is the copy with the page's records up to there.
    fn ask_image<K: Change + Drop>(&self, page: u32, image: &[u8; 256]) -> Result<Page, Refusal>
        requires { Ready K.Change.meaning self.now }
        ensures asks { answer result ≡ asked (image_in K.Change.meaning page image.now self.now.devices (working self.now.memory)) }
        ensures value { IfOk result (λ p. p ≡ page_of image.now) }
    {
        let shipped = Page::from_bytes(image);
        let copy = self.working_copy(page);
        check(copy.lrc <= shipped.lrc, Refusal::LrcOutOfOrder)?;
        let expected = self.expect::<K>(page, copy, shipped.lrc);
        check(shipped.lrc <= expected.last, Refusal::LrcOutOfOrder)?;
        check(is_image(&expected.copy, image), Refusal::ImageDiffers)?;
        Ok(shipped)
    }

    fn working_copy(&self, page: u32) -> Page
        requires { is_serving self.now.memory ≡ true }
        ensures { result ≡ copy_of (working self.now.memory).copies page }
    {
        copy_of(&self.copies, page)
    }

    // The page's last LRC, and the copy with the page's records up to an LRC, from one reading of the log.
    fn expect<K: Change + Drop>(&self, page: u32, copy: Page, up_to: u32) -> Expected
        requires { Ready K.Change.meaning self.now }
        ensures last { result.last ≡ last_lrc page copy.lrc (log_read K.Change.meaning self.now.devices (working self.now.memory)) }
        ensures copy { result.copy ≡ played K.Change.meaning (up_to_lrc page up_to) (log_read K.Change.meaning self.now.devices (working self.now.memory)) copy }
    {
        let mut expected = Expected {
            page,
            up_to,
            last: copy.lrc,
            copy,
        };
        self.read_log::<K, _>(&mut expected);
        expected
    }
}

// All 256 bytes are compared.
fn is_image(copy: &Page, image: &[u8; 256]) -> bool
    ensures { result ≡ bytes_eq (page_bytes copy.now) image.now }
{
    copy.to_bytes() == *image
}

// What the records of a page make of its copy up to an LRC, and the last LRC among all of them. Before anything is read both are the copy's.
#[derive(Drop)]
struct Expected {
    page: u32,
    up_to: u32,
    last: u32,
    copy: Page,
}

impl<K: Change> Reader<K> for Expected {
    ghost says = { λ start s L. (s.page ≡ start.page) × (s.up_to ≡ start.up_to) × (s.last ≡ last_lrc start.page start.last L)
        × (s.copy ≡ played K.Change.meaning (up_to_lrc start.page start.up_to) L start.copy) };

    fn note(&mut self, _number: u32, slot: &Slot<K>) {
        if let Slot::Record(record) = slot {
            if u32::from(record.page) == self.page {
                self.last = record.lrc;
                if record.lrc <= self.up_to {
                    play(record, &mut self.copy);
                }
            }
        }
    }

    ghost unread = { λ start s L said. said };
}
