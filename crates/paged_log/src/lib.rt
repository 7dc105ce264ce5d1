// A log on pages: a log store over any page store, four slots to a page.
//
// A log page has a count in bytes 0 to 3, the lowest first, zeros to byte 15, and slots at 16, 76, 136 and 196. The log ends in the
// first page whose count is below 4; a count above 4 counts as 4. An append writes one page, with the slot and the count together. Where
// that gives the page its fourth slot, the next page is made blank before, if it is not, so that nothing old in it becomes part of the log.
//
// Making reads each page once, to find the end; from then on the length is remembered, and a call reads two pages at most. When power is
// lost in an append, nobody can tell before power is back whether the slot stands. The log then has it as a slot that is not forced, or as
// one that is where its page has it, and `power_on` looks.
#![tactic(auto)]

ghost use Rattle.std.specs.Prelude.{◌≡◌, min, if◌then◌else◌, Ok, Err};
ghost use Rattle.device.specs.PageStores.{powered_on};
ghost use Rattle.paged_log.specs.PagedLogs.{model_of, found, room, Agrees};

use device::{LogFault, PageStore};

mod page;
mod put;
mod store;

#[derive(Drop)]
pub struct PagedLog<P> {
    pages: P,
    // How many slots there are, with the slot of an append in which power was lost.
    len: u32,
    // The slot of the last append. Only `power_on` reads it, after a loss of power, and power is lost only in an append: what stands here
    // before the first append is never read.
    last: [u8; 60],
}

impl<P: PageStore> PagedLog<P> {
    // The log that the pages say, whatever bytes they have. The store is powered on, since without power its pages cannot be read;
    // nothing is written.
    pub fn new(mut pages: P) -> PagedLog<P>
        ensures pages { P.PageStore.model result.pages ≡ powered_on (P.PageStore.model pages) }
        ensures log { model_of P.PageStore.model result ≡ found (P.PageStore.model pages) }
        ensures agrees { Agrees P.PageStore.model result }
    {
        pages.power_on();
        let len = put::end(&pages);
        PagedLog {
            pages,
            len,
            last: [0; 60],
        }
    }

    // Gives the page store back. No `From`, which would stand for every store.
    pub fn into_pages(self) -> P
        ensures { result ≡ self.pages }
    {
        self.pages
    }

    // The store's size never changes; the length is never above four times that. No ghost field of the type says so: it would ask
    // `P: PageStore` wherever the type is named, and any ghost field at all refuses a type that holds itself through a log.
    fn length(&self) -> u32
        ensures { result ≡ min self.now.len (room (P.PageStore.model self.now.pages)) }
    {
        self.len.min(4 * self.pages.size())
    }

    // A loss of power is reported at this slot.
    fn check_power(&self, slot: u32) -> Result<(), LogFault>
        ensures { result ≡ (if (P.PageStore.model self.now.pages).powered then Ok tt else Err (LogFault.PowerLost slot)) }
    {
        device::check_power(self.pages.is_powered(), LogFault::PowerLost(slot))
    }
}
