// What a log does with its pages while there is power: find the end, see whether a slot stands, put a slot.
// They take the pages and not the log: `end` runs before there is one, `put` while it is being changed. So each says what it needs.
ghost use Rattle.std.specs.Prelude.{◌≡◌, ◌<◌, true};
ghost use Rattle.device.specs.Memory.{as_bytes};
ghost use Rattle.paged_log.specs.PagedLogs.{log_length, room, stands, room_made, Made, SlotPut};

use crate::page::{self, LogPage};
use device::{PageFault, PageStore};

// How many slots the pages say.
pub(crate) fn end<P: PageStore>(pages: &P) -> u32
    requires { (P.PageStore.model pages.now).powered ≡ true }
    ensures { result ≡ log_length (P.PageStore.model pages.now).pages }
{
    let size = pages.size();
    for at in 0..size {
        let bytes = pages.read(at).unwrap();
        let count = LogPage { bytes }.count();
        if count < 4 {
            return 4 * at + count;
        }
    }
    4 * size
}

// Whether slot n, counted from 0, is part of its page and has these bytes.
pub(crate) fn stands<P: PageStore>(pages: &P, n: u32, slot: &[u8; 60]) -> bool
    requires { ((P.PageStore.model pages.now).powered ≡ true) × (n < room (P.PageStore.model pages.now)) }
    ensures value { result ≡ stands (P.PageStore.model pages.now).pages n slot.now }
    ensures whole { as_bytes 60 slot.now ≡ slot.now }
{
    let (at, place) = page::page_and_place(n);
    let bytes = pages.read(at).unwrap();
    let page = LogPage { bytes };
    if place >= page.count() as usize {
        return false;
    }
    page.slot(place) == *slot
}

// Makes the page after that of slot n blank, if slot n is the fourth of its page and there is a next page that is not blank.
fn make_room<P: PageStore>(pages: &mut P, n: u32) -> Result<(), PageFault>
    requires { ((P.PageStore.model pages.old).powered ≡ true) × (n < room (P.PageStore.model pages.old)) }
    ensures { Made (P.PageStore.model pages.old).pages (room_made (P.PageStore.model pages.old).pages n) result (P.PageStore.model pages.new) }
{
    let (at, place) = page::page_and_place(n);
    if place < 3 {
        return Ok(());
    }
    let next = at + 1;
    if next >= pages.size() {
        return Ok(());
    }
    let bytes = pages.read(next)?;
    if bytes == [0; 256] {
        return Ok(());
    }
    pages.write(next, &[0; 256])
}

// Puts slot n: one write of its page, with the slot and the new count together.
pub(crate) fn put<P: PageStore>(pages: &mut P, n: u32, slot: &[u8; 60]) -> Result<(), PageFault>
    requires { ((P.PageStore.model pages.old).powered ≡ true) × (n < room (P.PageStore.model pages.old)) }
    ensures { SlotPut (P.PageStore.model pages.old).pages n slot.now result (P.PageStore.model pages.new) }
{
    make_room(pages, n)?;
    let (at, place) = page::page_and_place(n);
    let bytes = pages.read(at)?;
    let mut page = LogPage { bytes };
    page.put(place, slot);
    pages.write(at, &page.bytes)
}
