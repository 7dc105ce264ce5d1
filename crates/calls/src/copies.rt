// Copies of pages: what is played on them, and what takes a change back.
ghost use Rattle.std.specs.Prelude.{◌≡◌, slice_set};
ghost use Rattle.rules.specs.Playing.{play};
ghost use Rattle.rules.specs.Service.{copy_of, compensation};

use format::{Action, Change, Page, PageRecord};

// The copy of a page. There are as many copies as pages of the store, and beyond them a page is blank.
pub(crate) fn copy_of(copies: &[Page], page: u32) -> Page
    ensures { result ≡ copy_of copies.now page }
{
    match copies.get(page as usize) {
        Some(copy) => *copy,
        None => Page::blank(),
    }
}

// Puts a copy in the place of a page's; beyond the copies there is no place.
pub(crate) fn set_copy(copies: &mut [Page], page: u32, copy: Page)
    ensures { copies.new ≡ slice_set copies.old page copy }
{
    let place = page as usize;
    if place < copies.len() {
        copies[place] = copy;
    }
}

// Plays a record on a copy of its page: exactly when its LRC is above the copy's, which takes that LRC.
pub(crate) fn play<K: Change>(record: &PageRecord<K>, copy: &mut Page)
    ensures { copy.new ≡ play K.Change.meaning record.now copy.old }
{
    if copy.lrc < record.lrc {
        copy.lrc = record.lrc;
        match record.action {
            Action::Put => record.change.put(&mut copy.content),
            Action::TakeBack => record.change.take_back(&mut copy.content),
        }
    }
}

// What takes a change back, given the copy of its page: the job's next becomes that change's link.
pub(crate) fn compensation<K: Change>(change: PageRecord<K>, copy: &Page) -> PageRecord<K>
    ensures { result ≡ compensation change copy.now }
{
    PageRecord {
        action: Action::TakeBack,
        lrc: copy.lrc.wrapping_add(1),
        ..change
    }
}
