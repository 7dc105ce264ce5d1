// Redo: every page, as stored, is given the records that it lacks, from the smallest redo start on. Then each copy is its page with all its records.
ghost use Rattle.std.specs.Prelude.{◌≡◌, ◌==◌, ◌≤◌, ◌<◌, ℕ, min, true, cond, map, Some, vec_capacity};
ghost use Rattle.format.specs.Pages.{page_of};
ghost use Rattle.tables.specs.Places.{HasPlaces};
ghost use Rattle.rules.specs.Plans.{Does};
ghost use Rattle.rules.specs.Reading.{scan};
ghost use Rattle.rules.specs.Restart.{whole, none_ahead, replay, replayed, redo_plan};
ghost use Rattle.rules.specs.State.{size};
ghost use Rattle.rules.specs.Tables.{least_start};
ghost use Rattle.promises.specs.AnyDevices.{InOrder};
ghost use Rattle.calls.specs.Passes.{replayed_to, one_replayed};

use crate::asking::check;
use crate::copies::{copy_of, play, set_copy};
use crate::devices::Devices;
use crate::state::{Stage, State};
use device::{LogStore, PageStore};
use format::{Change, Page, Slot};
use rules::Refusal;
use tables::DirtyTable;

impl<P: PageStore, L: LogStore> State<P, L> {
    pub fn redo<K: Change + Drop>(&mut self) -> Result<(u32, u32), Refusal>
        requires { InOrder K.Change.meaning self.old.devices self.old.memory }
        ensures { Does K.Change.meaning (redo_plan K.Change.meaning self.old) self.old result self.new }
    {
        self.ask_stage(Stage::Analysed, Refusal::NotTheNextPass)?;
        // Until the pass is done the server is out of service.
        self.stage = Stage::OutOfService;
        self.devices.copy_pages(&mut self.copies);
        check(
            none_ahead(self.devices.log_length(), &self.copies),
            Refusal::StoreAhead,
        )?;
        let from = self.dirty.least_start().unwrap_or(0);
        let count = self
            .devices
            .replay::<K>(from, &self.dirty, &mut self.copies)?;
        self.first = first_read(self.first, from);
        self.stage = Stage::Redone;
        Ok((from, count))
    }
}

impl<P: PageStore, L: LogStore> Devices<P, L> {
    // Makes the copies those of the stored pages.
    fn copy_pages(&self, copies: &mut Vec<Page>)
        requires power { self.now.pages.powered ≡ true }
        requires few { size self.now ≤ 64 }
        requires room { 64 ≤ vec_capacity copies.old }
        ensures value { copies.new.items ≡ map page_of self.now.pages.pages }
        ensures places { HasPlaces 64 copies.new }
    {
        copies.clear();
        for page in 0..self.size() {
            copies.push_reserved(self.page(page));
        }
    }

    // Plays on the copies what they lack of the records from slot `from` on, and says how many that were. Where no page is dirty no slot is read.
    fn replay<K: Change + Drop>(
        &self,
        from: u32,
        dirty: &DirtyTable,
        copies: &mut [Page],
    ) -> Result<u32, Refusal>
        requires power { self.now.log.powered ≡ true }
        requires start { from ≡ least_start dirty.now }
        ensures { replayed_to result copies.new ≡ replayed K.Change.meaning self.now dirty.now copies.old }
    {
        if from == 0 {
            return Ok(0);
        }
        self.replay_from::<K>(from, dirty, copies)
    }

    fn replay_from<K: Change + Drop>(
        &self,
        from: u32,
        dirty: &DirtyTable,
        copies: &mut [Page],
    ) -> Result<u32, Refusal>
        requires { (self.now.log.powered ≡ true) × (0 < from) }
        ensures { replayed_to result copies.new ≡ scan from (replay K.Change.meaning dirty.now) (record { copies = copies.old; count = 0 }) (whole K.Change.meaning self.now) }
    {
        let mut count = 0;
        for number in from..=self.log_length() {
            let slot = self.slot::<K>(number).ok_or(Refusal::LogUnreadable)?;
            count += u32::from(replay_slot(&slot, number, dirty, copies)?);
        }
        Ok(count)
    }
}

// 16: no stored page is ahead of the log.
fn none_ahead(last: u32, copies: &[Page]) -> bool
    ensures { result ≡ none_ahead last copies.now }
{
    copies.iter().all(|copy| copy.lrc <= last)
}

// The first slot that is read whole from now on.
fn first_read(first: u32, from: u32) -> u32
    ensures { result ≡ cond (from == 0) first (min first from) }
{
    if from == 0 { first } else { first.min(from) }
}

// Plays a slot's record if its page is dirty from there on and its copy lacks it, and says whether it did.
fn replay_slot<K: Change>(
    slot: &Slot<K>,
    number: u32,
    dirty: &DirtyTable,
    copies: &mut [Page],
) -> Result<bool, Refusal>
    ensures { (n : ℕ) → one_replayed n result copies.new ≡ replay K.Change.meaning dirty.now number (Some slot.now) (record { copies = copies.old; count = n }) }
{
    let Slot::Record(record) = slot else {
        return Ok(false);
    };
    let page = u32::from(record.page);
    let mut copy = copy_of(copies, page);
    check(
        record.lrc <= copy.lrc.saturating_add(1),
        Refusal::LrcOutOfOrder,
    )?;
    let lacked = dirty.is_due(record.page, number) && copy.lrc < record.lrc;
    if lacked {
        play(record, &mut copy);
        set_copy(copies, page, copy);
    }
    Ok(lacked)
}
