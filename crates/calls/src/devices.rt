// The two devices of a server, and what its operations make of them.
ghost use Rattle.std.specs.Prelude.{◌≡◌, ◌≤◌, ◌<◌, pred, true, [], slice_index, slice_index_or};
ghost use Rattle.format.specs.Pages.{page_of};
ghost use Rattle.rules.specs.Plans.{append, force, write, powered_on};
ghost use Rattle.rules.specs.State.{size, slots, log_length, next_slot, free};
ghost use Rattle.calls.specs.Outcomes.{Outcome, check_power};
ghost use Rattle.calls.specs.Readers.{slot_of};

use device::{LogStore, PageStore};
use format::{Change, Page, Slot};
use rules::{Device, Refusal};
use std::marker::Model;

#[derive(Drop)]
pub(crate) struct Devices<P: PageStore, L: LogStore> {
    pub(crate) pages: P,
    pub(crate) log: L,
}

impl<P: PageStore, L: LogStore> Model for Devices<P, L> {
    ghost use Rattle.rules.specs.State.{Devices};

    ghost Value = { Devices };

    ghost view = { λ d. record { pages = P.PageStore.model d.pages; log = L.LogStore.model d.log } };
}

impl<P: PageStore, L: LogStore> Devices<P, L> {
    pub(crate) fn size(&self) -> u32
        ensures { result ≡ size self.now }
    {
        self.pages.size()
    }

    // How many slots the log may have.
    pub(crate) fn capacity(&self) -> u32
        ensures { result ≡ self.now.log.capacity }
    {
        self.log.capacity()
    }

    // The number of the last slot, or 0. Reading cannot fail where there is power and what is read is there.
    pub(crate) fn log_length(&self) -> u32
        requires { self.now.log.powered ≡ true }
        ensures value { result ≡ log_length self.now }
        ensures fits { result < 4294967295 }
    {
        self.log.len().unwrap()
    }

    pub(crate) fn next_slot(&self) -> u32
        requires { self.now.log.powered ≡ true }
        ensures { result ≡ next_slot self.now }
    {
        self.log_length() + 1
    }

    // How many slots are free.
    pub(crate) fn free(&self) -> u32
        requires { self.now.log.powered ≡ true }
        ensures { result ≡ free self.now }
    {
        self.log.capacity() - self.log_length()
    }

    // Slot `number` of the log, None where its bytes do not fit.
    pub(crate) fn slot<K: Change>(&self, number: u32) -> Option<Slot<K>>
        requires { (self.now.log.powered ≡ true) × (0 < number) × (number ≤ log_length self.now) }
        ensures { result ≡ slot_of K.Change.meaning self.now number }
    {
        let bytes = self.log.read(number).unwrap();
        Slot::read(&bytes, number, self.size()).ok()
    }

    // The first byte of slot `number`: its kind, where its bytes fit.
    pub(crate) fn first_byte(&self, number: u32) -> u8
        requires { (self.now.log.powered ≡ true) × (0 < number) × (number ≤ log_length self.now) }
        ensures { result ≡ slice_index (slice_index_or (slots self.now) (pred number) []) 0 }
    {
        self.log.read(number).unwrap()[0]
    }

    // The stored page.
    pub(crate) fn page(&self, page: u32) -> Page
        requires { (self.now.pages.powered ≡ true) × (page < size self.now) }
        ensures { result ≡ page_of (slice_index_or self.now.pages.pages page []) }
    {
        Page::from_bytes(&self.pages.read(page).unwrap())
    }

    // 17, asked of both before anything else: the page store first.
    pub(crate) fn check_power(&self) -> Result<(), Refusal>
        ensures { result ≡ check_power self.now }
    {
        if !self.pages.is_powered() {
            return Err(Refusal::PowerLost(Device::Pages, 0));
        }
        if !self.log.is_powered() {
            return Err(Refusal::PowerLost(Device::Log, 0));
        }
        Ok(())
    }

    pub(crate) fn power_on(&mut self)
        ensures { self.new ≡ powered_on self.old }
    {
        self.pages.power_on();
        self.log.power_on();
    }

    pub(crate) fn append<K: Change>(&mut self, slot: &Slot<K>) -> Result<(), Refusal>
        ensures { Outcome K.Change.meaning (append slot.now) self.old result self.new }
    {
        self.log.append(&slot.write())?;
        Ok(())
    }

    pub(crate) fn force<K: Change>(&mut self) -> Result<(), Refusal>
        ensures { Outcome K.Change.meaning force self.old result self.new }
    {
        self.log.force()?;
        Ok(())
    }

    pub(crate) fn write<K: Change>(&mut self, page: u32, copy: &Page) -> Result<(), Refusal>
        ensures { Outcome K.Change.meaning (write page copy.now) self.old result self.new }
    {
        self.pages.write(page, &copy.to_bytes())?;
        Ok(())
    }
}
