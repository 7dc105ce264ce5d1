// The log on pages as a log store.
ghost use Rattle.std.specs.Prelude.{◌≡◌, Ok};
ghost use Rattle.device.specs.LogStores.{SlotAppended, powered_on};
ghost use Rattle.paged_log.specs.PagedLogs.{model_of, appended, Agrees};
ghost use Rattle.paged_log.specs.PagedLogsSound.{paged_sound};

use crate::page::{self, LogPage};
use crate::{PagedLog, put};
use device::{LogFault, LogStore, PageStore};

impl<P: PageStore> LogStore for PagedLog<P> {
    ghost model = { λ s. model_of P.PageStore.model s };

    ghost sound = { λ s. paged_sound (P.PageStore.model s.pages) (P.PageStore.sound s.pages) s.len s.last };

    fn capacity(&self) -> u32 {
        4 * self.pages.size()
    }

    fn is_powered(&self) -> bool {
        self.pages.is_powered()
    }

    fn len(&self) -> Result<u32, LogFault> {
        self.check_power(0)?;
        Ok(self.length())
    }

    fn read(&self, slot: u32) -> Result<[u8; 60], LogFault> {
        self.check_power(slot)?;
        let n = slot.checked_sub(1).ok_or(LogFault::Outside)?;
        if n >= self.length() {
            return Err(LogFault::Outside);
        }
        let (at, place) = page::page_and_place(n);
        let bytes = self.pages.read(at).map_err(|_| LogFault::PowerLost(slot))?;
        Ok(LogPage { bytes }.slot(place))
    }

    // Every fault of a page is reported as one of the slot that was to come.
    fn append(&mut self, bytes: &[u8; 60]) -> Result<(), LogFault>
        ensures appended { SlotAppended (model_of P.PageStore.model self.old) bytes.now result (model_of P.PageStore.model self.new) }
        ensures written { result ≡ Ok tt → P.PageStore.model self.new.pages ≡ appended (P.PageStore.model self.old.pages) self.old.len bytes.now }
        ensures agrees { Agrees P.PageStore.model self.old → Agrees P.PageStore.model self.new }
    {
        let capacity = self.capacity();
        let n = self.len.min(capacity);
        let slot = n + 1;
        self.check_power(slot)?;
        if n >= capacity {
            return Err(LogFault::Full);
        }
        self.len = slot;
        self.last = *bytes;
        put::put(&mut self.pages, n, bytes).map_err(|_| LogFault::PowerLost(slot))
    }

    // Every slot is forced by its append. Not by `check_power`, which would ask for the size where there is power.
    fn force(&mut self) -> Result<(), LogFault> {
        if !self.is_powered() {
            return Err(LogFault::PowerLost(self.length()));
        }
        Ok(())
    }

    // If power was lost, it was lost in the last append: its slot stands or is no part of the log.
    fn power_on(&mut self)
        ensures on { model_of P.PageStore.model self.new ≡ powered_on (model_of P.PageStore.model self.old) }
        ensures agrees { Agrees P.PageStore.model self.old → Agrees P.PageStore.model self.new }
    {
        let was_powered = self.is_powered();
        self.pages.power_on();
        if was_powered {
            return;
        }
        let Some(last) = self.length().checked_sub(1) else {
            return;
        };
        if put::stands(&self.pages, last, &self.last) {
            return;
        }
        self.len = last;
    }
}
