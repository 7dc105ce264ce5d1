// The calls of a run: what each needs from the steps before, and what it leaves for those after.
use super::Run;
use crate::kind::Drilled;
use device::{LogStore, PageStore};
use format::Page;
use server::{NotEnded, Refusal};

impl<P: PageStore + Drop, L: LogStore + Drop, K: Drilled> Run<P, L, K> {
    pub(super) fn analysis(&mut self) -> Result<(), Refusal> {
        let (numbers, receipt) = self.server.analysis()?;
        self.outcome.passes.analysis = numbers;
        self.receipts.analysis = Some(receipt);
        Ok(())
    }

    // Without a receipt it is not redo's turn.
    pub(super) fn redo(&mut self) -> Result<(), Refusal> {
        let receipt = self.receipts.analysis.take();
        let (numbers, receipt) = self.server.redo(receipt.ok_or(Refusal::NotTheNextPass)?)?;
        self.outcome.passes.redo = numbers;
        self.receipts.redo = Some(receipt);
        Ok(())
    }

    pub(super) fn undo(&mut self) -> Result<(), Refusal> {
        let receipt = self.receipts.redo.take();
        self.outcome.passes.undo = self.server.undo(receipt.ok_or(Refusal::NotTheNextPass)?)?;
        Ok(())
    }

    pub(super) fn open(&mut self) -> Result<(), Refusal> {
        let handle = self.server.open()?;
        self.station.job = handle.number();
        self.station.handle = Some(handle);
        Ok(())
    }

    pub(super) fn fetch(&mut self, page: u32) -> Result<(), Refusal> {
        let handle = self.station.handle.as_ref();
        let mut buffer = [0; 256];
        self.server
            .fetch(handle.ok_or(Refusal::JobNotOpen)?, page, &mut buffer)?;
        self.station.page = Page::from_bytes(&buffer);
        Ok(())
    }

    // The station puts the change on its own page once the server has the record.
    pub(super) fn record(&mut self, page: u32, change: &K) -> Result<(), Refusal> {
        let handle = self.station.handle.as_ref();
        let lrc = self.station.page.lrc.saturating_add(1);
        self.server.record(
            handle.ok_or(Refusal::JobNotOpen)?,
            page,
            lrc,
            &change.to_bytes(),
        )?;
        change.put(&mut self.station.page.content);
        self.station.page.lrc = lrc;
        Ok(())
    }

    pub(super) fn ship(&mut self, page: u32) -> Result<(), Refusal> {
        let handle = self.station.handle.as_ref();
        let image = self.station.page.to_bytes();
        self.server
            .ship(handle.ok_or(Refusal::JobNotOpen)?, page, &image)
    }

    pub(super) fn commit(&mut self) -> Result<(), Refusal> {
        let handle = self.station.handle.take();
        match self.server.commit(handle.ok_or(Refusal::JobNotOpen)?) {
            Ok(_) => Ok(()),
            Err(NotEnded::PowerLost(device, place)) => Err(Refusal::PowerLost(device, place)),
            Err(NotEnded::Refused(refusal, handle)) => {
                self.station.handle = Some(handle);
                Err(refusal)
            }
        }
    }

    pub(super) fn look(&mut self, page: u32) -> Result<(), Refusal> {
        let mut buffer = [0; 256];
        self.server.look(page, &mut buffer)?;
        self.station.page = Page::from_bytes(&buffer);
        Ok(())
    }
}
