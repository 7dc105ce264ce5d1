// What a server has: its two devices, and its memory by stage.
ghost use Rattle.std.specs.Prelude.{◌≡◌, true, IfOk, IfErr};
ghost use Rattle.calls.specs.Outcomes.{Powered, TurnedAway};
ghost use Rattle.calls.specs.Memories.{is_at};
ghost use Rattle.rules.specs.State.{out, found_in_memory, working};

use crate::devices::Devices;
use device::{LogStore, PageStore};
use format::Page;
use rules::{DirtyPage, JobEntry, Refusal};
use std::alloc::{AllocError, Global};
use std::marker::Model;
use tables::{DirtyTable, JobTable};

#[derive(Clone, Copy, Debug, PartialEq, Eq)]
pub enum Stage {
    OutOfService,
    Analysed,
    Redone,
    Serving,
}

// Tables and copies have their places from the making on, so that no call wants memory. What they contain counts at its stage alone.
#[derive(Drop)]
pub struct State<P: PageStore, L: LogStore> {
    pub(crate) devices: Devices<P, L>,
    pub(crate) stage: Stage,
    pub(crate) jobs: JobTable,
    pub(crate) dirty: DirtyTable,
    pub(crate) copies: Vec<Page>,
    // The first slot read whole by the last restart.
    pub(crate) first: u32,
}

impl<P: PageStore, L: LogStore> Model for State<P, L> {
    ghost use Rattle.rules.specs.State.{World};
    ghost use Rattle.tables.specs.Places.{HasPlaces};
    ghost use Rattle.calls.specs.Memories.{memory_of};

    ghost Value = { World };

    ghost view = { λ s. record { devices = s.devices; memory = memory_of s.stage s.jobs s.dirty s.copies.items s.first } };

    ghost invariant = { λ s. HasPlaces 64 s.copies };
}

impl<P: PageStore + Drop, L: LogStore + Drop> State<P, L> {
    // Nothing is asked of the devices.
    pub fn new(heap: Global, pages: P, log: L) -> Result<State<P, L>, AllocError>
        ensures { IfOk result (λ s. s ≡ record { devices = record { pages = P.PageStore.model pages; log = L.LogStore.model log }; memory = out }) }
    {
        Ok(State {
            devices: Devices { pages, log },
            stage: Stage::OutOfService,
            jobs: JobTable::new(heap)?,
            dirty: DirtyTable::new(heap)?,
            copies: Vec::with_capacity(heap, 64)?,
            first: 1,
        })
    }
}

impl<P: PageStore, L: LogStore> State<P, L> {
    pub fn into_devices(self) -> (P, L)
        ensures { record { pages = P.PageStore.model result.0; log = L.LogStore.model result.1 } ≡ self.devices }
    {
        let Devices { pages, log } = self.devices;
        (pages, log)
    }

    // The first questions of redo, undo and every call in service: is the server at that stage, and have both devices power?
    pub(crate) fn ask_stage(&mut self, stage: Stage, otherwise: Refusal) -> Result<(), Refusal>
        ensures stage { IfOk result (λ u. is_at stage self.old.memory ≡ true) }
        ensures power { IfOk result (λ u. Powered self.old.devices) }
        ensures same { IfOk result (λ u. self.new ≡ self.old) }
        ensures refused { IfErr result (λ why. TurnedAway (is_at stage self.old.memory) otherwise self.old why self.new) }
    {
        if self.stage != stage {
            return Err(otherwise);
        }
        let power = self.devices.check_power();
        if power.is_err() {
            self.stage = Stage::OutOfService;
        }
        power
    }

    // Views

    pub fn stage(&self) -> Stage
        ensures { is_at result self.now.memory ≡ true }
    {
        self.stage
    }

    pub fn pages(&self) -> &P
        ensures { P.PageStore.model result.now ≡ self.now.devices.pages }
    {
        &self.devices.pages
    }

    pub fn log(&self) -> &L
        ensures { L.LogStore.model result.now ≡ self.now.devices.log }
    {
        &self.devices.log
    }

    // What a stage does not hold is empty.
    pub fn copies(&self) -> &[Page]
        ensures { result.now ≡ (working self.now.memory).copies }
    {
        match self.stage {
            Stage::OutOfService | Stage::Analysed => &[],
            Stage::Redone | Stage::Serving => &self.copies,
        }
    }

    pub fn jobs(&self) -> &[JobEntry]
        ensures { result.now ≡ (working self.now.memory).jobs }
    {
        match self.stage {
            Stage::OutOfService => &[],
            Stage::Analysed | Stage::Redone | Stage::Serving => self.jobs.listed(),
        }
    }

    pub fn dirty_pages(&self) -> &[DirtyPage]
        ensures { result.now ≡ (found_in_memory self.now.memory).dirty }
    {
        match self.stage {
            Stage::Analysed => self.dirty.listed(),
            Stage::OutOfService | Stage::Redone | Stage::Serving => &[],
        }
    }

    pub fn first_slot(&self) -> u32
        ensures { result ≡ (found_in_memory self.now.memory).first }
    {
        match self.stage {
            Stage::OutOfService => 1,
            Stage::Analysed | Stage::Redone | Stage::Serving => self.first,
        }
    }
}
