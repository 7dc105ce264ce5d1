// Analysis: the open jobs and the dirty pages, from the last checkpoint that was completed.
ghost use Rattle.std.specs.Prelude.{◌≡◌, ◌≤◌, true, []};
ghost use Rattle.rules.specs.Plans.{Does};
ghost use Rattle.rules.specs.Reading.{last_end};
ghost use Rattle.rules.specs.Restart.{whole, found_in, analysis_plan};
ghost use Rattle.rules.specs.State.{size, slots, sizes_legal};
ghost use Rattle.calls.specs.Passes.{found};

mod begin;
mod entries;
mod events;

use crate::asking::check;
use crate::devices::Devices;
use crate::state::{Stage, State};
use device::{LogStore, PageStore};
use format::Change;
use rules::Refusal;
use tables::{DirtyTable, JobTable};

impl<P: PageStore, L: LogStore> State<P, L> {
    // Answers the first slot read whole, and how many jobs are open and pages dirty.
    pub fn analysis<K: Change + Drop>(&mut self) -> Result<(u32, u32, u32), Refusal>
        ensures { Does K.Change.meaning (analysis_plan K.Change.meaning self.old) self.old result self.new }
    {
        check(self.devices.has_legal_sizes(), Refusal::SizesOutOfRange)?;
        self.stage = Stage::OutOfService;
        self.devices.power_on();
        self.jobs.clear();
        self.dirty.clear();
        self.first = self.devices.find::<K>(&mut self.jobs, &mut self.dirty)?;
        self.stage = Stage::Analysed;
        Ok((
            self.first,
            self.jobs.count() as u32,
            self.dirty.count() as u32,
        ))
    }
}

impl<P: PageStore, L: LogStore> Devices<P, L> {
    // 1: the store has 1 to 64 pages and the log 8 to 4,096 slots.
    fn has_legal_sizes(&self) -> bool
        ensures { result ≡ sizes_legal self.now }
    {
        (1..=64).contains(&self.size()) && (8..=4096).contains(&self.capacity())
    }

    // The jobs and pages go into the empty tables; the answer is the first slot read whole.
    fn find<K: Change + Drop>(
        &self,
        jobs: &mut JobTable,
        dirty: &mut DirtyTable,
    ) -> Result<u32, Refusal>
        requires { (self.now.log.powered ≡ true) × (size self.now ≤ 64) × (jobs.old ≡ []) × (dirty.old ≡ []) }
        ensures { found result jobs.new dirty.new ≡ found_in (whole K.Change.meaning self.now) (last_end (slots self.now)) }
    {
        let begin = self.start::<K>(jobs, dirty)?;
        self.analyse_from::<K>(begin, jobs, dirty)?;
        Ok(begin)
    }
}
