// Where analysis begins.
ghost use Rattle.std.specs.Prelude.{◌≡◌, ◌≤◌, ◌<◌, true, [], IfOk};
ghost use Rattle.rules.specs.Reading.{last_end};
ghost use Rattle.rules.specs.Restart.{whole, start_at, from_end, from_begin};
ghost use Rattle.rules.specs.State.{size, slots, log_length, next_slot};
ghost use Rattle.calls.specs.Passes.{started, begun};
ghost use Rattle.calls.specs.Readers.{slot_of};

use crate::devices::Devices;
use device::{LogStore, PageStore};
use format::{Change, CheckpointPart, Slot, SlotKind};
use rules::Refusal;
use tables::{DirtyTable, JobTable};

impl<P: PageStore, L: LogStore> Devices<P, L> {
    // The begin of the last checkpoint that was completed, whose entries go into the empty tables; without one, slot 1.
    pub(super) fn start<K: Change + Drop>(
        &self,
        jobs: &mut JobTable,
        dirty: &mut DirtyTable,
    ) -> Result<u32, Refusal>
        requires { (self.now.log.powered ≡ true) × (size self.now ≤ 64) × (jobs.old ≡ []) × (dirty.old ≡ []) }
        ensures value { started result jobs.new dirty.new ≡ start_at (whole K.Change.meaning self.now) (last_end (slots self.now)) }
        ensures inside { IfOk result (λ begin. (0 < begin) × (begin ≤ next_slot self.now)) }
    {
        match self.last_end() {
            0 => Ok(1),
            end => self.begin_of::<K>(end, jobs, dirty),
        }
    }

    // The number of the last slot whose first byte is that of a checkpoint's end, 0 if there is none.
    fn last_end(&self) -> u32
        requires { self.now.log.powered ≡ true }
        ensures value { result ≡ last_end (slots self.now) }
        ensures inside { result ≤ log_length self.now }
    {
        let mut found = 0;
        for number in 1..self.next_slot() {
            if self.first_byte(number) == u8::from(SlotKind::CheckpointEnd) {
                found = number;
            }
        }
        found
    }

    // The begin of the checkpoint that ends in slot `end`.
    fn begin_of<K: Change + Drop>(
        &self,
        end: u32,
        jobs: &mut JobTable,
        dirty: &mut DirtyTable,
    ) -> Result<u32, Refusal>
        requires { (self.now.log.powered ≡ true) × (size self.now ≤ 64) × (0 < end) × (end ≤ log_length self.now) × (jobs.old ≡ []) × (dirty.old ≡ []) }
        ensures value { started result jobs.new dirty.new ≡ from_end (whole K.Change.meaning self.now) end (slot_of K.Change.meaning self.now end) }
        ensures inside { IfOk result (λ begin. (0 < begin) × (begin < end)) }
    {
        let Some(Slot::Checkpoint(CheckpointPart::Complete { begin })) = self.slot::<K>(end) else {
            return Err(Refusal::LogUnreadable);
        };
        self.gather_between::<K>(begin, end, jobs, dirty)?;
        Ok(begin)
    }

    // Only entries stand between a checkpoint's begin and its end.
    fn gather_between<K: Change + Drop>(
        &self,
        begin: u32,
        end: u32,
        jobs: &mut JobTable,
        dirty: &mut DirtyTable,
    ) -> Result<(), Refusal>
        requires { (self.now.log.powered ≡ true) × (size self.now ≤ 64) × (0 < begin) × (begin < end) × (end ≤ log_length self.now) × (jobs.old ≡ []) × (dirty.old ≡ []) }
        ensures { begun begin result jobs.new dirty.new ≡ from_begin (whole K.Change.meaning self.now) end begin (slot_of K.Change.meaning self.now begin) }
    {
        let Some(Slot::Checkpoint(CheckpointPart::Begin)) = self.slot::<K>(begin) else {
            return Err(Refusal::LogUnreadable);
        };
        self.gather_from::<K>(begin + 1, end, jobs, dirty)
    }
}
