// The entries of a checkpoint, gathered into the tables.
ghost use Rattle.std.specs.Prelude.{◌≡◌, ◌<◌, ◌≤◌, pred, true};
ghost use Rattle.format.specs.declared.slot.CheckpointPart.TheVariants.{DirtyPage, OpenJob};
ghost use Rattle.rules.specs.Reading.{scan, up_to};
ghost use Rattle.rules.specs.Restart.{tables, whole, gather, gather_part};
ghost use Rattle.rules.specs.State.{size, log_length};
ghost use Rattle.rules.specs.Tables.{Jobs, Dirty};
ghost use Rattle.calls.specs.Passes.{stepped};
ghost use Rattle.calls.specs.Readers.{slot_of};

use crate::asking::check;
use crate::devices::Devices;
use device::{LogStore, PageStore};
use format::{Change, CheckpointPart, Slot};
use rules::{JobEntry, Refusal};
use tables::{DirtyTable, JobTable};

impl<P: PageStore, L: LogStore> Devices<P, L> {
    // The slots of a checkpoint from `from` on and before `end`, its end.
    pub(super) fn gather_from<K: Change + Drop>(
        &self,
        from: u32,
        end: u32,
        jobs: &mut JobTable,
        dirty: &mut DirtyTable,
    ) -> Result<(), Refusal>
        requires { (self.now.log.powered ≡ true) × (size self.now ≤ 64) × (0 < from) × (from ≤ end) × (end ≤ log_length self.now) }
        ensures { stepped result jobs.new dirty.new ≡ scan from gather (tables jobs.old dirty.old) (up_to (pred end) (whole K.Change.meaning self.now)) }
    {
        for number in from..end {
            self.gather::<K>(number, jobs, dirty)?;
        }
        Ok(())
    }

    fn gather<K: Change + Drop>(
        &self,
        number: u32,
        jobs: &mut JobTable,
        dirty: &mut DirtyTable,
    ) -> Result<(), Refusal>
        requires { (self.now.log.powered ≡ true) × (size self.now ≤ 64) × (0 < number) × (number ≤ log_length self.now) }
        ensures { stepped result jobs.new dirty.new ≡ gather number (slot_of K.Change.meaning self.now number) (tables jobs.old dirty.old) }
    {
        match self.slot::<K>(number) {
            Some(Slot::Checkpoint(CheckpointPart::DirtyPage { page, start })) => {
                gather_page(page, start, dirty)
            }
            Some(Slot::Checkpoint(CheckpointPart::OpenJob { job, next })) => {
                gather_job(job, next, jobs)
            }
            _ => Err(Refusal::LogUnreadable),
        }
    }
}

// A page that is there already is refused.
fn gather_page(page: u8, start: u32, dirty: &mut DirtyTable) -> Result<(), Refusal>
    requires { page < 64 }
    ensures { (jobs : Jobs) → stepped result jobs dirty.new ≡ gather_part (DirtyPage page start) (tables jobs dirty.old) }
{
    check(dirty.find_page(page).is_none(), Refusal::LogUnreadable)?;
    dirty.enter(page, start);
    Ok(())
}

// So is a ninth job, and one that is there already.
fn gather_job(job: u32, next: u32, jobs: &mut JobTable) -> Result<(), Refusal>
    ensures { (dirty : Dirty) → stepped result jobs.new dirty ≡ gather_part (OpenJob job next) (tables jobs.old dirty) }
{
    check(jobs.count() < 8, Refusal::NoJobPlace)?;
    check(!jobs.is_job(job), Refusal::LogUnreadable)?;
    jobs.enter(JobEntry {
        job,
        next,
        holds: [false; 64],
    });
    Ok(())
}
