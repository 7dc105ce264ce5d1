// What happened after the begin, slot by slot.
ghost use Rattle.std.specs.Prelude.{◌≡◌, ◌<◌, ◌≤◌, true, Some};
ghost use Rattle.format.specs.declared.slot.Slot.TheVariants.{Record};
ghost use Rattle.format.specs.declared.slot.JobEvent.TheVariants.{Open, End};
ghost use Rattle.recovery_log.specs.Log.{next_by};
ghost use Rattle.rules.specs.Reading.{scan};
ghost use Rattle.rules.specs.Restart.{tables, whole, analyse, analyse_event};
ghost use Rattle.rules.specs.State.{size, log_length, next_slot};
ghost use Rattle.rules.specs.Tables.{Dirty};
ghost use Rattle.calls.specs.Passes.{stepped};
ghost use Rattle.calls.specs.Readers.{slot_of};

use crate::asking::check;
use crate::devices::Devices;
use device::{LogStore, PageStore};
use format::{Action, Change, JobEvent, PageRecord, Slot};
use rules::{JobEntry, Refusal};
use tables::{DirtyTable, JobTable};

impl<P: PageStore, L: LogStore> Devices<P, L> {
    // The slots from the begin on, to the end of the log.
    pub(super) fn analyse_from<K: Change + Drop>(
        &self,
        begin: u32,
        jobs: &mut JobTable,
        dirty: &mut DirtyTable,
    ) -> Result<(), Refusal>
        requires { (self.now.log.powered ≡ true) × (size self.now ≤ 64) × (0 < begin) × (begin ≤ next_slot self.now) }
        ensures { stepped result jobs.new dirty.new ≡ scan begin analyse (tables jobs.old dirty.old) (whole K.Change.meaning self.now) }
    {
        for number in begin..self.next_slot() {
            self.analyse::<K>(number, jobs, dirty)?;
        }
        Ok(())
    }

    fn analyse<K: Change + Drop>(
        &self,
        number: u32,
        jobs: &mut JobTable,
        dirty: &mut DirtyTable,
    ) -> Result<(), Refusal>
        requires { (self.now.log.powered ≡ true) × (size self.now ≤ 64) × (0 < number) × (number ≤ log_length self.now) }
        ensures { stepped result jobs.new dirty.new ≡ analyse number (slot_of K.Change.meaning self.now number) (tables jobs.old dirty.old) }
    {
        match self.slot::<K>(number) {
            Some(Slot::Record(record)) => analyse_record(number, &record, jobs, dirty),
            Some(Slot::Job { event, job }) => analyse_event(event, job, jobs),
            Some(Slot::Checkpoint(_)) => Ok(()),
            None => Err(Refusal::LogUnreadable),
        }
    }
}

// The job's next follows the record, and its page is dirty from here on unless it was before.
fn analyse_record<K: Change>(
    number: u32,
    record: &PageRecord<K>,
    jobs: &mut JobTable,
    dirty: &mut DirtyTable,
) -> Result<(), Refusal>
    requires { «record».now.page < 64 }
    ensures { stepped result jobs.new dirty.new ≡ analyse number (Some (Record «record».now)) (tables jobs.old dirty.old) }
{
    check(jobs.is_job(record.job), Refusal::LogUnreadable)?;
    jobs.set_next(record.job, next_by(record.action, number, record.link));
    dirty.enter(record.page, number);
    Ok(())
}

// The job's next after a record: the change itself, and after a compensation its link.
fn next_by(action: Action, number: u32, link: u32) -> u32
    ensures { result ≡ next_by action number link }
{
    match action {
        Action::Put => number,
        Action::TakeBack => link,
    }
}

fn analyse_event(event: JobEvent, job: u32, jobs: &mut JobTable) -> Result<(), Refusal>
    ensures { (dirty : Dirty) → stepped result jobs.new dirty ≡ analyse_event event job (tables jobs.old dirty) }
{
    match event {
        JobEvent::Open => open(job, jobs),
        JobEvent::Commit | JobEvent::End => close(job, jobs),
    }
}

fn open(job: u32, jobs: &mut JobTable) -> Result<(), Refusal>
    ensures { (dirty : Dirty) → stepped result jobs.new dirty ≡ analyse_event Open job (tables jobs.old dirty) }
{
    check(jobs.count() < 8, Refusal::NoJobPlace)?;
    jobs.enter(JobEntry {
        job,
        next: 0,
        holds: [false; 64],
    });
    Ok(())
}

fn close(job: u32, jobs: &mut JobTable) -> Result<(), Refusal>
    ensures { (dirty : Dirty) → stepped result jobs.new dirty ≡ analyse_event End job (tables jobs.old dirty) }
{
    check(jobs.is_job(job), Refusal::LogUnreadable)?;
    jobs.remove(job);
    Ok(())
}
