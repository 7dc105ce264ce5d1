// Abort: the changes of a job are taken back, and the job is closed. The copies of the pages that it holds are brought up to date first,
// so that each change is on the copy that it is taken back from.
ghost use Rattle.std.specs.Prelude.{◌≡◌};
ghost use Rattle.rules.specs.Plans.{Does};
ghost use Rattle.rules.specs.Runs.{service_plan, aborts};
ghost use Rattle.promises.specs.AnyDevices.{InOrder};

use crate::state::{Stage, State};
use device::{LogStore, PageStore};
use format::{Change, JobEvent, Slot};
use rules::Refusal;

impl<P: PageStore, L: LogStore> State<P, L> {
    pub fn abort<K: Change + Drop>(&mut self, job: u32) -> Result<(), Refusal>
        requires { InOrder K.Change.meaning self.old.devices self.old.memory }
        ensures { Does K.Change.meaning (service_plan K.Change.meaning (aborts job) self.old) self.old result self.new }
    {
        self.ask_stage(Stage::Serving, Refusal::NotInService)?;
        let entry = *self.jobs.find(job).ok_or(Refusal::JobNotOpen)?;
        self.stage = Stage::OutOfService;
        let copies = self.copies.as_mut_slice();
        self.devices.bring_up::<K>(self.first, &entry.holds, copies);
        self.devices
            .take_all_back::<K>(job, entry.next, self.first, copies)?;
        self.devices.append::<K>(&Slot::Job {
            event: JobEvent::End,
            job,
        })?;
        self.jobs.remove(job);
        self.stage = Stage::Serving;
        Ok(())
    }
}
