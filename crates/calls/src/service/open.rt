// Open: a new job, whose number is that of its first slot. The force makes sure that no other job ever gets the number.
ghost use Rattle.std.specs.Prelude.{◌≡◌};
ghost use Rattle.rules.specs.Plans.{Does};
ghost use Rattle.rules.specs.Runs.{service_plan, opens};
ghost use Rattle.rules.specs.Service.{open_in};
ghost use Rattle.rules.specs.State.{working};
ghost use Rattle.promises.specs.AnyDevices.{InOrder};
ghost use Rattle.calls.specs.Outcomes.{Ready, asked};

use crate::asking::check;
use crate::state::{Stage, State};
use device::{LogStore, PageStore};
use format::{Change, JobEvent, Slot};
use rules::{JobEntry, Refusal};

impl<P: PageStore, L: LogStore> State<P, L> {
    pub fn open<K: Change + Drop>(&mut self) -> Result<u32, Refusal>
        requires { InOrder K.Change.meaning self.old.devices self.old.memory }
        ensures { Does K.Change.meaning (service_plan K.Change.meaning opens self.old) self.old result self.new }
    {
        self.ask_stage(Stage::Serving, Refusal::NotInService)?;
        self.ask_open::<K>()?;
        let job = self.devices.next_slot();
        self.stage = Stage::OutOfService;
        self.devices.append::<K>(&Slot::Job {
            event: JobEvent::Open,
            job,
        })?;
        self.devices.force::<K>()?;
        self.jobs.enter(JobEntry {
            job,
            next: 0,
            holds: [false; 64],
        });
        self.stage = Stage::Serving;
        Ok(job)
    }

    fn ask_open<K: Change + Drop>(&self) -> Result<(), Refusal>
        requires { Ready K.Change.meaning self.now }
        ensures { result ≡ asked (open_in K.Change.meaning self.now.devices (working self.now.memory)) }
    {
        check(self.jobs.count() < 8, Refusal::NoJobPlace)?;
        check(self.has_room::<K>(2), Refusal::LogFull)
    }
}
