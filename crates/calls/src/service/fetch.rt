// Fetch: the bytes of a page's copy. From then on the job holds the page.
ghost use Rattle.std.specs.Prelude.{◌≡◌};
ghost use Rattle.rules.specs.Plans.{Does};
ghost use Rattle.rules.specs.Runs.{service_plan, fetches};
ghost use Rattle.rules.specs.Service.{fetch_in};
ghost use Rattle.rules.specs.State.{working};
ghost use Rattle.promises.specs.AnyDevices.{InOrder};
ghost use Rattle.calls.specs.Outcomes.{Ready, asked};

use crate::asking::check;
use crate::copies::copy_of;
use crate::state::{Stage, State};
use device::{LogStore, PageStore};
use format::Change;
use rules::Refusal;

impl<P: PageStore, L: LogStore> State<P, L> {
    pub fn fetch<K: Change + Drop>(
        &mut self,
        job: u32,
        page: u32,
        buffer_length: usize,
    ) -> Result<[u8; 256], Refusal>
        requires { InOrder K.Change.meaning self.old.devices self.old.memory }
        ensures { Does K.Change.meaning (service_plan K.Change.meaning (fetches job page buffer_length) self.old) self.old result self.new }
    {
        self.ask_stage(Stage::Serving, Refusal::NotInService)?;
        self.ask_fetch::<K>(job, page, buffer_length)?;
        self.jobs.hold(job, page);
        Ok(copy_of(&self.copies, page).to_bytes())
    }

    fn ask_fetch<K: Change + Drop>(
        &self,
        job: u32,
        page: u32,
        buffer_length: usize,
    ) -> Result<(), Refusal>
        requires { Ready K.Change.meaning self.now }
        ensures { result ≡ asked (fetch_in K.Change.meaning job page buffer_length self.now.devices (working self.now.memory)) }
    {
        check(self.jobs.is_job(job), Refusal::JobNotOpen)?;
        check(page < self.devices.size(), Refusal::PageOutside)?;
        check(buffer_length == 256, Refusal::BufferSize)?;
        check(!self.jobs.held_by_another(job, page), Refusal::HeldAlready)
    }
}
