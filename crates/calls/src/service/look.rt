// Look: the bytes of the copy of a page that no job holds.
ghost use Rattle.std.specs.Prelude.{◌≡◌};
ghost use Rattle.rules.specs.Plans.{Does};
ghost use Rattle.rules.specs.Runs.{service_plan, looks};
ghost use Rattle.rules.specs.Service.{look_in};
ghost use Rattle.rules.specs.State.{working};
ghost use Rattle.promises.specs.AnyDevices.{InOrder};
ghost use Rattle.calls.specs.Outcomes.{Ready, asked};

use crate::asking::check;
use crate::copies::copy_of;
use crate::state::{Stage, State};
use device::{LogStore, PageStore};
use format::Change;
use rules::Refusal;

impl<P: PageStore, L: LogStore> State<P, L> {
    pub fn look<K: Change + Drop>(
        &mut self,
        page: u32,
        buffer_length: usize,
    ) -> Result<[u8; 256], Refusal>
        requires { InOrder K.Change.meaning self.old.devices self.old.memory }
        ensures { Does K.Change.meaning (service_plan K.Change.meaning (looks page buffer_length) self.old) self.old result self.new }
    {
        self.ask_stage(Stage::Serving, Refusal::NotInService)?;
        self.ask_look::<K>(page, buffer_length)?;
        Ok(copy_of(&self.copies, page).to_bytes())
    }

    fn ask_look<K: Change + Drop>(&self, page: u32, buffer_length: usize) -> Result<(), Refusal>
        requires { Ready K.Change.meaning self.now }
        ensures { result ≡ asked (look_in K.Change.meaning page buffer_length self.now.devices (working self.now.memory)) }
    {
        check(page < self.devices.size(), Refusal::PageOutside)?;
        check(buffer_length == 256, Refusal::BufferSize)?;
        check(!self.jobs.is_held(page), Refusal::HeldAlready)
    }
}
