// Write-out: the copy of a page goes to the store. The log is forced first, so that no stored page is ahead of it.
ghost use Rattle.std.specs.Prelude.{◌≡◌};
ghost use Rattle.rules.specs.Plans.{Does};
ghost use Rattle.rules.specs.Runs.{service_plan, writes_out};
ghost use Rattle.rules.specs.Service.{write_out_in};
ghost use Rattle.rules.specs.State.{working};
ghost use Rattle.promises.specs.AnyDevices.{InOrder};
ghost use Rattle.calls.specs.Outcomes.{asked};

use crate::asking::check;
use crate::copies::copy_of;
use crate::state::{Stage, State};
use device::{LogStore, PageStore};
use format::Change;
use rules::Refusal;

impl<P: PageStore, L: LogStore> State<P, L> {
    pub fn write_out<K: Change + Drop>(&mut self, page: u32) -> Result<(), Refusal>
        requires { InOrder K.Change.meaning self.old.devices self.old.memory }
        ensures { Does K.Change.meaning (service_plan K.Change.meaning (writes_out page) self.old) self.old result self.new }
    {
        self.ask_stage(Stage::Serving, Refusal::NotInService)?;
        self.ask_write_out::<K>(page)?;
        let copy = copy_of(&self.copies, page);
        self.stage = Stage::OutOfService;
        self.devices.force::<K>()?;
        self.devices.write::<K>(page, &copy)?;
        self.stage = Stage::Serving;
        Ok(())
    }

    fn ask_write_out<K: Change + Drop>(&self, page: u32) -> Result<(), Refusal>
        ensures { result ≡ asked (write_out_in K.Change.meaning page self.now.devices (working self.now.memory)) }
    {
        check(page < self.devices.size(), Refusal::PageOutside)
    }
}
