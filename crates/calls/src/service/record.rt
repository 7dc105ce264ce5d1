// Record: a change of a page that the job holds is appended. Only a force makes sure that it stays.
ghost use Rattle.std.specs.Prelude.{◌≡◌, Some, Ok, Err, IfOk, IfErr};
ghost use Rattle.rules.specs.Plans.{Does};
ghost use Rattle.rules.specs.Runs.{service_plan, records};
ghost use Rattle.rules.specs.Service.{record_in};
ghost use Rattle.rules.specs.State.{working};
ghost use Rattle.promises.specs.AnyDevices.{InOrder};
ghost use Rattle.calls.specs.Outcomes.{Ready, asked};

use crate::asking::check;
use crate::state::{Stage, State};
use device::{LogStore, PageStore};
use format::{Action, Change, PageRecord, Slot};
use rules::Refusal;

impl<P: PageStore, L: LogStore> State<P, L> {
    pub fn record<K: Change + Drop>(
        &mut self,
        job: u32,
        page: u32,
        lrc: u32,
        bytes: &[u8],
    ) -> Result<(), Refusal>
        requires { InOrder K.Change.meaning self.old.devices self.old.memory }
        ensures { Does K.Change.meaning (service_plan K.Change.meaning (records job page lrc bytes.now) self.old) self.old result self.new }
    {
        self.ask_stage(Stage::Serving, Refusal::NotInService)?;
        let change = self.ask_record::<K>(job, page, lrc, bytes)?;
        let number = self.devices.next_slot();
        // The job is open, so it has a next.
        let link = self.jobs.next_of(job).unwrap_or(0);
        self.stage = Stage::OutOfService;
        self.devices.append(&Slot::Record(PageRecord {
            action: Action::Put,
            // A store has at most 64 pages.
            page: page as u8,
            job,
            lrc,
            link,
            change,
        }))?;
        self.jobs.set_next(job, number);
        self.stage = Stage::Serving;
        Ok(())
    }

    // The questions, and the change that the bytes form.
    fn ask_record<K: Change + Drop>(
        &self,
        job: u32,
        page: u32,
        lrc: u32,
        bytes: &[u8],
    ) -> Result<K, Refusal>
        requires { Ready K.Change.meaning self.now }
        ensures refused { IfErr result (λ why. Err why ≡ asked (record_in K.Change.meaning job page lrc bytes.now self.now.devices (working self.now.memory))) }
        ensures granted { IfOk result (λ change. Ok tt ≡ asked (record_in K.Change.meaning job page lrc bytes.now self.now.devices (working self.now.memory))) }
        ensures change { IfOk result (λ change. K.Change.meaning.reads bytes.now ≡ Some change) }
    {
        check(self.jobs.is_job(job), Refusal::JobNotOpen)?;
        check(page < self.devices.size(), Refusal::PageOutside)?;
        check(self.jobs.held_by(job, page), Refusal::NotHeld)?;
        let change = change_from::<K>(bytes).ok_or(Refusal::NotAChange)?;
        check(lrc == self.last_lrc::<K>(page) + 1, Refusal::LrcOutOfOrder)?;
        check(self.has_room::<K>(2), Refusal::LogFull)?;
        Ok(change)
    }
}

// The change that the bytes form; only 40 bytes form one.
fn change_from<K: Change>(bytes: &[u8]) -> Option<K>
    ensures { result ≡ K.Change.meaning.reads bytes.now }
{
    match <&[u8; 40]>::try_from(bytes) {
        Ok(bytes) => K::from_bytes(bytes),
        Err(_) => None,
    }
}
