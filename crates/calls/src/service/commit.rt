// Commit: the job's changes are kept, and it is open no longer. Its slot is forced, so that no loss of power takes it back.
ghost use Rattle.std.specs.Prelude.{◌≡◌, ℕ, not, nat_lt, slice_index_or};
ghost use Rattle.rules.specs.Plans.{Does};
ghost use Rattle.rules.specs.Runs.{service_plan, commits};
ghost use Rattle.rules.specs.Service.{commit_in, held_complete, copy_of, each_held};
ghost use Rattle.rules.specs.State.{working};
ghost use Rattle.promises.specs.AnyDevices.{InOrder};
ghost use Rattle.calls.specs.Outcomes.{Ready, asked};

use crate::asking::check;
use crate::copies::copy_of;
use crate::reading::Reader;
use crate::state::{Stage, State};
use device::{LogStore, PageStore};
use format::{Change, JobEvent, Page, Slot};
use rules::Refusal;

impl<P: PageStore, L: LogStore> State<P, L> {
    pub fn commit<K: Change + Drop>(&mut self, job: u32) -> Result<u32, Refusal>
        requires { InOrder K.Change.meaning self.old.devices self.old.memory }
        ensures { Does K.Change.meaning (service_plan K.Change.meaning (commits job) self.old) self.old result self.new }
    {
        self.ask_stage(Stage::Serving, Refusal::NotInService)?;
        self.ask_commit::<K>(job)?;
        let number = self.devices.next_slot();
        self.stage = Stage::OutOfService;
        self.devices.append::<K>(&Slot::Job {
            event: JobEvent::Commit,
            job,
        })?;
        self.devices.force::<K>()?;
        self.jobs.remove(job);
        self.stage = Stage::Serving;
        Ok(number)
    }

    fn ask_commit<K: Change + Drop>(&self, job: u32) -> Result<(), Refusal>
        requires { Ready K.Change.meaning self.now }
        ensures { result ≡ asked (commit_in K.Change.meaning job self.now.devices (working self.now.memory)) }
    {
        check(self.jobs.is_job(job), Refusal::JobNotOpen)?;
        check(self.held_complete::<K>(job), Refusal::CopyIncomplete)
    }

    // 13: the copy of each page that the job holds lacks no record.
    fn held_complete<K: Change + Drop>(&self, job: u32) -> bool
        requires { Ready K.Change.meaning self.now }
        ensures { result ≡ held_complete K.Change.meaning self.now.devices (working self.now.memory) job }
    {
        let mut highest = HighestLrcs { of_page: [0; 256] };
        self.read_log::<K, HighestLrcs>(&mut highest);
        match self.jobs.find(job) {
            Some(entry) => highest.reached_by(&self.copies, &entry.holds),
            None => true,
        }
    }
}

// The highest LRC among the records of each page, 0 where it has none. A copy with a lower LRC lacks a record.
#[derive(Drop)]
struct HighestLrcs {
    // A record's page is one byte.
    of_page: [u32; 256],
}

impl<K: Change> Reader<K> for HighestLrcs {
    ghost use Rattle.calls.specs.Readers.{highest_lrc};

    ghost says = { λ start s L. (p : ℕ) → slice_index_or s.of_page p 0 ≡ highest_lrc p L };

    fn note(&mut self, _number: u32, slot: &Slot<K>) {
        if let Slot::Record(record) = slot {
            let page = record.page as usize;
            self.of_page[page] = record.lrc.max(self.of_page[page]);
        }
    }

    ghost unread = { λ start s L h. h };
}

impl HighestLrcs {
    // Whether the copies of the pages that are held have come that far.
    fn reached_by(&self, copies: &[Page], holds: &[bool; 64]) -> bool
        ensures { result ≡ each_held (λ p. not (nat_lt (copy_of copies.now p).lrc (slice_index_or self.now.of_page p 0))) holds.now }
    {
        for page in 0..64 {
            if holds[page as usize] && copy_of(copies, page).lrc < self.of_page[page as usize] {
                return false;
            }
        }
        true
    }
}
