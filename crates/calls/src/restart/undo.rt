// Undo: the changes of the losers are taken back, over all of them the newest first, and each loser is ended. Then the server serves.
ghost use Rattle.std.specs.Prelude.{◌≡◌, ◌≤◌, ◌<◌, true, if◌then◌else◌, nat_lt, Ok, Err};
ghost use Rattle.std.specs.Option.{unwrap_or};
ghost use Rattle.std.specs.Result.{result_ok};
ghost use Rattle.rules.specs.declared.refusal.Refusal.TheVariants.{LogFull};
ghost use Rattle.rules.specs.Plans.{Does};
ghost use Rattle.rules.specs.Restart.{goes_on, end_idle, undone, undo_plan};
ghost use Rattle.rules.specs.State.{log_length};
ghost use Rattle.calls.specs.TakingBack.{OutcomeOfUndo, end_if_done, EndsJobs, TakesTurn};

use crate::asking::check;
use crate::devices::Devices;
use crate::state::{Stage, State};
use device::{LogStore, PageStore};
use format::{Change, JobEvent, Page, Slot};
use rules::{JobEntry, Refusal};
use tables::JobTable;

impl<P: PageStore, L: LogStore> State<P, L> {
    // Answers how many compensations and ends it appended.
    pub fn undo<K: Change + Drop>(&mut self) -> Result<(u32, u32), Refusal>
        ensures { Does K.Change.meaning (undo_plan K.Change.meaning self.old) self.old result self.new }
    {
        self.ask_stage(Stage::Redone, Refusal::NotTheNextPass)?;
        self.stage = Stage::OutOfService;
        let before = self.devices.log_length();
        let copies = self.copies.as_mut_slice();
        let compensations = self.devices.undo_losers::<K>(&mut self.jobs, copies)?;
        // Each slot that was appended is a compensation or an end.
        let ends = self.devices.log_length() - before - compensations;
        self.devices.force::<K>()?;
        self.stage = Stage::Serving;
        Ok((compensations, ends))
    }
}

impl<P: PageStore, L: LogStore> Devices<P, L> {
    // All of undo but the force; how many changes it took back.
    fn undo_losers<K: Change + Drop>(
        &mut self,
        jobs: &mut JobTable,
        copies: &mut [Page],
    ) -> Result<u32, Refusal>
        requires { self.old.log.powered ≡ true }
        ensures { OutcomeOfUndo K.Change.meaning self.old (undone K.Change.meaning self.old (record { copies = copies.old; jobs = jobs.old; first = 1 }))
            result self.new jobs.new copies.new (unwrap_or (result_ok result) 0) }
    {
        // No change to take back is among the slots that are appended from here on.
        let last = self.log_length();
        // The jobs leave the table while the losers are gone through.
        let (losers, count) = jobs.copied();
        self.end_idle::<K>(&losers[..count], jobs)?;
        let mut compensations = 0;
        while let Some(entry) = jobs.latest() {
            self.undo_change::<K>(&entry, last, jobs, copies)?;
            compensations += 1;
        }
        Ok(compensations)
    }

    // Ends those of the losers that have nothing to take back.
    fn end_idle<K: Change + Drop>(
        &mut self,
        losers: &[JobEntry],
        jobs: &mut JobTable,
    ) -> Result<(), Refusal>
        requires { self.old.log.powered ≡ true }
        ensures { EndsJobs K.Change.meaning (λ capacity u. end_idle K.Change.meaning capacity losers.now (goes_on K.Change.meaning u)) self.old jobs.old result self.new jobs.new }
    {
        for loser in losers {
            self.end_if_done::<K>(loser.job, loser.next, jobs)?;
        }
        Ok(())
    }

    // Takes back the change that is the entry's next, and ends the job if that was its oldest.
    fn undo_change<K: Change + Drop>(
        &mut self,
        entry: &JobEntry,
        last: u32,
        jobs: &mut JobTable,
        copies: &mut [Page],
    ) -> Result<(), Refusal>
        requires { (self.old.log.powered ≡ true) × (last ≤ log_length self.old) }
        ensures turns { TakesTurn K.Change.meaning entry.now last self.old jobs.old copies.old result self.new jobs.new copies.new }
        ensures fits { log_length self.old < 4294967295 }
    {
        self.check_slot()?;
        let change = self
            .change::<K>(entry.job, entry.next, 1, last)
            .ok_or(Refusal::LogUnreadable)?;
        let link = change.link;
        self.take_back(change, copies)?;
        jobs.set_next(entry.job, link);
        self.end_if_done::<K>(entry.job, link, jobs)
    }

    // Ends the job if it has nothing to take back, by its next.
    fn end_if_done<K: Change + Drop>(
        &mut self,
        job: u32,
        next: u32,
        jobs: &mut JobTable,
    ) -> Result<(), Refusal>
        requires { self.old.log.powered ≡ true }
        ensures { EndsJobs K.Change.meaning (λ capacity u. end_if_done K.Change.meaning capacity next job u) self.old jobs.old result self.new jobs.new }
    {
        if next != 0 {
            return Ok(());
        }
        self.check_slot()?;
        self.append::<K>(&Slot::Job {
            event: JobEvent::End,
            job,
        })?;
        jobs.remove(job);
        Ok(())
    }

    // 14: one slot of the log is free.
    fn check_slot(&self) -> Result<(), Refusal>
        requires { self.now.log.powered ≡ true }
        ensures value { result ≡ (if nat_lt (log_length self.now) self.now.log.capacity then Ok tt else Err LogFull) }
        ensures fits { log_length self.now < 4294967295 }
    {
        check(self.log_length() < self.capacity(), Refusal::LogFull)
    }
}
