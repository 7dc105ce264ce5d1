// Checkpoint: a begin, an entry for each page whose stored copy lacks a record, one for each open job, and an end that names the begin. A restart begins
// at the last begin whose end stands, so that whatever of it is lost before the force counts for nothing.
ghost use Rattle.std.specs.Prelude.{◌≡◌, ◌≤◌, ◌<◌, ℕ, true, Ok, None, [], ◌∷◌, ◌++◌, length, map, count_by, is_some, slice_index, slice_index_or};
ghost use Rattle.format.specs.Bytes.{number_at};
ghost use Rattle.rules.specs.Plans.{append, force, Does, Performed};
ghost use Rattle.rules.specs.Playing.{first_lacked};
ghost use Rattle.rules.specs.Runs.{service_plan, checkpoints};
ghost use Rattle.rules.specs.Service.{job_entries, log_read};
ghost use Rattle.rules.specs.State.{size, next_slot, working, out};
ghost use Rattle.promises.specs.AnyDevices.{InOrder};
ghost use Rattle.calls.specs.Outcomes.{Ready};
ghost use Rattle.calls.specs.Parts.{entries_of, slots_of};

use crate::asking::check;
use crate::devices::Devices;
use crate::reading::Reader;
use crate::state::{Stage, State};
use device::{LogStore, PageStore};
use format::{Change, CheckpointPart, Slot};
use rules::{JobEntry, Refusal};

// Finds the first record that each stored page lacks, for all pages in one reading.
#[derive(Drop)]
struct FirstLacked {
    // The LRCs of the stored pages.
    lrcs: [u32; 64],
    firsts: [Option<u32>; 64],
}

impl<K: Change> Reader<K> for FirstLacked {
    ghost says = { λ start s L. (s.lrcs ≡ start.lrcs) × ((p : ℕ) → p < 64 → slice_index_or s.firsts p None ≡ first_lacked p (slice_index s.lrcs p) L) };

    fn note(&mut self, number: u32, slot: &Slot<K>) {
        if let Slot::Record(record) = slot {
            let page = record.page as usize;
            if page < 64 && self.firsts[page].is_none() && self.lrcs[page] < record.lrc {
                self.firsts[page] = Some(number);
            }
        }
    }

    ghost unread = { λ start s L h. h };
}

impl<P: PageStore, L: LogStore> State<P, L> {
    pub fn checkpoint<K: Change + Drop>(&mut self) -> Result<u32, Refusal>
        requires { InOrder K.Change.meaning self.old.devices self.old.memory }
        ensures { Does K.Change.meaning (service_plan K.Change.meaning checkpoints self.old) self.old result self.new }
    {
        self.ask_stage(Stage::Serving, Refusal::NotInService)?;
        let firsts = self.firsts_lacked::<K>();
        let firsts = &firsts[..self.devices.size() as usize];
        let slots = 2 + lacking(firsts) + self.jobs.count() as u32;
        check(self.has_room::<K>(slots), Refusal::LogFull)?;
        let end = self.devices.log_length() + slots;
        self.stage = Stage::OutOfService;
        self.devices
            .append_checkpoint::<K>(firsts, self.jobs.listed())?;
        self.stage = Stage::Serving;
        Ok(end)
    }

    // For each stored page the first record that it lacks.
    fn firsts_lacked<K: Change + Drop>(&self) -> [Option<u32>; 64]
        requires { Ready K.Change.meaning self.now }
        ensures { (p : ℕ) → p < size self.now.devices
            → slice_index_or result p None ≡ first_lacked p (number_at (slice_index_or self.now.devices.pages.pages p []) 0) (log_read K.Change.meaning self.now.devices (working self.now.memory)) }
    {
        let mut reader = FirstLacked {
            lrcs: self.devices.stored_lrcs(),
            firsts: [None; 64],
        };
        self.read_log::<K, _>(&mut reader);
        reader.firsts
    }
}

// How many pages lack a record.
fn lacking(firsts: &[Option<u32>]) -> u32
    requires { length firsts.now ≤ 64 }
    ensures value { result ≡ count_by is_some firsts.now }
    ensures few { result ≤ 64 }
{
    firsts.iter().filter(|first| first.is_some()).count() as u32
}

impl<P: PageStore, L: LogStore> Devices<P, L> {
    // The LRC of each stored page, and zeros beyond them.
    fn stored_lrcs(&self) -> [u32; 64]
        requires { (self.now.pages.powered ≡ true) × (size self.now ≤ 64) }
        ensures { (p : ℕ) → p < size self.now → slice_index result p ≡ number_at (slice_index_or self.now.pages.pages p []) 0 }
    {
        let mut lrcs = [0; 64];
        for page in 0..self.size() {
            lrcs[page as usize] = self.page(page).lrc;
        }
        lrcs
    }

    // The slots of a checkpoint, one after the other, and the force.
    fn append_checkpoint<K: Change + Drop>(
        &mut self,
        firsts: &[Option<u32>],
        jobs: &[JobEntry],
    ) -> Result<(), Refusal>
        requires { (self.old.log.powered ≡ true) × (length firsts.now ≤ 64) }
        ensures { Performed K.Change.meaning (Ok tt) out (map append (slots_of K.Change.meaning (next_slot self.old) firsts.now jobs.now) ++ force ∷ []) self.old result (record { devices = self.new; memory = out }) }
    {
        let begin = self.next_slot();
        self.append::<K>(&Slot::Checkpoint(CheckpointPart::Begin))?;
        self.append_pages::<K>(firsts)?;
        self.append_jobs::<K>(jobs)?;
        self.append::<K>(&Slot::Checkpoint(CheckpointPart::Complete { begin }))?;
        self.force::<K>()
    }

    // An entry for each page that lacks a record, with the first that it lacks.
    fn append_pages<K: Change + Drop>(&mut self, firsts: &[Option<u32>]) -> Result<(), Refusal>
        requires { length firsts.now ≤ 64 }
        ensures { Performed K.Change.meaning (Ok tt) out (map append (entries_of K.Change.meaning 0 firsts.now)) self.old result (record { devices = self.new; memory = out }) }
    {
        for (page, first) in firsts.iter().enumerate() {
            if let Some(start) = *first {
                let entry = CheckpointPart::DirtyPage {
                    page: page as u8,
                    start,
                };
                self.append::<K>(&Slot::Checkpoint(entry))?;
            }
        }
        Ok(())
    }

    // An entry for each open job, with its next.
    fn append_jobs<K: Change + Drop>(&mut self, jobs: &[JobEntry]) -> Result<(), Refusal>
        ensures { Performed K.Change.meaning (Ok tt) out (map append (job_entries K.Change.meaning jobs.now)) self.old result (record { devices = self.new; memory = out }) }
    {
        // The place counts the entries so far, for the loop's invariant.
        for (place, entry) in jobs.iter().enumerate() {
            let part = CheckpointPart::OpenJob {
                job: entry.job,
                next: entry.next,
            };
            self.append::<K>(&Slot::Checkpoint(part))?;
        }
        Ok(())
    }
}
