// What the log owes, and whether it has room.
ghost use Rattle.std.specs.Prelude.{◌≡◌, ◌==◌, ◌<◌, ◌≤◌, ◌^◌, ℕ, cond, length, slice_index, sum};
ghost use Rattle.rules.specs.Service.{has_room, log_read};
ghost use Rattle.rules.specs.State.{working};
ghost use Rattle.rules.specs.Tables.{owed};
ghost use Rattle.calls.specs.Outcomes.{Ready};
ghost use Rattle.calls.specs.Readers.{counted, job_at, Counts, slots_for};

use crate::reading::Reader;
use crate::state::State;
use device::{LogStore, PageStore};
use format::{Action, Change, Slot};
use rules::JobEntry;

impl<P: PageStore, L: LogStore> State<P, L> {
    // 14: enough of the log is free for what is owed and for `slots` more. What is owed is always free.
    pub(crate) fn has_room<K: Change + Drop>(&self, slots: u32) -> bool
        requires { Ready K.Change.meaning self.now }
        ensures { result ≡ has_room K.Change.meaning self.now.devices (working self.now.memory) slots }
    {
        slots <= self.devices.free() - self.owed::<K>()
    }

    // A slot for the end of each open job, and one for each of its changes not taken back.
    fn owed<K: Change + Drop>(&self) -> u32
        requires { Ready K.Change.meaning self.now }
        ensures { result ≡ owed (log_read K.Change.meaning self.now.devices (working self.now.memory)) (working self.now.memory).jobs }
    {
        let mut pending = Pending {
            jobs: self.jobs.listed(),
            counts: [0; 8],
        };
        self.read_log::<K, _>(&mut pending);
        pending.slots()
    }
}

// Counts for each of some jobs its changes not taken back.
#[derive(Drop)]
struct Pending<'a> {
    jobs: &'a [JobEntry],
    counts: [u32; 8],

    ghost few: { length jobs.now ≤ 8 },
}

impl Pending<'_> {
    // A slot for the end of each job, and one for each change that is counted.
    fn slots(&self) -> u32
        requires { slots_for self.now.jobs.now self.now.counts < 2 ^ 32 }
        ensures { result ≡ slots_for self.now.jobs.now self.now.counts }
    {
        let jobs = self.jobs.len();
        jobs as u32 + sum(&self.counts[..jobs])
    }
}

impl<K: Change> Reader<K> for Pending<'_> {
    ghost says = { λ start s L. (s.jobs.now ≡ start.jobs.now) × Counts L s.jobs.now s.counts };

    fn note(&mut self, _number: u32, slot: &Slot<K>) {
        if let Slot::Record(record) = slot {
            count(self.jobs, &mut self.counts, record.job, record.action);
        }
    }

    ghost unread = { λ start s L said. said };
}

// Counts a record of a job.
fn count(jobs: &[JobEntry], counts: &mut [u32; 8], job: u32, action: Action)
    requires { length jobs.now ≤ 8 }
    ensures { (i : ℕ) → i < length jobs.now → slice_index counts.new i ≡ cond (job == job_at jobs.now i) (counted action (slice_index counts.old i)) (slice_index counts.old i) }
{
    for (place, entry) in jobs.iter().enumerate() {
        if job == entry.job {
            counts[place] = count_one(action, counts[place]);
        }
    }
}

// One change more, or one fewer. There are never more than slots.
fn count_one(action: Action, changes: u32) -> u32
    ensures { result ≡ counted action changes }
{
    match action {
        Action::Put => changes.saturating_add(1),
        Action::TakeBack => changes.saturating_sub(1),
    }
}

fn sum(counts: &[u32]) -> u32
    requires { sum counts.now < 2 ^ 32 }
    ensures { result ≡ sum counts.now }
{
    counts.iter().sum()
}
