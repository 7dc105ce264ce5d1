// Questions to the job table.
ghost use Rattle.std.specs.Prelude.{◌≡◌, ◌≤◌, length, take};
ghost use Rattle.std.specs.Option.{option_map};
ghost use Rattle.rules.specs.Restart.{latest_of, latest};
ghost use Rattle.rules.specs.Tables.{find_job, is_job, holds_page, held_by, held_by_another, is_held};

use super::JobTable;
use rules::JobEntry;

impl JobTable {
    pub fn count(&self) -> usize
        ensures value { result ≡ length self.now }
        ensures few { result ≤ 8 }
    {
        self.entries.list.len()
    }

    // The entries, ascending by job.
    pub fn listed(&self) -> &[JobEntry]
        ensures value { result.now ≡ self.now }
        ensures few { length result.now ≤ 8 }
    {
        self.entries.list.as_slice()
    }

    // The entries in an array of their own, and how many they are.
    pub fn copied(&self) -> ([JobEntry; 8], usize)
        ensures value { take result.1 result.0 ≡ self.now }
        ensures few { result.1 ≤ 8 }
    {
        let entries = self.listed();
        let count = entries.len();
        let mut copies = [JobEntry {
            job: 0,
            next: 0,
            holds: [false; 64],
        }; 8];
        copies[..count].copy_from_slice(entries);
        (copies, count)
    }

    // The entry with the largest next, among equals that of the lowest job.
    pub fn latest(&self) -> Option<JobEntry>
        ensures { result ≡ latest self.now }
    {
        self.listed()
            .iter()
            .rev()
            .fold(None, |best, entry| Some(later_of(*entry, best)))
    }

    pub fn is_job(&self, job: u32) -> bool
        ensures { result ≡ is_job job self.now }
    {
        self.find(job).is_some()
    }

    // The job's next, None where there is no such job. Where the job has no change to take back, its next is 0, as its slots write it.
    pub fn next_of(&self, job: u32) -> Option<u32>
        ensures { result ≡ option_map (λ e. e.next) (find_job job self.now) }
    {
        self.find(job).map(|entry| entry.next)
    }

    pub fn held_by(&self, job: u32, page: u32) -> bool
        ensures { result ≡ held_by job page self.now }
    {
        self.listed()
            .iter()
            .any(|entry| entry.job == job && holds(entry, page))
    }

    pub fn held_by_another(&self, job: u32, page: u32) -> bool
        ensures { result ≡ held_by_another job page self.now }
    {
        self.listed()
            .iter()
            .any(|entry| entry.job != job && holds(entry, page))
    }

    pub fn is_held(&self, page: u32) -> bool
        ensures { result ≡ is_held page self.now }
    {
        self.listed().iter().any(|entry| holds(entry, page))
    }

    pub fn find(&self, job: u32) -> Option<&JobEntry>
        ensures { option_map (λ x. x.now) result ≡ find_job job self.now }
    {
        self.listed().iter().find(|entry| entry.job == job)
    }
}

// The entry, unless another one, of a higher job, has a larger next.
fn later_of(entry: JobEntry, other: Option<JobEntry>) -> JobEntry
    ensures { result ≡ latest_of entry other }
{
    match other {
        Some(other) if entry.next < other.next => other,
        _ => entry,
    }
}

// Whether the job of the entry holds the page; beyond 64 pages there is nothing to hold.
fn holds(entry: &JobEntry, page: u32) -> bool
    ensures { result ≡ holds_page page entry.now }
{
    entry.holds.get(page as usize).copied().unwrap_or(false)
}
