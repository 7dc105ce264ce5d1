// Making the job table, and changing it.
ghost use Rattle.std.specs.Prelude.{◌≡◌, ◌<◌, [], length, IfOk};
ghost use Rattle.rules.specs.Tables.{entered, with_next, with_hold, without_job};

use super::{Entries, JobTable};
use rules::JobEntry;
use std::alloc::{AllocError, Global};

impl JobTable {
    // An empty table with its eight places.
    pub fn new(heap: Global) -> Result<JobTable, AllocError>
        ensures { IfOk result (λ t. t ≡ []) }
    {
        let list = Vec::with_capacity(heap, 8)?;
        Ok(JobTable {
            entries: Entries { list },
        })
    }

    pub fn clear(&mut self)
        ensures { self.new ≡ [] }
    {
        self.entries.list.clear();
    }

    // The entry goes before the first of a higher job.
    pub fn enter(&mut self, entry: JobEntry)
        requires { length self.old < 8 }
        ensures { self.new ≡ entered entry self.old }
    {
        let list = &mut self.entries.list;
        let place = list
            .iter()
            .position(|other| entry.job < other.job)
            .unwrap_or(list.len());
        // There is room for it.
        list.insert(place, entry).unwrap();
    }

    pub fn set_next(&mut self, job: u32, next: u32)
        ensures { self.new ≡ with_next job next self.old }
    {
        self.entries.change(job, |entry| entry.next = next);
    }

    pub fn hold(&mut self, job: u32, page: u32)
        requires { page < 64 }
        ensures { self.new ≡ with_hold job page self.old }
    {
        self.entries
            .change(job, |entry| entry.holds[page as usize] = true);
    }

    pub fn remove(&mut self, job: u32)
        ensures { self.new ≡ without_job job self.old }
    {
        self.entries.list.retain(|entry| entry.job != job);
    }
}
