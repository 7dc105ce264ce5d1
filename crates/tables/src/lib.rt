// The server's tables: open jobs, and dirty pages.
// They are two types: the job table keeps its entries in an inner struct that lends them, and the two are asked different questions.
#![tactic(auto)]

mod dirty;
mod jobs;

pub use dirty::DirtyTable;
pub use jobs::JobTable;

// No clause can rule out running out of memory, so that making a table succeeds is shown here.
#[cfg(test)]
mod tests {
    use super::{DirtyTable, JobTable};
    use rules::JobEntry;
    use std::test::Fail;

    #[test]
    fn a_job_enters_holds_and_leaves(rt: HostRuntime) -> Result<(), Fail> {
        let mut jobs = JobTable::new(rt.alloc())?;
        jobs.enter(JobEntry {
            job: 4,
            next: 0,
            holds: [false; 64],
        });
        jobs.set_next(4, 5);
        jobs.hold(4, 63);
        assert!(rt; jobs.is_job(4) && jobs.held_by(4, 63) && !jobs.is_held(0));
        assert_eq!(rt; (jobs.count(), jobs.next_of(4)), (1, Some(5)));
        jobs.remove(4);
        assert_eq!(rt; jobs.count(), 0);
        Ok(())
    }

    #[test]
    fn a_dirty_page_keeps_its_first_start(rt: HostRuntime) -> Result<(), Fail> {
        let mut dirty = DirtyTable::new(rt.alloc())?;
        dirty.enter(1, 7);
        dirty.enter(1, 9);
        assert!(rt; dirty.is_due(1, 7) && !dirty.is_due(1, 6) && !dirty.is_due(0, 9));
        assert_eq!(rt; (dirty.count(), dirty.least_start()), (1, Some(7)));
        Ok(())
    }
}
