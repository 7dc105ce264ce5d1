// What each page should hold, by the calls and their answers alone: the server is never asked.
use crate::failure::Failure;
use crate::kind::Drilled;
use device::{LogFault, LogStore};
use format::{SlotKind, number_at};
use std::alloc::{AllocError, Global};

#[derive(Drop)]
pub struct Ledger<K> {
    // In the order in which the records were accepted.
    entries: Vec<Entry<K>>,
    kept: Vec<u32>,
    // Their commits lost power.
    doubtful: Vec<u32>,
}

#[derive(Clone, Copy)]
struct Entry<K> {
    job: u32,
    page: u32,
    change: K,
}

impl<K: Drilled> Ledger<K> {
    pub(crate) fn new(heap: Global) -> Ledger<K> {
        Ledger {
            entries: Vec::new(heap),
            kept: Vec::new(heap),
            doubtful: Vec::new(heap),
        }
    }

    // A record was accepted.
    pub(crate) fn enter(&mut self, job: u32, page: u32, change: K) -> Result<(), AllocError> {
        self.entries.push(Entry { job, page, change })?;
        Ok(())
    }

    // A commit was accepted.
    pub(crate) fn keep(&mut self, job: u32) -> Result<(), AllocError> {
        self.kept.push(job)?;
        Ok(())
    }

    // A commit lost power.
    pub(crate) fn doubt(&mut self, job: u32) -> Result<(), AllocError> {
        self.doubtful.push(job)?;
        Ok(())
    }

    // The log is as analysis left it: a doubtful job is kept exactly if its commit is there.
    pub(crate) fn settle<L: LogStore>(&mut self, log: &L) -> Result<(), Failure> {
        for job in &self.doubtful {
            if has_commit(log, *job)? {
                self.kept.push(*job)?;
            }
        }
        self.doubtful.clear();
        Ok(())
    }

    // Zeros with the changes of kept jobs put on.
    pub(crate) fn content(&self, page: u32) -> [u8; 252] {
        let mut content = [0; 252];
        for entry in &self.entries {
            if entry.page == page && self.kept.contains(&entry.job) {
                entry.change.put_plainly(&mut content);
            }
        }
        content
    }
}

fn has_commit<L: LogStore>(log: &L, job: u32) -> Result<bool, LogFault> {
    for number in 1..=log.len()? {
        let slot = log.read(number)?;
        if slot[0] == SlotKind::Commit as u8 && number_at(&slot, 4) == job {
            return Ok(true);
        }
    }
    Ok(false)
}
