// A script of calls, as data.
use crate::arguments::Arguments;
use server::Refusal;
use std::alloc::{AllocError, Global};
use std::fmt;

// The page that all jobs change.
pub const PAGE: u32 = 0;

// A call of the server. Calls for a job are for the one that was opened last.
#[derive(Clone, Copy, Debug, PartialEq, Eq)]
pub enum Step {
    Analysis,
    Redo,
    Undo,
    Open,
    Fetch { page: u32 },
    // A record of the change of this number; changes are numbered from 1 through the whole script.
    Record { page: u32, change: u32 },
    Checkpoint,
    // The page as fetched, with the changes recorded since.
    Ship { page: u32 },
    Commit,
    WriteOut { page: u32 },
    Look { page: u32 },
}

// A step that was refused.
#[derive(Clone, Copy, Debug, PartialEq, Eq)]
pub struct Stopped {
    pub step: Step,
    pub refusal: Refusal,
}

const RESTART: [Step; 3] = [Step::Analysis, Step::Redo, Step::Undo];

// What is done before power is lost if it is lost nowhere earlier, and what is done after each loss.
#[derive(Drop)]
pub struct Steps {
    pub work: Vec<Step>,
    pub recovery: Vec<Step>,
}

impl Steps {
    pub(crate) fn new(heap: Global, arguments: &Arguments) -> Result<Steps, AllocError> {
        let mut recovery = Vec::from_array(heap, RESTART)?;
        for page in 0..arguments.pages {
            recovery.push(Step::Look { page })?;
        }
        Ok(Steps {
            work: work(heap, arguments)?,
            recovery,
        })
    }
}

// All jobs are one after the other; the last stays open, with its page written out.
fn work(heap: Global, arguments: &Arguments) -> Result<Vec<Step>, AllocError> {
    let mut steps = Vec::from_array(heap, RESTART)?;
    let mut sent = 0u32;
    for job in 1..=arguments.jobs {
        add_job(&mut steps, sent, arguments.changes)?;
        sent = sent.saturating_add(arguments.changes);
        steps.push(if job < arguments.jobs {
            Step::Commit
        } else {
            Step::WriteOut { page: PAGE }
        })?;
    }
    Ok(steps)
}

// So many changes were sent before by other jobs. The checkpoint comes before the job's last change: then the page lacks records both in the store and in the server's copy,
// and there are records that only the log after the checkpoint has, which nothing forced.
fn add_job(steps: &mut Vec<Step>, sent: u32, changes: u32) -> Result<(), AllocError> {
    steps.push(Step::Open)?;
    steps.push(Step::Fetch { page: PAGE })?;
    for change in 1..=changes {
        if change == changes {
            steps.push(Step::Checkpoint)?;
        }
        steps.push(Step::Record {
            page: PAGE,
            change: sent.saturating_add(change),
        })?;
    }
    steps.push(Step::Ship { page: PAGE })?;
    Ok(())
}

impl fmt::Display for Step {
    fn fmt<W: fmt::Write>(&self, f: &mut fmt::Formatter<W>) -> fmt::Result {
        match self {
            Step::Analysis => f.write_str("analysis"),
            Step::Redo => f.write_str("redo"),
            Step::Undo => f.write_str("undo"),
            Step::Open => f.write_str("open"),
            Step::Fetch { page } => write!(f, "fetch page {page}"),
            Step::Record { change, .. } => write!(f, "record change {change}"),
            Step::Checkpoint => f.write_str("checkpoint"),
            Step::Ship { page } => write!(f, "ship page {page}"),
            Step::Commit => f.write_str("commit"),
            Step::WriteOut { page } => write!(f, "write out page {page}"),
            Step::Look { page } => write!(f, "look at page {page}"),
        }
    }
}

impl fmt::Display for Stopped {
    fn fmt<W: fmt::Write>(&self, f: &mut fmt::Formatter<W>) -> fmt::Result {
        let Stopped { step, refusal } = self;
        write!(f, "{step}: {refusal}")
    }
}
