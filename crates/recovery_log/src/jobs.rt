// What a summary holds of each job.
ghost use Rattle.std.specs.Prelude.{◌≡◌, OnOk};
ghost use Rattle.std.specs.Option.{option_map};
ghost use Rattle.recovery_log.specs.Summary.{Carries, TellsJobs, with_action, with_event};

use format::{Action, JobEvent, Slot};
use std::alloc::AllocError;
use std::collections::BTreeMap;

// The three facts are independent of each other in a log of any bytes: a job can be committed, ended and open again.
#[derive(Clone, Copy, Debug, Default, PartialEq, Eq)]
pub struct JobSummary {
    // Its newest event is its open.
    pub open: bool,
    pub committed: bool,
    pub ended: bool,
    // How many of its changes no compensation has taken back.
    pub not_taken_back: u32,
}

pub(crate) fn note_job<C>(
    jobs: &mut BTreeMap<u32, JobSummary>,
    slot: Option<&Slot<C>>,
) -> Result<(), AllocError>
    ensures { OnOk result (Carries TellsJobs (option_map (λ x. x.now) slot.entry) jobs.old jobs.new) }
{
    match slot {
        Some(Slot::Record(record)) => {
            jobs.entry(record.job)?
                .or_default()
                .note_action(record.action)
        }
        Some(Slot::Job { event, job }) => jobs.entry(*job)?.or_default().note_event(*event),
        Some(Slot::Checkpoint(_)) | None => {}
    }
    Ok(())
}

impl JobSummary {
    fn note_event(&mut self, event: JobEvent)
        ensures { self.new ≡ with_event event self.old }
    {
        self.open = matches!(event, JobEvent::Open);
        match event {
            JobEvent::Open => {}
            JobEvent::Commit => self.committed = true,
            JobEvent::End => self.ended = true,
        }
    }

    fn note_action(&mut self, action: Action)
        ensures { self.new ≡ with_action action self.old }
    {
        self.not_taken_back = match action {
            Action::Put => self.not_taken_back.saturating_add(1),
            Action::TakeBack => self.not_taken_back.saturating_sub(1),
        };
    }
}
