// A slot of the log: 60 bytes, of nine kinds.
// A slot is a record of a page, an event of a job, or a part of a checkpoint.
ghost use Rattle.std.specs.Prelude.{◌≡◌};
ghost use Rattle.format.specs.Slots.{kind_of};

mod fields;
mod kind;
mod read;
mod write;

pub use kind::SlotKind;

#[derive(Clone, Copy)]
pub enum Slot<C> {
    Record(PageRecord<C>),
    Job { event: JobEvent, job: u32 },
    Checkpoint(CheckpointPart),
}

// Puts a change on a page, or takes one back (a compensation).
#[derive(Clone, Copy)]
pub struct PageRecord<C> {
    pub action: Action,
    pub page: u8,
    pub job: u32,
    // The page's LRC once this record is played.
    pub lrc: u32,
    // The job's next before a change; after a compensation, the job's next from then on. 0 is none, as the four bytes have it.
    pub link: u32,
    pub change: C,
}

#[derive(Clone, Copy)]
pub enum Action {
    Put,
    TakeBack,
}

#[derive(Clone, Copy)]
pub enum JobEvent {
    Open,
    Commit,
    End,
}

#[derive(Clone, Copy)]
pub enum CheckpointPart {
    Begin,
    // A page whose stored copy lacks records, the first of them in slot `start`.
    DirtyPage { page: u8, start: u32 },
    // A job and its next, 0 where it has none, as the four bytes have it.
    OpenJob { job: u32, next: u32 },
    Complete { begin: u32 },
}

// The first thing by which 60 bytes are no slot at their number, with the value found.
#[derive(Clone, Copy, Debug, PartialEq, Eq)]
pub enum Misfit {
    UnknownKind(u8),
    UnusedNotZero,
    PageOutside(u8),
    JobOutside(u32),
    LrcZero,
    LinkOutside(u32),
    NotAChange,
}

impl<C> Slot<C> {
    pub fn kind(&self) -> SlotKind
        ensures { result ≡ kind_of self.now }
    {
        match self {
            Slot::Record(record) => match record.action {
                Action::Put => SlotKind::Change,
                Action::TakeBack => SlotKind::Compensation,
            },
            Slot::Job { event, .. } => SlotKind::from(*event),
            Slot::Checkpoint(part) => match part {
                CheckpointPart::Begin => SlotKind::CheckpointBegin,
                CheckpointPart::DirtyPage { .. } => SlotKind::CheckpointPage,
                CheckpointPart::OpenJob { .. } => SlotKind::CheckpointJob,
                CheckpointPart::Complete { .. } => SlotKind::CheckpointEnd,
            },
        }
    }
}
