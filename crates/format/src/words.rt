// Slots and misfits in words, for people.
use crate::slot::{Action, CheckpointPart, JobEvent, Misfit, PageRecord, Slot, SlotKind};
use std::error::Error;
use std::fmt;

impl<C: fmt::Display> fmt::Display for Slot<C> {
    fn fmt<W: fmt::Write>(&self, f: &mut fmt::Formatter<W>) -> fmt::Result {
        match self {
            Slot::Record(record) => write!(f, "{record}"),
            Slot::Job { event, job } => write!(f, "{event} job {job}"),
            Slot::Checkpoint(part) => write!(f, "checkpoint {part}"),
        }
    }
}

impl<C: fmt::Display> fmt::Display for PageRecord<C> {
    fn fmt<W: fmt::Write>(&self, f: &mut fmt::Formatter<W>) -> fmt::Result {
        let PageRecord {
            action,
            page,
            job,
            lrc,
            link,
            change,
        } = self;
        match action {
            Action::Put => write!(
                f,
                "change by job {job} on page {page}, LRC {lrc}, next before {link}: {change}"
            ),
            Action::TakeBack => write!(
                f,
                "compensation by job {job} on page {page}, LRC {lrc}, next after {link}: takes back {change}"
            ),
        }
    }
}

impl fmt::Display for SlotKind {
    fn fmt<W: fmt::Write>(&self, f: &mut fmt::Formatter<W>) -> fmt::Result {
        f.write_str(match self {
            SlotKind::Open => "open",
            SlotKind::Change => "change",
            SlotKind::Compensation => "compensation",
            SlotKind::Commit => "commit",
            SlotKind::End => "end",
            SlotKind::CheckpointBegin => "checkpoint begin",
            SlotKind::CheckpointPage => "checkpoint page",
            SlotKind::CheckpointJob => "checkpoint job",
            SlotKind::CheckpointEnd => "checkpoint end",
        })
    }
}

impl fmt::Display for JobEvent {
    fn fmt<W: fmt::Write>(&self, f: &mut fmt::Formatter<W>) -> fmt::Result {
        write!(f, "{}", SlotKind::from(*self))
    }
}

impl fmt::Display for CheckpointPart {
    fn fmt<W: fmt::Write>(&self, f: &mut fmt::Formatter<W>) -> fmt::Result {
        match self {
            CheckpointPart::Begin => f.write_str("begin"),
            CheckpointPart::DirtyPage { page, start } => {
                write!(f, "page {page}, redo from slot {start}")
            }
            CheckpointPart::OpenJob { job, next } => write!(f, "job {job}, next {next}"),
            CheckpointPart::Complete { begin } => write!(f, "end, begun in slot {begin}"),
        }
    }
}

impl fmt::Display for Misfit {
    fn fmt<W: fmt::Write>(&self, f: &mut fmt::Formatter<W>) -> fmt::Result {
        match self {
            Misfit::UnknownKind(kind) => write!(f, "there is no kind {kind}"),
            Misfit::UnusedNotZero => f.write_str("a byte that its kind does not use is not zero"),
            Misfit::PageOutside(page) => write!(f, "page {page} is not in the store"),
            Misfit::JobOutside(job) => write!(f, "job {job} is not possible here"),
            Misfit::LrcZero => f.write_str("its LRC is 0"),
            Misfit::LinkOutside(link) => write!(f, "link {link} is not possible here"),
            Misfit::NotAChange => f.write_str("its 40 bytes form no change of this kind"),
        }
    }
}

impl Error for Misfit {}
