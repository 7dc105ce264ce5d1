// Reads a slot from its 60 bytes, or says why they do not fit.
// The slot's number and the number of pages go along as two numbers: a struct for them would have to be made at each call.
ghost use Rattle.std.specs.Prelude.{◌≡◌, is_ok, IfOk};
ghost use Rattle.format.specs.Slots.{slot_of, record_from, read_slot, fits, slot_bytes};

use super::fields::Fields;
use super::{Action, CheckpointPart, JobEvent, Misfit, PageRecord, Slot, SlotKind};
use crate::Change;

impl<C: Change> Slot<C> {
    // The slot in `bytes`, as slot `number` of a log over `pages` pages.
    // Bytes that read are the one encoding of the slot that they are read as.
    pub fn read(bytes: &[u8; 60], number: u32, pages: u32) -> Result<Slot<C>, Misfit>
        ensures value { result ≡ read_slot C.Change.meaning pages number bytes.now }
        ensures fits { is_ok result ≡ fits C.Change.meaning pages number bytes.now }
        ensures bytes { IfOk result (λ s. slot_bytes C.Change.meaning s ≡ bytes.now) }
    {
        decode(bytes, number, pages)
    }
}

fn decode<C: Change>(bytes: &[u8; 60], number: u32, pages: u32) -> Result<Slot<C>, Misfit>
    ensures { result ≡ read_slot C.Change.meaning pages number bytes.now }
{
    let fields = Fields::read(bytes)?;
    fields.check(number, pages)?;
    slot(&fields).ok_or(Misfit::NotAChange)
}

// The slot that the fields give, where their change is one.
fn slot<C: Change>(fields: &Fields) -> Option<Slot<C>>
    ensures { result ≡ slot_of C.Change.meaning fields.now }
{
    let job = fields.job;
    let link = fields.link;
    Some(match fields.kind {
        SlotKind::Open => Slot::Job {
            event: JobEvent::Open,
            job,
        },
        SlotKind::Change => record(Action::Put, fields)?,
        SlotKind::Compensation => record(Action::TakeBack, fields)?,
        SlotKind::Commit => Slot::Job {
            event: JobEvent::Commit,
            job,
        },
        SlotKind::End => Slot::Job {
            event: JobEvent::End,
            job,
        },
        SlotKind::CheckpointBegin => Slot::Checkpoint(CheckpointPart::Begin),
        SlotKind::CheckpointPage => Slot::Checkpoint(CheckpointPart::DirtyPage {
            page: fields.page,
            start: link,
        }),
        SlotKind::CheckpointJob => Slot::Checkpoint(CheckpointPart::OpenJob { job, next: link }),
        SlotKind::CheckpointEnd => Slot::Checkpoint(CheckpointPart::Complete { begin: link }),
    })
}

fn record<C: Change>(action: Action, fields: &Fields) -> Option<Slot<C>>
    ensures { result ≡ record_from C.Change.meaning action fields.now }
{
    let change = C::from_bytes(&fields.change)?;
    Some(Slot::Record(PageRecord {
        action,
        page: fields.page,
        job: fields.job,
        lrc: fields.lrc,
        link: fields.link,
        change,
    }))
}
