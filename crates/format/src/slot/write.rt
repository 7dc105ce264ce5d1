// Writes a slot into its 60 bytes.
ghost use Rattle.std.specs.Prelude.{◌≡◌, ℕ, true, false, Ok, slice_index};
ghost use Rattle.format.specs.Slots.{slot_fields, slot_bytes, slot_fits, read_slot, kind_uses_byte, kind_of};

use super::fields::Fields;
use super::{CheckpointPart, Slot};
use crate::Change;

impl<C: Change> Slot<C> {
    // The 60 bytes of the slot. Where it may stand in a log, they are read as this slot.
    pub fn write(&self) -> [u8; 60]
        ensures value { result ≡ slot_bytes C.Change.meaning self.now }
        ensures reads { (pages number : ℕ) → slot_fits C.Change.meaning pages number self.now ≡ true → read_slot C.Change.meaning pages number result ≡ Ok self.now }
        ensures unused { (i : ℕ) → kind_uses_byte (kind_of self.now) i ≡ false → slice_index result i ≡ 0 }
    {
        fields(self).only_used().write()
    }
}

// By functions, here and where slots are read, and not by impls of std: they want a kind of change, and fields may be those of no slot.
fn fields<C: Change>(slot: &Slot<C>) -> Fields
    ensures { result ≡ slot_fields C.Change.meaning slot.now }
{
    let zero = Fields::zero(slot.kind());
    match slot {
        Slot::Record(record) => Fields {
            page: record.page,
            job: record.job,
            lrc: record.lrc,
            link: record.link,
            change: record.change.to_bytes(),
            ..zero
        },
        Slot::Job { job, .. } => Fields { job: *job, ..zero },
        Slot::Checkpoint(part) => match part {
            CheckpointPart::Begin => zero,
            CheckpointPart::DirtyPage { page, start } => Fields {
                page: *page,
                link: *start,
                ..zero
            },
            CheckpointPart::OpenJob { job, next } => Fields {
                job: *job,
                link: *next,
                ..zero
            },
            CheckpointPart::Complete { begin } => Fields {
                link: *begin,
                ..zero
            },
        },
    }
}
