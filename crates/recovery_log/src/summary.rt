// A summary of a log, fed one slot after the other from the oldest on.
ghost use Rattle.std.specs.Prelude.{◌≡◌, [], ◌∷◌, OnOk};
ghost use Rattle.std.specs.Option.{option_map};
ghost use Rattle.recovery_log.specs.Log.{Log, how_many_misfits, making, new_number};
ghost use Rattle.recovery_log.specs.Summary.{Tells, Noted, Carries, TellsPages, TellsKinds, TellsMaking, complete};

use crate::error::NoteError;
use crate::jobs::{JobSummary, note_job};
use crate::making::{Draft, next_draft};
use format::{CheckpointPart, Slot, SlotKind};
use std::alloc::{AllocError, Global};
use std::collections::BTreeMap;

#[derive(Drop)]
pub struct Summary {
    // How many slots were noted.
    pub slots: u32,
    // Every job that an event or a record names.
    pub jobs: BTreeMap<u32, JobSummary>,
    // The LRC of each page's newest record.
    pub pages: BTreeMap<u8, u32>,
    // How many slots do not fit.
    pub misfits: u32,
    // How many slots there are of each kind, in the order of their numbers: a row and no map, so that a count wants no memory.
    pub kinds: [(SlotKind, u32); 9],
    // The newest that is complete.
    pub checkpoint: Option<Checkpoint>,
    making: Option<Draft>,
    // For the names of the next checkpoint.
    heap: Global,
}

// By the numbers of its begin and of its end.
#[derive(Clone, Copy, Debug, PartialEq, Eq)]
pub struct Checkpoint {
    pub begin: u32,
    pub end: u32,
}

const NO_SLOTS: [(SlotKind, u32); 9] = [
    (SlotKind::Open, 0),
    (SlotKind::Change, 0),
    (SlotKind::Compensation, 0),
    (SlotKind::Commit, 0),
    (SlotKind::End, 0),
    (SlotKind::CheckpointBegin, 0),
    (SlotKind::CheckpointPage, 0),
    (SlotKind::CheckpointJob, 0),
    (SlotKind::CheckpointEnd, 0),
];

impl Summary {
    // Of a log that has no slot yet; C is the log's kind of change.
    pub fn new<C>(heap: Global) -> Summary
        ensures { Tells {C = C} result [] }
    {
        Summary {
            slots: 0,
            jobs: BTreeMap::new(heap),
            pages: BTreeMap::new(heap),
            misfits: 0,
            kinds: NO_SLOTS,
            checkpoint: None,
            making: None,
            heap,
        }
    }

    // None stands for a slot whose bytes do not fit.
    pub fn note<C>(&mut self, slot: Option<&Slot<C>>) -> Result<(), NoteError>
        ensures { Noted (option_map (λ x. x.now) slot.entry) self.old self.new result }
    {
        let number = self.slots.checked_add(1).ok_or(NoteError::TooManySlots)?;
        note_job(&mut self.jobs, slot)?;
        note_page(&mut self.pages, slot)?;
        note_misfit(&mut self.misfits, slot);
        note_kind(&mut self.kinds, slot);
        self.checkpoint = newest(self.checkpoint, self.making.as_ref(), slot, number);
        self.making = next_draft(self.making.take(), slot, number, self.heap)?;
        self.slots = number;
        Ok(())
    }
}

fn note_page<C>(pages: &mut BTreeMap<u8, u32>, slot: Option<&Slot<C>>) -> Result<(), AllocError>
    ensures { OnOk result ((L : Log C) → TellsPages pages.old L → TellsPages pages.new (option_map (λ x. x.now) slot.entry ∷ L)) }
{
    if let Some(Slot::Record(record)) = slot {
        pages.insert(record.page, record.lrc)?;
    }
    Ok(())
}

// The newest complete checkpoint once the slot of that number is noted: an end completes what its begin names.
fn newest<C>(
    was: Option<Checkpoint>,
    draft: Option<&Draft>,
    slot: Option<&Slot<C>>,
    number: u32,
) -> Option<Checkpoint>
    ensures { (L : Log C) → number ≡ new_number L → TellsMaking (option_map (λ x. x.now) draft.entry) (making L) → was ≡ complete L → result ≡ complete (option_map (λ x. x.now) slot.entry ∷ L) }
{
    let Some(Slot::Checkpoint(CheckpointPart::Complete { begin })) = slot else {
        return was;
    };
    match draft {
        Some(draft) if draft.begin == *begin => Some(Checkpoint {
            begin: *begin,
            end: number,
        }),
        _ => was,
    }
}

// A count is at most the number of slots, so it never stops at the greatest number; alone it does not know that.
#[tactic(auto, using(crate::proofs::Counting::how_many_misfits_most))]
fn note_misfit<C>(misfits: &mut u32, slot: Option<&Slot<C>>)
    ensures { Carries (λ n L. n ≡ how_many_misfits L) (option_map (λ x. x.now) slot.entry) misfits.old misfits.new }
{
    if slot.is_none() {
        *misfits = misfits.saturating_add(1);
    }
}

// The count of a kind is at its number less one.
fn note_kind<C>(kinds: &mut [(SlotKind, u32); 9], slot: Option<&Slot<C>>)
    ensures { Carries TellsKinds (option_map (λ x. x.now) slot.entry) kinds.old kinds.new }
{
    if let Some(slot) = slot {
        let place = u8::from(slot.kind()) as usize - 1;
        kinds[place].1 = kinds[place].1.saturating_add(1);
    }
}

#[cfg(test)]
mod tests {
    use super::*;
    use format::{Action, JobEvent, PageRecord};
    use std::test::Fail;

    fn record(action: Action, lrc: u32, link: u32) -> Slot<u8> {
        Slot::Record(PageRecord {
            action,
            page: 3,
            job: 7,
            lrc,
            link,
            change: 0,
        })
    }

    fn complete(begin: u32) -> Slot<u8> {
        Slot::Checkpoint(CheckpointPart::Complete { begin })
    }

    #[test]
    fn a_job_with_one_change_taken_back(rt: HostRuntime) -> Result<(), Fail> {
        let open = Slot::<u8>::Job {
            event: JobEvent::Open,
            job: 7,
        };
        let mut summary = Summary::new::<u8>(rt.alloc());
        summary.note(Some(&open))?;
        summary.note(Some(&record(Action::Put, 1, 0)))?;
        summary.note(Some(&record(Action::Put, 2, 2)))?;
        summary.note(Some(&record(Action::TakeBack, 3, 2)))?;
        let job = JobSummary {
            open: true,
            committed: false,
            ended: false,
            not_taken_back: 1,
        };
        assert_eq!(rt; summary.jobs.get(&7).copied(), Some(job));
        assert_eq!(rt; summary.pages.get(&3).copied(), Some(3));
        assert_eq!(rt; summary.misfits, 0);
        let kinds = summary
            .kinds
            .iter()
            .copied()
            .filter(|(_, count)| *count > 0);
        let expected = [
            (SlotKind::Open, 1),
            (SlotKind::Change, 2),
            (SlotKind::Compensation, 1),
        ];
        assert!(rt; kinds.eq(expected));
        Ok(())
    }

    #[test]
    fn a_page_named_twice_spoils_a_checkpoint(rt: HostRuntime) -> Result<(), Fail> {
        let begin = Slot::<u8>::Checkpoint(CheckpointPart::Begin);
        let page = Slot::<u8>::Checkpoint(CheckpointPart::DirtyPage { page: 3, start: 1 });
        let mut summary = Summary::new::<u8>(rt.alloc());
        summary.note(Some(&begin))?;
        summary.note(Some(&page))?;
        summary.note(Some(&complete(1)))?;
        summary.note(Some(&begin))?;
        summary.note(Some(&page))?;
        summary.note(Some(&page))?;
        summary.note(Some(&complete(4)))?;
        assert_eq!(rt; summary.checkpoint, Some(Checkpoint { begin: 1, end: 3 }));
        Ok(())
    }
}
