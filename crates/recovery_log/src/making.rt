// The checkpoint that the newest slots are making.
ghost use Rattle.std.specs.Prelude.{◌≡◌, ◌∷◌, IfOk};
ghost use Rattle.std.specs.Option.{option_map};
ghost use Rattle.recovery_log.specs.Log.{Log, making, new_number};
ghost use Rattle.recovery_log.specs.Summary.{TellsMaking};

use format::{CheckpointPart, Slot};
use std::alloc::{AllocError, Global};
use std::collections::BTreeSet;

#[derive(Drop)]
pub(crate) struct Draft {
    // The number of its begin.
    pub(crate) begin: u32,
    // What its entries name, so that a second entry for one page or job is seen.
    pages: BTreeSet<u8>,
    jobs: BTreeSet<u32>,
}

// What is in the making once the slot of that number is noted: a begin starts anew, an entry goes on unless it names
// what another has named, and any other slot leaves nothing.
pub(crate) fn next_draft<C>(
    was: Option<Draft>,
    slot: Option<&Slot<C>>,
    number: u32,
    heap: Global,
) -> Result<Option<Draft>, AllocError>
    ensures { IfOk result (λ now. (L : Log C) → number ≡ new_number L → TellsMaking was (making L) → TellsMaking now (making (option_map (λ x. x.now) slot.entry ∷ L))) }
{
    let Some(Slot::Checkpoint(part)) = slot else {
        return Ok(None);
    };
    match (*part, was) {
        (CheckpointPart::Begin, _) => Ok(Some(Draft {
            begin: number,
            pages: BTreeSet::new(heap),
            jobs: BTreeSet::new(heap),
        })),
        (CheckpointPart::DirtyPage { page, .. }, Some(mut draft)) => {
            Ok(draft.pages.insert(page)?.then_some(draft))
        }
        (CheckpointPart::OpenJob { job, .. }, Some(mut draft)) => {
            Ok(draft.jobs.insert(job)?.then_some(draft))
        }
        _ => Ok(None),
    }
}
