// What stands in bytes: a page, a kind of change, a slot of the log.
#![tactic(auto)]

mod bytes;
mod change;
mod page;
mod slot;
mod words;

pub use bytes::{all_zero, number_at};
pub use change::Change;
pub use page::Page;
pub use slot::{Action, CheckpointPart, JobEvent, Misfit, PageRecord, Slot, SlotKind};
