// What a log says, told in one pass over its slots.
#![tactic(auto)]

mod error;
mod jobs;
mod making;
mod summary;
mod words;

pub use error::NoteError;
pub use jobs::JobSummary;
pub use summary::{Checkpoint, Summary};
