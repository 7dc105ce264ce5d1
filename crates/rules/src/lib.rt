// The rules of the server as definitions, and theorems about them.
#![tactic(auto)]

mod refusal;
mod table;
mod theorems;
mod words;

pub use refusal::{Device, Refusal};
pub use table::{DirtyPage, JobEntry};
pub use theorems::{every_outcome_is_there, worked_runs};
