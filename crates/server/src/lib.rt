// A page server with a log: its calls over any page store, any log store and any kind of change, with what they promise of every run.
#![tactic(auto)]

mod handles;
mod not_ended;
mod server;

pub use calls::Stage;
pub use device::{LogStore, PageStore};
pub use format::{Change, Page};
pub use handles::{AnalysisReceipt, JobHandle, RedoReceipt};
pub use not_ended::NotEnded;
pub use rules::{Device, DirtyPage, JobEntry, Refusal};
pub use server::Server;
