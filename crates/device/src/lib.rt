// The two devices: what a page store and a log store mean.
#![tactic(auto)]

mod log_store;
mod page_store;
mod power;
mod words;

pub use log_store::{LogFault, LogStore, MOST_SLOTS};
pub use page_store::{MOST_PAGES, PageFault, PageStore};
pub use power::check_power;
