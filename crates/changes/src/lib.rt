// The two kinds of change: patches and additions.
#![tactic(auto)]

mod addition;
mod examples;
mod patch;
mod words;

pub use addition::Addition;
pub use patch::Patch;
