// The script of scripted memory, for tests and tools: at which operation of its two devices power is lost, and what that leaves.
#![tactic(auto)]

mod plan;
mod script;

pub use plan::{Choice, Loss, PowerPlan, answer};
pub use script::Script;
