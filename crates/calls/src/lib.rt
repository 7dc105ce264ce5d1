// The calls of the server, each proved to do its plan: for the crate `server` alone, which makes them public with what they promise of every run.
// So a call here may ask something of its caller: that the server is in a state that some calls lead to.
#![tactic(auto)]

mod asking;
mod copies;
mod devices;
mod last;
mod reading;
mod restart;
mod room;
mod service;
mod state;
mod taking_back;

pub use state::{Stage, State};
