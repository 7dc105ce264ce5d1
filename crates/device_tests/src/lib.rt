// Tests of the devices, in a crate of their own, since a crate with tests is proved twice.
#![tactic(auto)]

#[cfg(test)]
mod battery_memory;
#[cfg(test)]
mod counting;
#[cfg(test)]
mod logs_on_pages;
#[cfg(test)]
mod scripted;
#[cfg(test)]
mod spans;
