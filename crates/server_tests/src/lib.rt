// Tests of the server over each kind of device, in a crate of their own, since a crate with tests is proved twice.
// What is expected is worked out by hand from the rules, or stands in their worked runs.
#![tactic(auto)]

#[cfg(test)]
mod endings;
#[cfg(test)]
mod lives;
#[cfg(test)]
mod restarts;
#[cfg(test)]
mod steps;
#[cfg(test)]
mod uses;
