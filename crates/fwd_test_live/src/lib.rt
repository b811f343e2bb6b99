//! Tests of the devices of the machine: followed files, a disk in folders, and the loop with peers on
//! loopback.
//!
//! No contract says what the machine does. So each call is made once on its happy path, and once where the
//! machine refuses. `tests/live/run` shows the rest with the whole program.
#![tactic(auto)]

#[cfg(test)]
mod disk;
#[cfg(test)]
mod rotation;
#[cfg(test)]
mod scenes;
#[cfg(test)]
mod stage;
#[cfg(test)]
mod steps;
