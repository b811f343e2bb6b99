//! Runs over a keyed loop.
//!
//! The engine of a run calls a keyed loop, and that calls the loop below. So a run has two traces: that of
//! the engine, and that of the devices (`IsSecured`). Both have the same calls on the disk, the files and the
//! keeper. Without keys both are one trace (`without_keys_both_traces_are_one`). With keys the engine's calls
//! on the loop follow from those on the devices by the rules of the keyed loop (`secured_calls_are_carried`).
#![tactic(auto)]

mod traces;

pub use traces::{secured_calls_are_carried, without_keys_both_traces_are_one};
