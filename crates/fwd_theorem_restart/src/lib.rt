//! Runs that begin on a disk as a killed process left it: once they have loaded, they are safe again, and
//! what they accept survives the next crash.
#![tactic(auto)]

mod restarts;

pub use restarts::{restarted_runs_are_safe, restarted_runs_keep_accepted_batches};
