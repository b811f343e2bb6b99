//! Disks and the disk in memory: how their answers compare.
#![tactic(auto)]

mod disks;

pub use disks::disks_answer_as_in_memory;
