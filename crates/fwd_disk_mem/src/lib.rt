//! A disk in memory, with chosen failures and crashes.
//!
//! Tests and replays use it. It records every call with its answer, fails the calls of chosen numbers, and
//! returns the disks that a crash after some of the calls leaves.
//!
//! Its answers are those of the model of a disk, each answer counts the faults exactly, and `image` returns
//! a state that a crash may leave.
#![tactic(auto)]

mod content;
mod copies;
mod crash;
mod disk;
mod entry;
mod file_table;
mod image;
mod listing;

pub use disk::MemDisk;
