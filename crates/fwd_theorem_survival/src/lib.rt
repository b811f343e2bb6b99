//! What a crash leaves, in the words of a reader: no accepted batch is lost, and no acknowledged message.
//!
//! `accepted_batches_survive` puts the theorems on replies and on crash points together. Whatever a crash
//! leaves of the disk at any point of a run whose appends are fsynced, the next run recovers each accepted
//! batch of an input that keeps its chunks in files, whole. It is pending for each output that matches it
//! and hadn't resolved it.
#![tactic(auto)]

mod survival;

pub use survival::accepted_batches_survive;
