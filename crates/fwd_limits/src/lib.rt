//! Limits on what a run keeps: which chunks an output evicts so that a new one fits its storage, and which
//! inputs are paused as their chunks fill memory.
//!
//! All functions read the table and allocate nothing.
//!
//! Repeated calls of `next_loss` give the shortest list of the lowest chunks (`one_after_another`);
//! `paused` equals its definition.
#![tactic(auto)]

mod backpressure;
mod chunk_state;
mod eviction;
mod theorems;

pub use backpressure::{MemLimits, paused};
pub use eviction::{Loss, next_loss};
pub use theorems::{losses_are_the_lowest, one_after_another};
