//! Retry waits and timers: how long a failed flush waits, and which due timer comes first.
//!
//! `wait_of` equals its definition over unbounded integers. `Timers` holds exactly the timers that were set
//! and not cleared, and `next` returns the first due one after a given one. With reserved room, nothing
//! allocates.
#![tactic(auto)]

mod timer;
mod timers;
mod wait;

pub use timer::{Timer, earlier};
pub use timers::Timers;
pub use wait::wait_of;
