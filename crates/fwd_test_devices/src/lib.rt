//! Fault-injecting devices for tests: one call fails with out of memory.
//!
//! Any call on a disk, a loop, files or a sink may run out of memory, and no device logs such a call. So no
//! contract says which calls come after it, and tests count them: `Faulty` wraps a device and fails the
//! call with a given number. The devices of a run share a `Refusal`, which counts all their calls.
#![tactic(auto)]

mod disk;
mod event_loop;
mod failing_call;
mod faulty;
mod files;
mod outcome;
mod sink;

pub use failing_call::Refusal;
pub use faulty::Faulty;
pub use outcome::{Came, Ended};
