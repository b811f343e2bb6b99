//! Flush attempts: starts those of due routes, and advances them until an output has answered or no retry
//! is left.
//!
//! `walk` starts the due routes that may start, with content that is read from the chunk's file; `room`,
//! `back` and `broken` advance an attempt. Over every loop, disk and files, their calls are those of the
//! reference model's actions.
#![tactic(auto)]

mod dispatch;
mod free_places;
mod outcome;
mod start;

pub use dispatch::{back, broken, room, walk};
pub use fwd_engine_chunks::{RunSettings, close_all};
