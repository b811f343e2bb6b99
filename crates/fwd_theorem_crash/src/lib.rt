//! Crash consistency of runs whose appends are fsynced.
//!
//! At any point of a run whose appends are fsynced, even inside a call on the disk, whatever a crash
//! leaves of the disk has the file of each pending chunk, whole. The next run recovers it, pending for
//! the same outputs. A recorded outcome stays recorded, and each flush begins with the events of its
//! chunk.
#![tactic(auto)]

mod consistency;

pub use consistency::{
    crash_points_are_safe, flushes_send_their_chunks, offset_calls_are_reached,
    recorded_outcomes_stay, safe_chunks_are_recovered, steps_are_safe, turns_are_safe,
};
