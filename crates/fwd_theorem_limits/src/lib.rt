//! When a run ends, how much it keeps and has in flight, and what its report counts: theorems on every run of
//! the reference model.
#![tactic(auto)]

mod counters;
mod flush_limits;
mod last_tick;
mod link_room;
mod run_end;
mod storage_limits;

pub use counters::counters_count_facts;
pub use flush_limits::flights_are_limited;
pub use last_tick::stop_follows_last_tick;
pub use link_room::room_pushes_the_rest;
pub use run_end::{failed_gets_end_runs, first_stop_counts, runs_end_when_due};
pub use storage_limits::{closings_keep_limits, kept_bytes_are_limited};
