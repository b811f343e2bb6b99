//! What a run does at each event, step by step: what it reads, what its batches are, and when it polls,
//! dispatches, marks and removes.
#![tactic(auto)]

mod batches;
mod clock;
mod offsets;
mod payloads;
mod resolutions;
mod routing;
mod streams;
mod ticks;
mod turns;

pub use batches::complete_batches_follow_settings;
pub use clock::clock_is_latest_tick;
pub use offsets::turns_put_settled_offsets;
pub use payloads::payloads_have_all_events;
pub use resolutions::resolved_routes_are_settled;
pub use routing::tags_route_by_globs;
pub use streams::{
    connections_hold_what_came, reads_complete_the_rest, standard_inputs_hold_what_came,
};
pub use ticks::{events_end_with_a_dispatch, ticks_poll_followed_files};
pub use turns::{broken_runs_keep_the_guarantee, runs_come_by_turns, runs_end_for_a_cause};
