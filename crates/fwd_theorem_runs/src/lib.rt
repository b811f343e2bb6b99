//! How a run relates to runs of more turns, of other tick numbers and after other recoveries.
//!
//! A run of more turns begins as one of fewer turns. A run with a number of ticks is a run without one, in
//! which the loop brings Stop after the last tick; once it is stopped it counts no ticks. A run that
//! recovered nothing goes on as on an empty disk.
#![tactic(auto)]

mod recovery;
mod stop;
mod turns;

pub use recovery::{empty_recoveries_are_alike, runs_recover_first};
pub use stop::{last_ticks_stop_like_the_loop, stopped_runs_count_no_ticks, ticks_end_with_a_stop};
pub use turns::{an_end_ends_a_run, more_turns_continue_a_run};
