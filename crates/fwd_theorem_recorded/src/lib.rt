//! What was recorded of a run replays.
//!
//! A keyed loop doesn't depend on the numbers of links. A schedule determines its run, with each call and
//! fact. So the replay of a recorded run is that run again, with links numbered by the order of their dials.
#![tactic(auto)]

mod links;
mod replay;
mod same_run;

pub use links::keyed_loops_keep_renamed_traces;
pub use replay::recorded_runs_replay;
pub use same_run::schedules_determine_runs;
