//! Runs the engine: over the runs of a schedule, which are replayed over a disk and files in memory, or
//! over the devices of a live run. The output is a text: the report, and for a replayed run, if that is
//! shown, what its standard outputs took before it.
//!
//! `run_live`, over devices with a call log or without, makes the calls of the reference model's run from
//! its loading on, stopped after the given number of clock ticks, if there is one. It ends in
//! `DiskFailed` or `LoopFailed` only if a failure of the disk or the loop was counted, and in
//! `TurnsSpent` only if the loop returned that many events. In `replay` the joined trace of each run is
//! one of the reference model in which all devices answer as the schedule says, with its changes of files
//! at their positions. A run that is to be cut is cut in the turn that takes its last event. The next run
//! finds on the disk the post-crash state after the given number of calls, chosen by the pick
//! (`IsReplayed`).
//!
//! `run_recorded` runs over devices as `run_live` does, and records the run: it returns the schedule with the
//! one run that was recorded too. A run over settings that follow files, or over a disk with chunks, isn't
//! recorded and doesn't start (`RanSo`).
//!
//! `generate` returns a generated load: a configuration, and a schedule in which one connection sends
//! numbered lines. It writes the two texts exactly as their definitions say, line by line. Its only error is
//! out of memory.
#![tactic(auto)]

mod guarantee;
mod life;
mod live_run;
mod load;
mod names;
mod progress;
mod recorded_run;
mod report;
mod runs;
mod setup;
mod start;
mod turns;

pub use guarantee::all_runs_keep_the_guarantee;
pub use live_run::run_live;
pub use load::{Load, generate};
pub use recorded_run::{Ran, run_recorded};
pub use report::{Ending, Reported, Shown};
pub use runs::replay;
