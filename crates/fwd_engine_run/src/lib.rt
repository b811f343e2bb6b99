//! Runs an engine that has begun: it gets the offsets that are kept of followed files, starts the loop, takes
//! turns until the run is over, and puts the settled offsets after each turn. The calls on loop, disk, files
//! and keeper are those of the reference model's run after its recovery, to its end. `run` makes a whole run.
//! Its three parts are for a caller that has something to do at the last tick: `run_to_last`, `stop` and
//! `run_on`.
//!
//! `KeeperFailed` is returned only if a failure of the keeper was counted, `LoopFailed` only if one of the
//! loop was, and `TurnsSpent` only if the loop gave that many events.
#![tactic(auto)]

mod kept_offsets;
mod run_loop;
mod run_parts;
mod turns;

pub use fwd_engine::{BeginErr, Engine, EngineStop, Turn};
pub use kept_offsets::{Got, KeptOffsets};
pub use run_loop::{RunEnd, finish, run, show_begun, snapshot_of};
pub use run_parts::{Paused, run_on, run_to_last, stop};
