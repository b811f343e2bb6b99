//! The engine: it loads the chunks on the disk, and then handles the events of the loop one at a time, until
//! the run is over. It does what the reference model says, over a loop, a disk and files.
//!
//! The contracts hold for all of these devices, with or without a call log. For each history that the engine
//! represents, the calls of a step are those of the model's step, and the engine then represents the history
//! after it. The calls of a run are those of the model's run, to its end.
//!
//! `paused`, `table`, `tally`, `ticks` and `stopped` return what the history gives. `DiskFault` is returned
//! only if a disk failure was counted, `LoopFault` exactly if the event is `Failed`.
#![tactic(auto)]

mod dispatch;
mod engine;
mod run_end;

pub use dispatch::step;
pub use engine::{BeginErr, Engine, EngineStop, Turn};
pub use run_end::{is_clock_tick, is_finished};
