//! Recorded runs: devices that wrap others and keep what these brought and answered, and the schedule of a
//! run that was recorded so.
//!
//! A `Recorder` is a `Loop` that passes each call on to the loop below and keeps the answer. A `CountedDisk`
//! is a `Disk` that passes each call on, numbers it, and keeps the numbers of the calls that failed. The
//! invariants of both tie their own call logs to those of the devices below. `schedule_of` returns the
//! schedule with the one life that was recorded. It has the links numbered from 1, and a text can express it,
//! so `read_schedule` reads back what `write_schedule` writes of it. `stopped_schedule_of` returns that of a
//! run that was stopped, without a call, after a number of events. A loop in memory with this schedule
//! answers the recorded calls as they were answered (`recorded_runs_play`).
//!
//! The call log of a recorder says whether the stop was noted with `note_stop`. So a caller knows of a
//! recorder that generic code has used that no stop was noted, and that it saw the calls alone. A recorder
//! below another loop can't note the stop where it comes: there `heard` gives its place, and
//! `stopped_schedule_of` takes it.
#![tactic(auto)]

mod counted_disk;
mod log_markers;
mod notes;
mod recorder;
mod schedule;
mod theorems;

pub use counted_disk::CountedDisk;
pub use log_markers::{DiskRecord, DiskStart, LoopStart, SeenRecord};
pub use notes::Notes;
pub use recorder::Recorder;
pub use schedule::{schedule_of, stopped_schedule_of};
pub use theorems::recorded_runs_play;
