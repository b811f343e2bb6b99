//! The top call: `log_forwarder` does all that the program does, over the disk, the files, the loop, the
//! keeper of offsets and the sink that it is given.
//!
//! Its calls on the files are those of `asks` (the configuration's files, then the schedule of a replay).
//! Then its calls on all devices are, for `run`, those of the reference model's run, for `list` those of
//! loading on the disk, and for `replay` and `gen` none. The definitions say exactly when each status
//! comes. If memory runs out, the calls are a prefix of these, and the texts of earlier runs are kept.
//! Over files with a call log whose calls return the existing bytes and don't fail, text and status are
//! those of these bytes; for `gen` those of the two generated texts. With `--record` the schedule of a run is
//! written to a second sink, after its report. Which settings sections have is a
//! relation, because the platform decides whether a text is a pattern. `docs/guarantees.md` states the
//! clauses `promise` and `crashes` in words.
#![tactic(auto)]

mod crash_consistency;
mod determinism;
mod guarantee;
mod job;
mod offsets;
mod record;
mod recording;
mod sent_records;
mod status;
mod top;
mod turns;
mod words;

pub use fwd_config::{ConfigKind, Place};
pub use fwd_script::ScheduleKind;
pub use fwd_settings_schema::SettingKind;
pub use status::{ConfigRefusal, Status, status_line};
pub use top::{log_forwarder, watched_forwarder};
pub use words::{Command, read_words, tape_file};
